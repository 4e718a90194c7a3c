//! Which states count.

ghost use Rattle.std.specs.Prelude.{◌≡◌, IsTrue};
ghost use Rattle.causes_any_state.specs.Possible.{AreStatesOf, Counts, IsBefore, MayStay, pairs_of};

use crate::before::Before;
use diagram_program::Program;
use invariant_cases::Pair;
use invariant_runs::stays_so;
use invariant_sets::Staying;
use scan_cycle::State;

/// Which states count.
#[derive(Drop)]
pub struct States {
    /// By the coil's variable before the scan.
    pub before: Before,
    /// By what stays so in each of them, where that is known of them.
    pub staying: Option<Staying>,
}

/// Whether the coil's variable is as it is to be.
fn is_before(before: Before, coil: usize, state: &State) -> bool
    ensures { IsTrue result → IsBefore before coil state.now }
{
    match before {
        Before::Any => true,
        Before::Off => !state.value_or_off(coil),
    }
}

/// The same, where anything is to.
fn may_stay(program: &Program, states: &States, state: &State) -> bool
    requires { AreStatesOf program.now states.now }
    ensures { IsTrue result → MayStay states.now.staying state.now.held }
{
    match &states.staying {
        Some(staying) => stays_so(program, staying, state),
        None => true,
    }
}

/// Whether the state counts.
pub(crate) fn counts(program: &Program, states: &States, coil: usize, state: &State) -> bool
    requires { AreStatesOf program.now states.now }
    ensures { IsTrue result → Counts states.now coil state.now }
{
    is_before(states.before, coil, state) && may_stay(program, states, state)
}

/// The pairs that stay apart, where any are known.
pub(crate) fn pairs(states: &States) -> &[Pair]
    ensures { result.now ≡ pairs_of states.now.staying }
{
    match &states.staying {
        Some(staying) => staying.apart.list(),
        None => &[],
    }
}
