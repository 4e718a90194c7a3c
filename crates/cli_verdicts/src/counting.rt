//! Which states count.

ghost use Rattle.std.specs.Prelude.{◌≡◌, IfOk, true};
ghost use Rattle.scan_cycle.specs.Standing.{fresh};
ghost use Rattle.invariant_cases.specs.Assuming.{assumed_of};
ghost use Rattle.invariant_sets.specs.Invariants.{IsStayingAssuming};
ghost use Rattle.diff_cases.specs.Assuming.{assumed_of_both};
ghost use Rattle.cli_verdicts.specs.Ending.{AreAsked};

use diagram_program::Program;
use diff_cases::Assumptions;
use diff_meaning::{Counted, CountedStates};
use invariant_cases::Assumption;
use invariant_sets::{PAIR_SCANS, SCANS, Staying, staying_assuming};
use scan_cycle::{Memory, State};
use std::alloc::Global;

/// What stays so in a program from its fresh state on, in scans in which what is assumed is true.
fn staying_of(
    alloc: Global,
    program: &Program,
    assumption: Assumption<'_>,
) -> Result<Staying, Memory>
    ensures { IfOk result (λ staying. IsStayingAssuming program.now (assumed_of assumption.entry) (fresh program.now) staying) }
{
    let state = match State::fresh(alloc, program) {
        Ok(state) => state,
        Err(_) => return Err(Memory),
    };
    let staying = staying_assuming(alloc, program, &state, assumption, SCANS, PAIR_SCANS);
    drop(state);
    staying
}

/// The states in which it is so what stays so in each program from its fresh state on.
fn reachable(
    alloc: Global,
    assumed: Assumptions<'_>,
    old: &Program,
    new: &Program,
) -> Result<CountedStates, Memory>
    ensures { IfOk result (AreAsked true (assumed_of_both assumed.entry) old.now new.now) }
{
    let of_old = match staying_of(alloc, old, assumed.of_old) {
        Ok(staying) => staying,
        Err(_) => return Err(Memory),
    };
    match staying_of(alloc, new, assumed.of_new) {
        Ok(of_new) => Ok(CountedStates::Reachable {
            old: of_old,
            new: of_new,
        }),
        Err(_) => {
            drop(of_old);
            Err(Memory)
        }
    }
}

/// Which states are asked for: all, or those in which it is so what stays so, where these alone are.
fn asked_of(
    alloc: Global,
    is_reachable: bool,
    assumed: Assumptions<'_>,
    old: &Program,
    new: &Program,
) -> Result<CountedStates, Memory>
    ensures { IfOk result (AreAsked is_reachable (assumed_of_both assumed.entry) old.now new.now) }
{
    if is_reachable {
        reachable(alloc, assumed, old, new)
    } else {
        Ok(CountedStates::All)
    }
}

/// Which states count: of these those in which what is assumed is true.
///
/// # Errors
///
/// `Memory` when out of memory.
pub(crate) fn counted_of<'a>(
    alloc: Global,
    is_reachable: bool,
    assumed: Assumptions<'a>,
    old: &Program,
    new: &Program,
) -> Result<Counted<'a>, Memory>
    ensures states { IfOk result (λ c. AreAsked is_reachable (assumed_of_both assumed.entry) old.now new.now c.states) }
    ensures assumed { IfOk result (λ c. assumed_of_both c.assumed ≡ assumed_of_both assumed.entry) }
{
    match asked_of(alloc, is_reachable, assumed, old, new) {
        Ok(states) => Ok(Counted { states, assumed }),
        Err(_) => Err(Memory),
    }
}
