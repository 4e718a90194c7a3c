//! Whether a run switches the target on.

ghost use Rattle.std.specs.Prelude.{◌≡◌, ◌≤◌, ◌↔◌, Bool, List, [], ◌∷◌, IsTrue, Contains, None, slice_index_or, false};
ghost use Rattle.scan_cycle.specs.Standing.{Fits};
ghost use Rattle.reach_runs.specs.Asking.{AreTimed, Gives, SwitchesOn, question_of};
ghost use Rattle.reach_runs.specs.Rhythm.{next_after};

use crate::assumed::is_allowed;
use crate::query::RunQuery;
use crate::run::RunScan;
use crate::target::are_so;
use crate::timing::Timing;
use scan_cycle::{State, scan};

/// Whether a scan may give an input a value: any, where it is listed, and otherwise the one that the state stores.
fn may_be_given(query: RunQuery<'_>, var: usize, value: bool) -> bool
    ensures { IsTrue result ↔ ((Contains query.entry.listed.now var → ⊥)
        → value ≡ slice_index_or query.entry.state.now.held.values var false) }
{
    value == query.state.value_or_off(var) || query.listed.contains(&var)
}

/// Whether a scan gives each input a value that it may where nothing is assumed.
fn gives_each(query: RunQuery<'_>, inputs: &[bool]) -> bool
    requires { Fits query.program.now query.state.now }
    ensures { IsTrue result ↔ Gives (record (question_of query.entry) { assumed = None }) inputs.now }
{
    let vars = query.program.decls().vars();
    let mut place = 0;
    for var in 0..vars.len() {
        if !vars[var].is_input() {
            continue;
        }
        if inputs.len() <= place || !may_be_given(query, var, inputs[place]) {
            return false;
        }
        place += 1;
    }
    place == inputs.len()
}

/// Whether a scan gives the inputs what it may.
fn gives(query: RunQuery<'_>, inputs: &[bool]) -> bool
    requires { Fits query.program.now query.state.now }
    ensures { IsTrue result ↔ Gives (question_of query.entry) inputs.now }
{
    gives_each(query, inputs) && is_allowed(query.assumed, inputs)
}

/// Whether a scan at the moment is in time: the one after a scan at another moment, or the first one, from its moment on.
fn is_in_time(timing: Timing, from: u64, last: Option<u64>, moment: u64) -> bool
    ensures { (inputs : List Bool)
        → (IsTrue result ↔ AreTimed timing (next_after timing from last) (record { moment = moment; inputs = inputs } ∷ [])) }
{
    match (timing, last) {
        (Timing::AnyMoments, None) => from <= moment,
        (Timing::AnyMoments, Some(last)) => last <= moment,
        (Timing::Every(_), None) => moment == from,
        (Timing::Every(every), Some(last)) => last <= moment && moment - last == every,
    }
}

/// Whether a run switches the target on with its last scan. The run is made from the state of the query, in `state`, which is written over.
pub fn switches_on(query: RunQuery<'_>, state: &mut State, run: &[RunScan]) -> bool
    requires state { Fits query.program.now query.state.now }
    requires from { query.state.now.moment ≤ query.from }
    requires fits { Fits query.program.now state.old }
    ensures on { IsTrue result ↔ SwitchesOn (question_of query.entry) run.now }
    ensures fits { Fits query.entry.program.now state.new }
{
    query.state.checked();
    state.checked();
    state.copy_from(query.state);
    let mut last = None;
    for done in 0..run.len() {
        let one = &run[done];
        if !is_in_time(query.timing, query.from, last, one.moment) || !gives(query, &one.inputs) {
            return false;
        }
        let Ok(()) = scan(query.program, state, &one.inputs, one.moment) else {
            return false;
        };
        let is_on = are_so(state, query.target);
        if is_on {
            return done + 1 == run.len();
        }
        last = Some(one.moment);
    }
    false
}
