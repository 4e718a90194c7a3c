//! The statements of coils with an edge: the variable is written, and then the memory.

ghost use Rattle.std.specs.Prelude.{◌≡◌, ◌<◌, ◌∷◌, ◌++◌, [], IfSome, length};
ghost use Rattle.export_rungs.specs.Steps.{Begins, Go, IsMemory};

use crate::cells::{is_own, variable_of};
use crate::forms::{falling_coil, rising_coil};
use crate::lists::{assignment_of, both_of, inverse_of, is_variable};
use crate::rung::{Rung, shows};
use diagram_program::gates::Action;
use st_statements::StatementList;

/// The statements behind those that do what a coil `(P)` does: `v := power AND NOT m; m := power;`.
fn behind_rising<'a>(
    at: Rung<'_>,
    before: &[Action],
    done: &[Action],
    action: Action,
    list: &'a StatementList,
) -> Option<&'a StatementList>
    requires { done.now ≡ before.now ++ action ∷ [] }
    ensures { IfSome result (λ rest. Go at.entry.scan.program.now at.entry.scan.variables at.entry.scan.jumps at.entry.rung at.entry.known.now before.now (before.now ++ action ∷ []) list.now rest.now) }
{
    let (var, memory) = rising_coil(action.cell)?;
    let own = variable_of(at.scan.program, memory)?;
    let (variable, value, more) = assignment_of(list)?;
    let (power, remembered) = both_of(value)?;
    let kept = inverse_of(remembered)?;
    let (written, later, next) = assignment_of(more)?;
    if variable != var || written != own || !is_own(at.scan.program, var) {
        return None;
    }
    if !is_variable(kept, own)
        || !shows(at, before, power, action.place as usize)
        || !shows(at, done, later, action.place as usize)
    {
        return None;
    }
    Some(next)
}

/// The statements behind those that do what a coil `(N)` does: `v := NOT power AND m; m := power;`.
fn behind_falling<'a>(
    at: Rung<'_>,
    before: &[Action],
    done: &[Action],
    action: Action,
    list: &'a StatementList,
) -> Option<&'a StatementList>
    requires { done.now ≡ before.now ++ action ∷ [] }
    ensures { IfSome result (λ rest. Go at.entry.scan.program.now at.entry.scan.variables at.entry.scan.jumps at.entry.rung at.entry.known.now before.now (before.now ++ action ∷ []) list.now rest.now) }
{
    let (var, memory) = falling_coil(action.cell)?;
    let own = variable_of(at.scan.program, memory)?;
    let (variable, value, more) = assignment_of(list)?;
    let (inverse, kept) = both_of(value)?;
    let power = inverse_of(inverse)?;
    let (written, later, next) = assignment_of(more)?;
    if variable != var || written != own || !is_own(at.scan.program, var) {
        return None;
    }
    if !is_variable(kept, own)
        || !shows(at, before, power, action.place as usize)
        || !shows(at, done, later, action.place as usize)
    {
        return None;
    }
    Some(next)
}

/// The statements behind those that do what a coil with an edge does, where `before` are the cells that are done before it, and `done` with it.
pub(crate) fn behind_edge_coil<'a>(
    at: Rung<'_>,
    before: &[Action],
    done: &[Action],
    action: Action,
    list: &'a StatementList,
) -> Option<&'a StatementList>
    requires { done.now ≡ before.now ++ action ∷ [] }
    ensures { IfSome result (λ rest. Go at.entry.scan.program.now at.entry.scan.variables at.entry.scan.jumps at.entry.rung at.entry.known.now before.now (before.now ++ action ∷ []) list.now rest.now) }
{
    match behind_rising(at, before, done, action, list) {
        Some(next) => Some(next),
        None => behind_falling(at, before, done, action, list),
    }
}
