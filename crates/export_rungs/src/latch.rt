//! Set and reset coils: the assignments of an IF.

ghost use Rattle.std.specs.Prelude.{◌≡◌, ◌<◌, ◌≤◌, IfSome, None, length, take};
ghost use Rattle.diagram_program.specs.declared.cell.Cell.TheVariants.{Coil};
ghost use Rattle.draw_check.specs.Groups.{latch_for};
ghost use Rattle.export_rungs.specs.Steps.{Go, IsLatch, Latches};

use crate::cells::is_own;
use crate::lists::{assignment_of, is_end, selection_of};
use crate::rung::{Rung, shows};
use diagram_program::gates::Action;
use diagram_program::{Cell, CoilMode};
use st_expression::Expression;
use st_statements::{StatementList, constant_of};

/// Whether a coil sets the variable, or resets it; none where it is another cell.
fn latch_on(action: Action, variable: usize) -> Option<bool>
    ensures { IfSome result (λ on. action.cell ≡ Coil (latch_for on) variable None) }
{
    match action.cell {
        Cell::Coil {
            mode: CoilMode::Set,
            var,
            memory: None,
        } if var == variable => Some(true),
        Cell::Coil {
            mode: CoilMode::Reset,
            var,
            memory: None,
        } if var == variable => Some(false),
        _ => None,
    }
}

/// The statements behind an assignment that does what a set or a reset coil does under the condition, which is looked at where the cells
/// `from` are done.
#[tactic(auto, using(crate::proofs::By::latched_by))]
fn behind_latch<'a>(
    at: Rung<'_>,
    from: &[Action],
    condition: &Expression,
    action: Action,
    accepted: &'a StatementList,
) -> Option<&'a StatementList>
    ensures { IfSome result (λ more. IsLatch at.entry.scan.program.now at.entry.rung at.entry.known.now from.now action condition.now accepted.now more.now) }
{
    let (variable, value, more) = assignment_of(accepted)?;
    let on = latch_on(action, variable)?;
    if constant_of(value)? != on
        || !is_own(at.scan.program, variable)
        || !shows(at, from, condition, action.place as usize)
    {
        return None;
    }
    Some(more)
}

/// How many cells are done behind the assignments of an IF, where it began with the cells `from` done and so many are done before these.
#[tactic(auto, using(crate::proofs::Latched::latched_none, crate::proofs::Latched::latched_more))]
fn latched(
    at: Rung<'_>,
    from: &[Action],
    actions: &[Action],
    done: usize,
    condition: &Expression,
    accepted: &StatementList,
) -> Option<usize>
    requires { done ≤ length actions.now }
    ensures latches { IfSome result (λ next. Latches at.entry.scan.program.now at.entry.scan.variables at.entry.scan.jumps at.entry.rung at.entry.known.now from.now (take done actions.now) (take next actions.now) condition.now accepted.now) }
    ensures within { IfSome result (λ next. (done ≤ next) × (next ≤ length actions.now)) }
{
    if is_end(accepted) {
        return Some(done);
    }
    if done >= actions.len() {
        return None;
    }
    let more = behind_latch(at, from, condition, actions[done], accepted)?;
    latched(at, from, actions, done + 1, condition, more)
}

/// The statements behind an IF that does what set and reset coils do, and how many cells are done then.
#[tactic(auto, using(crate::proofs::By::latch_by))]
pub(crate) fn behind_latches<'a>(
    at: Rung<'_>,
    actions: &[Action],
    done: usize,
    list: &'a StatementList,
) -> Option<(usize, &'a StatementList)>
    requires { done ≤ length actions.now }
    ensures does { IfSome result (λ x. Go at.entry.scan.program.now at.entry.scan.variables at.entry.scan.jumps at.entry.rung at.entry.known.now (take done actions.now) (take x.0 actions.now) list.now x.1.now) }
    ensures within { IfSome result (λ x. (done < x.0) × (x.0 ≤ length actions.now)) }
{
    let (condition, accepted, next) = selection_of(list)?;
    let from = &actions[..done];
    let after = latched(at, from, actions, done, condition, accepted)?;
    if after <= done {
        return None;
    }
    Some((after, next))
}
