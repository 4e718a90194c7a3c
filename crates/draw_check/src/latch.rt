//! IF with constants alone: set and reset coils.

ghost use Rattle.std.specs.Prelude.{◌≡◌, ◌<◌, IfSome, IsTrue, None, true};
ghost use Rattle.diagram_program.specs.declared.cell.Cell.TheVariants.{Coil};
ghost use Rattle.st_statements.specs.Operands.{are_within};
ghost use Rattle.draw_check.specs.Groups.{IsLatch, Latch, latch_for};

use crate::coils::assignment_of;
use crate::plan::{Network, first_of, is_link};
use diagram_program::gates::Action;
use diagram_program::{Cell, CoilMode};
use st_expression::Expression;
use st_statements::{StatementList, constant_of};

/// Whether a coil sets the variable, or resets it; none where it is another cell.
fn latch_on(action: Action, variable: usize) -> Option<bool>
    ensures { IfSome result (λ on. action.cell ≡ Coil (latch_for on) variable None) }
{
    match action.cell {
        Cell::Coil {
            mode: CoilMode::Set,
            var,
            memory: None,
        } if var == variable => Some(true),
        Cell::Coil {
            mode: CoilMode::Reset,
            var,
            memory: None,
        } if var == variable => Some(false),
        _ => None,
    }
}

/// The statements behind an assignment of a constant, where this cell is its set or reset coil under the condition.
#[tactic(auto, using(crate::proofs::Within::assigns_within))]
fn latch_coil<'a>(
    network: Network<'_>,
    variables: usize,
    condition: &Expression,
    action: Action,
    list: &'a StatementList,
) -> Option<&'a StatementList>
    requires rung { network.rung < network.program.now.rungs }
    requires within { are_within variables list.now ≡ true }
    ensures latch { IfSome result (λ next. IsLatch network.entry.program.now variables network.entry.rung network.entry.helpers.now condition.now action list.now next.now) }
    ensures within { IfSome result (λ next. are_within variables next.now ≡ true) }
{
    let (variable, value, next) = assignment_of(list)?;
    let on = latch_on(action, variable)?;
    if constant_of(value)? != on || !is_link(network, action.place as usize, 0, condition, true) {
        return None;
    }
    Some(next)
}

/// Whether these coils are the assignments of an IF with the condition.
#[tactic(auto, using(crate::proofs::Rungs::latch_none, crate::proofs::Rungs::latch_by))]
pub(crate) fn is_latch(
    network: Network<'_>,
    variables: usize,
    condition: &Expression,
    actions: &[Action],
    accepted: &StatementList,
) -> bool
    requires rung { network.rung < network.program.now.rungs }
    requires within { are_within variables accepted.now ≡ true }
    ensures { IsTrue result → Latch network.entry.program.now variables network.entry.rung network.entry.helpers.now condition.now actions.now accepted.now }
{
    let Some((action, more)) = first_of(actions) else {
        return matches!(accepted, StatementList::End);
    };
    match latch_coil(network, variables, condition, action, accepted) {
        Some(next) => is_latch(network, variables, condition, more, next),
        None => false,
    }
}
