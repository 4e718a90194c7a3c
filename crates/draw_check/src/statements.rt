//! The rungs of a drawing, one statement after the other.

ghost use Rattle.std.specs.Prelude.{◌≡◌, ◌+◌, ◌<◌, ◌≤◌, IfOk, IfSome, IsTrue, Some, true};
ghost use Rattle.diagram_program.specs.declared.cell.Cell.TheVariants.{Block, Coil};
ghost use Rattle.diagram_program.specs.declared.mode.CoilMode.TheVariants.{Rising};
ghost use Rattle.st_statements.specs.declared.statement.StatementList.TheVariants.{End};
ghost use Rattle.st_statements.specs.Operands.{are_within};
ghost use Rattle.draw_check.specs.Groups.{Do, IsCallRung, IsLeave, IsReturn, IsSelection, IsTriggerRung};

use crate::block::is_second;
use crate::coils::take_coils;
use crate::jump::branch;
use crate::latch::is_latch;
use crate::plan::{Network, is_link, is_without_jump, only_action};
use diagram_program::{Cell, CoilMode};
use st_expression::Expression;
use st_statements::StatementList;

/// Whether a rung is the call of a trigger.
fn is_trigger(network: Network<'_>, output: usize, memory: usize, clock: &Expression) -> bool
    requires { network.rung < network.program.now.rungs }
    ensures { IsTrue result → IsTriggerRung network.entry.program.now network.entry.rung network.entry.helpers.now output memory clock.now }
{
    match only_action(network.program, network.rung) {
        Some(action) => {
            is_rising(action.cell, output, memory)
                && is_link(network, action.place as usize, 0, clock, true)
        }
        None => false,
    }
}

/// Whether a cell is a coil `(P)` on the variable, with this memory.
fn is_rising(cell: Cell, output: usize, memory: usize) -> bool
    ensures { IsTrue result → cell ≡ Coil Rising output (Some memory) }
{
    match cell {
        Cell::Coil {
            mode: CoilMode::Rising,
            var,
            memory: Some(number),
        } => var == output && number == memory,
        _ => false,
    }
}

/// Whether a rung is the call of a block.
fn is_call(network: Network<'_>, instance: usize, first: &Expression, second: &Expression) -> bool
    requires { network.rung < network.program.now.rungs }
    ensures { IsTrue result → IsCallRung network.entry.program.now network.entry.rung network.entry.helpers.now instance first.now second.now }
{
    match only_action(network.program, network.rung) {
        Some(action) => {
            is_block(action.cell, instance)
                && is_link(network, action.place as usize, 0, first, true)
                && is_second(network, action.place as usize, second)
        }
        None => false,
    }
}

/// Whether a cell is the block of an instance.
fn is_block(cell: Cell, instance: usize) -> bool
    ensures { IsTrue result → cell ≡ Block instance }
{
    match cell {
        Cell::Block { inst } => inst == instance,
        _ => false,
    }
}

/// The statements behind those that a rung without a jump does.
#[tactic(auto, using(crate::proofs::Taking::do_take, crate::proofs::Rungs::trigger_by, crate::proofs::Rungs::call_by, crate::proofs::Rungs::latch_list))]
pub(crate) fn behind<'a>(
    network: Network<'_>,
    variables: usize,
    list: &'a StatementList,
) -> Option<&'a StatementList>
    requires rung { network.rung < network.program.now.rungs }
    requires within { are_within variables list.now ≡ true }
    ensures does { IfSome result (λ rest. Do network.entry.program.now variables network.entry.helpers.now list.now rest.now network.entry.rung (network.entry.rung + 1)) }
    ensures within { IfSome result (λ rest. are_within variables rest.now ≡ true) }
{
    if !is_without_jump(network.program, network.rung) {
        return None;
    }
    let actions = network.program.actions(network.rung);
    match list {
        StatementList::Assign { .. } => take_coils(network, variables, actions, list),
        StatementList::Trigger {
            output,
            memory,
            clock,
            next,
        } if is_trigger(network, *output, *memory, clock) => Some(next),
        StatementList::Call {
            instance,
            first,
            second,
            next,
        } if is_call(network, *instance, first, second) => Some(next),
        StatementList::Select {
            condition,
            accepted,
            otherwise,
            next,
        } if is_end(otherwise) && is_latch(network, variables, condition, actions, accepted) =>
            Some(next),
        _ => None,
    }
}

/// The statements behind a RETURN that a list begins with.
pub(crate) fn return_of(list: &StatementList) -> Option<&StatementList>
    ensures { IfSome result (λ next. IsReturn next.now list.now) }
{
    match list {
        StatementList::Return { next } => Some(next),
        _ => None,
    }
}

/// The IF that a list begins with.
pub(crate) struct Selection<'a> {
    pub condition: &'a Expression,
    pub accepted: &'a StatementList,
    pub otherwise: &'a StatementList,
    pub next: &'a StatementList,
}

/// The IF that a list begins with, and the statements behind it.
pub(crate) fn selection_of(list: &StatementList) -> Option<Selection<'_>>
    ensures { IfSome result (λ x. IsSelection x.condition.now x.accepted.now x.otherwise.now x.next.now list.now) }
{
    match list {
        StatementList::Select {
            condition,
            accepted,
            otherwise,
            next,
        } => Some(Selection {
            condition,
            accepted,
            otherwise,
            next,
        }),
        _ => None,
    }
}

/// Whether a rung is an IF with a RETURN alone.
pub(crate) fn is_leave(
    network: Network<'_>,
    condition: &Expression,
    accepted: &StatementList,
    otherwise: &StatementList,
) -> bool
    requires { network.rung < network.program.now.rungs }
    ensures { IsTrue result → IsLeave network.entry.program.now network.entry.rung network.entry.helpers.now condition.now accepted.now otherwise.now }
{
    match (return_of(accepted), branch(network, condition, true)) {
        (Some(_), Some(target)) => target == network.program.rungs() && is_end(otherwise),
        _ => false,
    }
}

/// Whether no statement is left.
pub(crate) fn is_end(list: &StatementList) -> bool
    ensures { IsTrue result → list.now ≡ End }
{
    matches!(list, StatementList::End)
}
