//! Assignments, each a coil; several may share a rung.

ghost use Rattle.std.specs.Prelude.{◌≡◌, ◌<◌, IfSome, None, true};
ghost use Rattle.diagram_program.specs.declared.cell.Cell.TheVariants.{Coil};
ghost use Rattle.st_statements.specs.Operands.{are_within};
ghost use Rattle.draw_check.specs.Groups.{IsAssignment, IsCoil, Take, are_reading, coil_for};

use crate::plan::{Network, first_of, is_link};
use diagram_program::gates::Action;
use diagram_program::{Cell, CoilMode};
use st_expression::Expression;
use st_statements::{StatementList, reads};

/// Whether a coil on the variable writes its link, or its inverse; none where it is another cell.
pub(crate) fn coil_on(action: Action, variable: usize) -> Option<bool>
    ensures { IfSome result (λ on. action.cell ≡ Coil (coil_for on) variable None) }
{
    match action.cell {
        Cell::Coil {
            mode: CoilMode::Store,
            var,
            memory: None,
        } if var == variable => Some(true),
        Cell::Coil {
            mode: CoilMode::Inverse,
            var,
            memory: None,
        } if var == variable => Some(false),
        _ => None,
    }
}

/// Whether one of the next so many assignments looks at the variable.
#[tactic(auto, unfolding(crate::specs::Groups::are_reading))]
fn are_reading(list: &StatementList, count: usize, variable: usize) -> bool
    ensures { result ≡ are_reading variable count list.now }
{
    if count == 0 {
        return false;
    }
    match list {
        StatementList::Assign { value, next, .. } => {
            reads(value, variable) || are_reading(next, count - 1, variable)
        }
        _ => false,
    }
}

/// The assignment that a list begins with: its variable, its expression and the statements behind it.
pub(crate) fn assignment_of(list: &StatementList) -> Option<(usize, &Expression, &StatementList)>
    ensures { IfSome result (λ x. IsAssignment x.0 x.1.now x.2.now list.now) }
{
    match list {
        StatementList::Assign {
            variable,
            value,
            next,
        } => Some((*variable, value, next)),
        _ => None,
    }
}

/// The statements behind an assignment, where this cell is its coil and the next so many assignments don't look at what it writes.
#[tactic(auto, using(crate::proofs::Within::assigns_within))]
fn take_coil<'a>(
    network: Network<'_>,
    variables: usize,
    action: Action,
    later: usize,
    list: &'a StatementList,
) -> Option<&'a StatementList>
    requires rung { network.rung < network.program.now.rungs }
    requires within { are_within variables list.now ≡ true }
    ensures coil { IfSome result (λ next. IsCoil network.entry.program.now variables network.entry.rung network.entry.helpers.now action later list.now next.now) }
    ensures within { IfSome result (λ next. are_within variables next.now ≡ true) }
{
    let (variable, value, next) = assignment_of(list)?;
    let on = coil_on(action, variable)?;
    if are_reading(next, later, variable)
        || !is_link(network, action.place as usize, 0, value, on)
    {
        return None;
    }
    Some(next)
}

/// The statements behind those assignments that these coils are. Expressions are those of the rung's start, so none looks at what a coil
/// before it writes.
#[tactic(auto, using(crate::proofs::Taking::take_none, crate::proofs::Taking::take_by))]
pub(crate) fn take_coils<'a>(
    network: Network<'_>,
    variables: usize,
    actions: &[Action],
    list: &'a StatementList,
) -> Option<&'a StatementList>
    requires rung { network.rung < network.program.now.rungs }
    requires within { are_within variables list.now ≡ true }
    ensures take { IfSome result (λ rest. Take network.entry.program.now variables network.entry.rung network.entry.helpers.now actions.now list.now rest.now) }
    ensures within { IfSome result (λ rest. are_within variables rest.now ≡ true) }
{
    let Some((action, more)) = first_of(actions) else {
        return Some(list);
    };
    let next = take_coil(network, variables, action, more.len(), list)?;
    take_coils(network, variables, more, next)
}
