//! The statements that a list begins with, and the parts of expressions.

ghost use Rattle.std.specs.Prelude.{◌≡◌, IfSome, IsTrue};
ghost use Rattle.st_statements.specs.declared.statement.StatementList.TheVariants.{End};
ghost use Rattle.export_rungs.specs.Forms.{IsAssignment, IsBoth, IsCalled, IsInverse, IsReturn, IsSelection, IsVariable};

use st_expression::{Expression, Operand};
use st_statements::StatementList;

/// The assignment that a list begins with: its variable, its expression and the statements behind it.
pub(crate) fn assignment_of(list: &StatementList) -> Option<(usize, &Expression, &StatementList)>
    ensures { IfSome result (λ x. IsAssignment x.0 x.1.now x.2.now list.now) }
{
    match list {
        StatementList::Assign {
            variable,
            value,
            next,
        } => Some((*variable, value, next)),
        _ => None,
    }
}

/// The call of a block, and the statements behind it.
#[derive(Clone, Copy)]
pub(crate) struct Call<'a> {
    pub instance: usize,
    pub first: &'a Expression,
    pub second: &'a Expression,
    pub next: &'a StatementList,
}

/// The call of a block that a list begins with.
pub(crate) fn call_of(list: &StatementList) -> Option<Call<'_>>
    ensures { IfSome result (λ x. IsCalled x.instance x.first.now x.second.now x.next.now list.now) }
{
    match list {
        StatementList::Call {
            instance,
            first,
            second,
            next,
        } => Some(Call {
            instance: *instance,
            first,
            second,
            next,
        }),
        _ => None,
    }
}

/// Whether no statement is left.
pub(crate) fn is_end(list: &StatementList) -> bool
    ensures { IsTrue result → list.now ≡ End }
{
    matches!(list, StatementList::End)
}

/// The IF without ELSE that a list begins with: its condition, its statements and those behind it.
pub(crate) fn selection_of(
    list: &StatementList,
) -> Option<(&Expression, &StatementList, &StatementList)>
    ensures { IfSome result (λ x. IsSelection x.0.now x.1.now x.2.now list.now) }
{
    match list {
        StatementList::Select {
            condition,
            accepted,
            otherwise,
            next,
        } if is_end(otherwise) => Some((condition, accepted, next)),
        _ => None,
    }
}

/// Whether a list begins with a RETURN.
pub(crate) fn is_return(list: &StatementList) -> bool
    ensures { IsTrue result → IsReturn list.now }
{
    matches!(list, StatementList::Return { .. })
}

/// What an expression is the inverse of.
pub(crate) fn inverse_of(expression: &Expression) -> Option<&Expression>
    ensures { IfSome result (λ a. IsInverse a.now expression.now) }
{
    match expression {
        Expression::Not(a) => Some(a),
        _ => None,
    }
}

/// Both parts of an AND.
pub(crate) fn both_of(expression: &Expression) -> Option<(&Expression, &Expression)>
    ensures { IfSome result (λ x. IsBoth x.0.now x.1.now expression.now) }
{
    match expression {
        Expression::And(a, b) => Some((a, b)),
        _ => None,
    }
}

/// Whether an expression is a variable alone.
pub(crate) fn is_variable(expression: &Expression, variable: usize) -> bool
    ensures { IsTrue result → IsVariable variable expression.now }
{
    match expression {
        Expression::Operand(Operand::Variable(number)) => *number == variable,
        _ => false,
    }
}
