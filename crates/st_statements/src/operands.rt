//! What expressions and statements look at.

ghost use Rattle.std.specs.Prelude.{◌≡◌, Bool, IfSome};
ghost use Rattle.st_expression.specs.declared.expression.Operand.{Operand};
ghost use Rattle.st_expression.specs.Value.{value};
ghost use Rattle.st_statements.specs.Operands.{are_within, is_within, reads};

use crate::statement::StatementList;
use st_expression::{Expression, Operand};

/// Whether an expression looks at a variable.
#[tactic(auto, unfolding(crate::specs::Operands::reads))]
pub fn reads(expression: &Expression, variable: usize) -> bool
    ensures { result ≡ reads variable expression.now }
{
    match expression {
        Expression::Constant(_) => false,
        Expression::Operand(Operand::Variable(number)) => *number == variable,
        Expression::Operand(Operand::Output(_)) => false,
        Expression::Not(a) => reads(a, variable),
        Expression::Equal(a, b) => reads(a, variable) || reads(b, variable),
        Expression::And(a, b) => reads(a, variable) || reads(b, variable),
        Expression::Exclusive(a, b) => reads(a, variable) || reads(b, variable),
        Expression::Or(a, b) => reads(a, variable) || reads(b, variable),
    }
}

/// Whether an expression looks at the first so many variables alone.
#[tactic(auto, unfolding(crate::specs::Operands::is_within))]
pub fn is_within(expression: &Expression, variables: usize) -> bool
    ensures { result ≡ is_within variables expression.now }
{
    match expression {
        Expression::Constant(_) => true,
        Expression::Operand(Operand::Variable(number)) => *number < variables,
        Expression::Operand(Operand::Output(_)) => true,
        Expression::Not(a) => is_within(a, variables),
        Expression::Equal(a, b) => is_within(a, variables) && is_within(b, variables),
        Expression::And(a, b) => is_within(a, variables) && is_within(b, variables),
        Expression::Exclusive(a, b) => is_within(a, variables) && is_within(b, variables),
        Expression::Or(a, b) => is_within(a, variables) && is_within(b, variables),
    }
}

/// Whether statements look at the first so many variables alone, and write no others.
#[tactic(auto, unfolding(crate::specs::Operands::are_within))]
pub fn are_within(list: &StatementList, variables: usize) -> bool
    ensures { result ≡ are_within variables list.now }
{
    match list {
        StatementList::End => true,
        StatementList::Assign {
            variable,
            value,
            next,
        } => *variable < variables && is_within(value, variables) && are_within(next, variables),
        StatementList::Trigger {
            output,
            clock,
            next,
            ..
        } => *output < variables && is_within(clock, variables) && are_within(next, variables),
        StatementList::Call {
            first,
            second,
            next,
            ..
        } => {
            is_within(first, variables)
                && is_within(second, variables)
                && are_within(next, variables)
        }
        StatementList::Select {
            condition,
            accepted,
            otherwise,
            next,
        } => {
            is_within(condition, variables)
                && are_within(accepted, variables)
                && are_within(otherwise, variables)
                && are_within(next, variables)
        }
        StatementList::Return { next } => are_within(next, variables),
    }
}

/// The value that an expression has whatever its operands have, where its constants decide it.
#[tactic(auto, unfolding(st_expression::specs::Value::value))]
pub fn constant_of(expression: &Expression) -> Option<bool>
    ensures { IfSome result (λ on. (env : Operand → Bool) → value env expression.now ≡ on) }
{
    match expression {
        Expression::Constant(on) => Some(*on),
        Expression::Operand(_) => None,
        Expression::Not(a) => Some(!constant_of(a)?),
        Expression::Equal(a, b) => Some(constant_of(a)? == constant_of(b)?),
        Expression::Exclusive(a, b) => Some(constant_of(a)? != constant_of(b)?),
        Expression::And(a, b) => match (constant_of(a), constant_of(b)) {
            (Some(false), _) | (_, Some(false)) => Some(false),
            (Some(true), Some(true)) => Some(true),
            _ => None,
        },
        Expression::Or(a, b) => match (constant_of(a), constant_of(b)) {
            (Some(true), _) | (_, Some(true)) => Some(true),
            (Some(false), Some(false)) => Some(false),
            _ => None,
        },
    }
}
