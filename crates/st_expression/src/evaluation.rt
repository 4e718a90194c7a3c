//! The value of an expression.

ghost use Rattle.std.specs.Prelude.{◌≡◌};
ghost use Rattle.st_expression.specs.Value.{held, held_by, value};

use crate::expression::{Expression, Operand};

/// The value at a number. Past the end it is OFF.
fn value_at(values: &[bool], number: usize) -> bool
    ensures { result ≡ held values.now number }
{
    match values.get(number) {
        Some(value) => *value,
        None => false,
    }
}

/// The value of an expression, where each variable and each output of a block has the value at its number. Past the end it is OFF.
#[tactic(auto, unfolding(crate::specs::Value::value))]
pub fn evaluate(expression: &Expression, values: &[bool], outputs: &[bool]) -> bool
    ensures { result ≡ value (held_by values.now outputs.now) expression.now }
{
    match expression {
        Expression::Constant(value) => *value,
        Expression::Operand(Operand::Variable(number)) => value_at(values, *number),
        Expression::Operand(Operand::Output(number)) => value_at(outputs, *number),
        Expression::Not(negated) => !evaluate(negated, values, outputs),
        Expression::Equal(first, second) => {
            evaluate(first, values, outputs) == evaluate(second, values, outputs)
        }
        Expression::And(first, second) => evaluate(first, values, outputs)
            && evaluate(second, values, outputs),
        Expression::Exclusive(first, second) => {
            evaluate(first, values, outputs) != evaluate(second, values, outputs)
        }
        Expression::Or(first, second) => evaluate(first, values, outputs)
            || evaluate(second, values, outputs),
    }
}
