//! The inputs that an expression names.

ghost use Rattle.std.specs.Prelude.{◌≡◌, option_map};
ghost use Rattle.assume_truth.specs.Operands.{is_named, is_operand};

use st_expression::{Expression, Operand};

/// Whether the input at a place is an operand of an expression.
#[tactic(auto, unfolding(crate::specs::Operands::is_operand))]
fn is_operand(expression: &Expression, place: usize) -> bool
    ensures { result ≡ is_operand place expression.now }
{
    match expression {
        Expression::Constant(_) | Expression::Operand(Operand::Output(_)) => false,
        Expression::Operand(Operand::Variable(number)) => *number == place,
        Expression::Not(negated) => is_operand(negated, place),
        Expression::Equal(first, second)
        | Expression::And(first, second)
        | Expression::Exclusive(first, second)
        | Expression::Or(first, second) => is_operand(first, place) || is_operand(second, place),
    }
}

/// Whether what is assumed names the input at a place.
pub fn is_named(assumed: Option<&Expression>, place: usize) -> bool
    ensures { result ≡ is_named (option_map (λ e. e.now) assumed.entry) place }
{
    match assumed {
        Some(expression) => is_operand(expression, place),
        None => false,
    }
}
