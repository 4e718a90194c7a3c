//! Variables that stand for parts of expressions.

ghost use Rattle.std.specs.Prelude.{◌≡◌, Bool, false, IfSome, IsTrue, slice_index_or};
ghost use Rattle.scan_cycle.specs.Cells.{Frame};
ghost use Rattle.st_expression.specs.declared.expression.Operand.{Operand};
ghost use Rattle.st_expression.specs.Value.{value};
ghost use Rattle.st_statements.specs.Run.{seen};
ghost use Rattle.draw_power.specs.Helpers.{AreHelpers};

use st_expression::{Expression, Operand};

/// A variable that stands for a part of an expression: a rung above writes it.
#[derive(Clone, Copy)]
pub struct Helper<'a> {
    pub variable: usize,
    pub part: &'a Expression,
}

/// Whether two operands are one.
fn is_same_operand(first: Operand, second: Operand) -> bool
    ensures { IsTrue result → first ≡ second }
{
    match (first, second) {
        (Operand::Variable(number), Operand::Variable(other)) => number == other,
        (Operand::Output(number), Operand::Output(other)) => number == other,
        _ => false,
    }
}

/// Whether two expressions have one tree.
#[tactic(auto, unfolding(st_expression::specs::Value::value))]
fn is_same_tree(first: &Expression, second: &Expression) -> bool
    ensures { IsTrue result → (env : Operand → Bool) → value env first.now ≡ value env second.now }
{
    match (first, second) {
        (Expression::Constant(on), Expression::Constant(other)) => *on == *other,
        (Expression::Operand(operand), Expression::Operand(other)) => {
            is_same_operand(*operand, *other)
        }
        (Expression::Not(a), Expression::Not(c)) => is_same_tree(a, c),
        (Expression::Equal(a, b), Expression::Equal(c, d)) => {
            is_same_tree(a, c) && is_same_tree(b, d)
        }
        (Expression::And(a, b), Expression::And(c, d)) => is_same_tree(a, c) && is_same_tree(b, d),
        (Expression::Exclusive(a, b), Expression::Exclusive(c, d)) => {
            is_same_tree(a, c) && is_same_tree(b, d)
        }
        (Expression::Or(a, b), Expression::Or(c, d)) => is_same_tree(a, c) && is_same_tree(b, d),
        _ => false,
    }
}

/// The operand that has the value of an expression: its own, where it is a single one, or else the variable of a helper that
/// stands for it.
#[tactic(auto, unfolding(st_expression::specs::Value::value))]
pub(crate) fn operand_of(helpers: &[Helper<'_>], expression: &Expression) -> Option<Operand>
    ensures { IfSome result (λ operand. (f : Frame Bool) → AreHelpers helpers.now f → seen f operand ≡ value (seen f) expression.now) }
{
    if let Expression::Operand(operand) = expression {
        return Some(*operand);
    }
    for helper in helpers {
        if is_same_tree(helper.part, expression) {
            return Some(Operand::Variable(helper.variable));
        }
    }
    None
}
