//! What an expression is as a tree.

use st_expression::{Expression, Operand};

/// Whether two operands are one.
fn is_same_operand(a: Operand, b: Operand) -> bool {
    match (a, b) {
        (Operand::Variable(first), Operand::Variable(second)) => first == second,
        (Operand::Output(first), Operand::Output(second)) => first == second,
        _ => false,
    }
}

/// Whether two expressions are the same tree.
pub(crate) fn same(first: &Expression, second: &Expression) -> bool {
    match (first, second) {
        (Expression::Constant(a), Expression::Constant(b)) => *a == *b,
        (Expression::Operand(a), Expression::Operand(b)) => is_same_operand(*a, *b),
        (Expression::Not(a), Expression::Not(b)) => same(a, b),
        (Expression::Equal(a, b), Expression::Equal(c, d)) => same(a, c) && same(b, d),
        (Expression::And(a, b), Expression::And(c, d)) => same(a, c) && same(b, d),
        (Expression::Exclusive(a, b), Expression::Exclusive(c, d)) => same(a, c) && same(b, d),
        (Expression::Or(a, b), Expression::Or(c, d)) => same(a, c) && same(b, d),
        _ => false,
    }
}

/// The number of the part that is the same tree as an expression.
pub(crate) fn part_of(parts: &[&Expression], expression: &Expression) -> Option<usize> {
    for (number, part) in parts.iter().enumerate() {
        if same(part, expression) {
            return Some(number);
        }
    }
    None
}

/// A contact: it is closed where its operand is `on`.
#[derive(Clone, Copy)]
pub(crate) struct Contact {
    pub(crate) operand: Operand,
    pub(crate) on: bool,
}

/// The contact that is an operand, or NOT of one.
pub(crate) fn contact_of(expression: &Expression) -> Option<Contact> {
    match expression {
        Expression::Operand(operand) => Some(Contact {
            operand: *operand,
            on: true,
        }),
        Expression::Not(negated) => match &**negated {
            Expression::Operand(operand) => Some(Contact {
                operand: *operand,
                on: false,
            }),
            _ => None,
        },
        _ => None,
    }
}
