//! How large the network of an expression is.

use crate::tree::part_of;
use diagram_program::geometry::{COLUMNS, ROWS};
use st_expression::Expression;
use st_statements::constant_of;

/// The columns and the rows that a network takes.
#[derive(Clone, Copy)]
pub(crate) struct Size {
    pub(crate) width: usize,
    pub(crate) height: usize,
}

/// A wire that isn't drawn.
pub(crate) const NOTHING: Size = Size {
    width: 0,
    height: 0,
};

/// One contact.
pub(crate) const CONTACT: Size = Size {
    width: 1,
    height: 1,
};

/// Two contacts in series, and below them both inverted.
pub(crate) const CROSSED: Size = Size {
    width: 2,
    height: 2,
};

/// The largest network of a rung. The column behind it has the coil.
pub(crate) const LARGEST: Size = Size {
    width: COLUMNS - 1,
    height: ROWS,
};

/// The size of two networks in series or, where they aren't, one below the other.
pub(crate) fn joined(is_series: bool, first: Size, second: Size) -> Size {
    if is_series {
        Size {
            width: first.width.saturating_add(second.width),
            height: first.height.max(second.height),
        }
    } else {
        Size {
            width: first.width.max(second.width),
            height: first.height.saturating_add(second.height),
        }
    }
}

/// The size of an expression that needs no look at its parts: one that a helper stands for, or a constant.
pub(crate) fn small_size(expression: &Expression, parts: &[&Expression]) -> Option<Size> {
    if part_of(parts, expression).is_some() {
        return Some(CONTACT);
    }
    match constant_of(expression) {
        Some(_) => Some(NOTHING),
        None => None,
    }
}

/// The size of the network that is an expression, or its inverse where it isn't `on`, with helpers for these parts.
pub(crate) fn size_of(expression: &Expression, on: bool, parts: &[&Expression]) -> Size {
    if let Some(size) = small_size(expression, parts) {
        return size;
    }
    match expression {
        Expression::Constant(_) => NOTHING,
        Expression::Operand(_) => CONTACT,
        Expression::Not(a) => size_of(a, !on, parts),
        Expression::And(a, b) => joined(on, size_of(a, on, parts), size_of(b, on, parts)),
        Expression::Or(a, b) => joined(!on, size_of(a, on, parts), size_of(b, on, parts)),
        Expression::Equal(a, b) | Expression::Exclusive(a, b) => {
            let is_exclusive = matches!(expression, Expression::Exclusive(_, _)) == on;
            match (constant_of(a), constant_of(b)) {
                (Some(value), _) => size_of(b, is_exclusive != value, parts),
                (_, Some(value)) => size_of(a, is_exclusive != value, parts),
                _ => CROSSED,
            }
        }
    }
}
