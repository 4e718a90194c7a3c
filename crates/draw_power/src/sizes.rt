//! How much room an expression takes. It tells where to look for a part; nothing rests on it.

use crate::helpers::{Helper, operand_of};
use crate::part::{Pair, Part};
use st_expression::Expression;
use st_statements::constant_of;

/// How many rows and columns are taken.
#[derive(Clone, Copy)]
pub(crate) struct Size {
    pub rows: usize,
    pub columns: usize,
}

/// The sizes of an expression and of its inverse.
#[derive(Clone, Copy)]
struct Sizes {
    on: Size,
    off: Size,
}

/// A part after the other.
fn in_series(first: Size, second: Size) -> Size {
    Size {
        rows: first.rows.max(second.rows),
        columns: first.columns.saturating_add(second.columns),
    }
}

/// A part below the other.
fn in_parallel(first: Size, second: Size) -> Size {
    Size {
        rows: first.rows.saturating_add(second.rows),
        columns: first.columns.max(second.columns),
    }
}

/// The same of the inverse.
fn turned(sizes: Sizes) -> Sizes {
    Sizes {
        on: sizes.off,
        off: sizes.on,
    }
}

/// Both have the same size, of so many rows and columns.
fn square(length: usize) -> Sizes {
    let size = Size {
        rows: length,
        columns: length,
    };
    Sizes {
        on: size,
        off: size,
    }
}

/// The sizes of `a = b`, by those of both and what constants decide them to be.
fn of_equal(a: Sizes, a_is: Option<bool>, b: Sizes, b_is: Option<bool>) -> Sizes {
    match (a_is, b_is) {
        (Some(true), _) => b,
        (Some(false), _) => turned(b),
        (None, Some(true)) => a,
        (None, Some(false)) => turned(a),
        (None, None) => Sizes {
            on: in_parallel(in_series(a.on, b.on), in_series(a.off, b.off)),
            off: in_parallel(in_series(a.on, b.off), in_series(a.off, b.on)),
        },
    }
}

/// The sizes of an expression. A single operand or what a helper stands for takes one cell, and what constants decide takes none.
fn measured(helpers: &[Helper<'_>], expression: &Expression) -> Sizes {
    if operand_of(helpers, expression).is_some() {
        return square(1);
    }
    if constant_of(expression).is_some() {
        return square(0);
    }
    match expression {
        Expression::Constant(_) | Expression::Operand(_) => square(1),
        Expression::Not(a) => turned(measured(helpers, a)),
        Expression::Equal(a, b) => {
            let (first, second) = (measured(helpers, a), measured(helpers, b));
            of_equal(first, constant_of(a), second, constant_of(b))
        }
        Expression::Exclusive(a, b) => {
            let (first, second) = (measured(helpers, a), measured(helpers, b));
            turned(of_equal(first, constant_of(a), second, constant_of(b)))
        }
        Expression::And(a, b) => {
            let (first, second) = (measured(helpers, a), measured(helpers, b));
            Sizes {
                on: in_series(first.on, second.on),
                off: in_parallel(first.off, second.off),
            }
        }
        Expression::Or(a, b) => {
            let (first, second) = (measured(helpers, a), measured(helpers, b));
            Sizes {
                on: in_parallel(first.on, second.on),
                off: in_series(first.off, second.off),
            }
        }
    }
}

/// How much room a part takes.
pub(crate) fn size_of(helpers: &[Helper<'_>], part: Part<'_>) -> Size {
    let sizes = measured(helpers, part.expression);
    if part.on { sizes.on } else { sizes.off }
}

/// How much room two parts take in series.
pub(crate) fn size_of_series(helpers: &[Helper<'_>], pair: Pair<'_>) -> Size {
    in_series(size_of(helpers, pair.first), size_of(helpers, pair.second))
}
