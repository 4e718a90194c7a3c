//! Parts of an expression become helpers, until the rest fits.

use crate::size::{CONTACT, CROSSED, LARGEST, NOTHING, Size, joined, size_of, small_size};
use crate::tree::{contact_of, part_of};
use diagram_program::geometry::RUNGS;
use st_expression::Expression;
use st_statements::constant_of;
use std::alloc::AllocError;

/// Which of two networks become helpers, and the size of both together then.
#[derive(Clone, Copy)]
struct Split {
    first: bool,
    second: bool,
    size: Size,
}

/// Whether a size is more than there is room for.
fn is_over(size: Size, limit: Size) -> bool {
    size.width > limit.width || size.height > limit.height
}

/// Whether the first of two networks takes no less than the second in the direction in which they add up.
fn is_first_greater(is_series: bool, first: Size, second: Size) -> bool {
    if is_series {
        first.width >= second.width
    } else {
        first.height >= second.height
    }
}

/// Which of two networks become helpers, so that both together fit: none, the greater one, or both.
fn split_of(is_series: bool, first: Size, second: Size, limit: Size) -> Split {
    let whole = joined(is_series, first, second);
    if !is_over(whole, limit) {
        return Split {
            first: false,
            second: false,
            size: whole,
        };
    }
    let is_first = is_first_greater(is_series, first, second);
    let less = if is_first {
        joined(is_series, CONTACT, second)
    } else {
        joined(is_series, first, CONTACT)
    };
    let are_both = is_over(less, limit);
    Split {
        first: is_first || are_both,
        second: !is_first || are_both,
        size: if are_both {
            joined(is_series, CONTACT, CONTACT)
        } else {
            less
        },
    }
}

/// Which operands of `XOR` or `=` become helpers: those that are no contacts.
fn crossed_split_of(first: &Expression, second: &Expression) -> Split {
    Split {
        first: contact_of(first).is_none(),
        second: contact_of(second).is_none(),
        size: CROSSED,
    }
}

/// Adds a part, unless there is a helper for the same tree.
pub(crate) fn add_part<'a>(
    parts: &mut Vec<&'a Expression>,
    part: &'a Expression,
) -> Result<(), AllocError> {
    if part_of(parts, part).is_none() {
        parts.push(part)?;
    }
    Ok(())
}

/// Makes helpers of the parts of an expression, or its inverse where it isn't `on`, until its network is at most so large, and gives its
/// size then. A helper's own network is never too large, and has only helpers from before it. Past as many as a program can have rungs
/// nothing more is looked at: then there are too many rungs whatever follows.
pub(crate) fn fit<'a>(
    expression: &'a Expression,
    on: bool,
    limit: Size,
    parts: &mut Vec<&'a Expression>,
) -> Result<Size, AllocError> {
    if parts.len() >= RUNGS {
        return Ok(NOTHING);
    }
    if let Some(size) = small_size(expression, parts) {
        return Ok(size);
    }
    let (a, b, split) = match expression {
        Expression::Constant(_) => return Ok(NOTHING),
        Expression::Operand(_) => return Ok(CONTACT),
        Expression::Not(a) => return fit(a, !on, limit, parts),
        Expression::And(a, b) | Expression::Or(a, b) => {
            let is_series = matches!(expression, Expression::And(_, _)) == on;
            let first = fit(a, on, limit, parts)?;
            let second = fit(b, on, limit, parts)?;
            (a, b, split_of(is_series, first, second, limit))
        }
        Expression::Equal(a, b) | Expression::Exclusive(a, b) => {
            let is_exclusive = matches!(expression, Expression::Exclusive(_, _)) == on;
            match (constant_of(a), constant_of(b)) {
                (Some(value), _) => return fit(b, is_exclusive != value, limit, parts),
                (_, Some(value)) => return fit(a, is_exclusive != value, limit, parts),
                _ => (a, b, crossed_split_of(a, b)),
            }
        }
    };
    if split.first {
        fit(a, true, LARGEST, parts)?;
        add_part(parts, a)?;
    }
    if split.second {
        fit(b, true, LARGEST, parts)?;
        add_part(parts, b)?;
    }
    Ok(split.size)
}

/// What leads to a coil, a block or a jump.
#[derive(Clone, Copy)]
pub(crate) enum Feed<'a> {
    /// The left rail.
    Rail,
    /// The network of an expression, or of its inverse where it isn't `on`.
    Network {
        expression: &'a Expression,
        on: bool,
    },
}

/// What leads an expression, or its inverse where it isn't `on`, to a cell; the parts get what needs a helper for it. What is never on is a
/// helper itself.
pub(crate) fn feed_of<'a>(
    expression: &'a Expression,
    on: bool,
    limit: Size,
    parts: &mut Vec<&'a Expression>,
) -> Result<Feed<'a>, AllocError> {
    match constant_of(expression) {
        Some(value) if value == on => return Ok(Feed::Rail),
        Some(_) => add_part(parts, expression)?,
        None => {
            fit(expression, on, limit, parts)?;
        }
    }
    Ok(Feed::Network { expression, on })
}

/// What leads an expression to a cell in a single row. What is higher is a helper as a whole.
pub(crate) fn row_feed_of<'a>(
    expression: &'a Expression,
    parts: &mut Vec<&'a Expression>,
) -> Result<Feed<'a>, AllocError> {
    let feed = feed_of(expression, true, LARGEST, parts)?;
    if size_of(expression, true, parts).height > 1 {
        add_part(parts, expression)?;
    }
    Ok(feed)
}
