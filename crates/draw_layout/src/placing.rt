//! Networks in the cells of a rung.

use crate::fitting::Feed;
use crate::grid::{Cell, Grid};
use crate::size::{Size, size_of};
use crate::tree::{Contact, contact_of, part_of};
use st_expression::{Expression, Operand};
use st_statements::constant_of;

/// The parts of expressions that helpers stand for, which have the numbers of variables from the first one on.
#[derive(Clone, Copy)]
pub(crate) struct Helpers<'h, 'a> {
    pub(crate) parts: &'h [&'a Expression],
    pub(crate) first: usize,
}

impl Helpers<'_, '_> {
    /// The contact that a helper or a single operand is, closed where that is `on`.
    fn contact(&self, expression: &Expression, on: bool) -> Option<Contact> {
        match (part_of(self.parts, expression), expression) {
            (Some(number), _) => Some(Contact {
                operand: Operand::Variable(self.first.saturating_add(number)),
                on,
            }),
            (None, Expression::Operand(operand)) => Some(Contact {
                operand: *operand,
                on,
            }),
            _ => None,
        }
    }

    /// The contact that an operand of `XOR` or `=` is: as above, or NOT of a single operand.
    fn crossed_contact(&self, expression: &Expression) -> Option<Contact> {
        match self.contact(expression, true) {
            Some(contact) => Some(contact),
            None => contact_of(expression),
        }
    }
}

/// Where a network is drawn: its upper left cell, and the column up to which its parts are led on.
#[derive(Clone, Copy)]
struct Corner {
    row: usize,
    column: usize,
    to: usize,
}

impl Corner {
    /// The rows of a network that takes no cell.
    fn rows(self) -> Rows {
        Rows {
            left: self.row,
            right: self.row,
        }
    }
}

/// The lowest rows of a network: of those that begin at its left end, and of those that end at its right end.
#[derive(Clone, Copy)]
struct Rows {
    left: usize,
    right: usize,
}

/// Leads rows that end on the left of a column on to another one, by wires in the highest. The lowest row that ends there.
fn lead_on(grid: &mut Grid, row: usize, lowest: usize, column: usize, to: usize) -> usize {
    if column < to {
        grid.join(column, row, lowest);
        grid.wires(row, column, to);
        row
    } else {
        lowest
    }
}

/// Draws a contact.
fn lay_contact(grid: &mut Grid, at: Corner, contact: Contact) -> Rows {
    grid.put(at.row, at.column, Cell::Contact(contact));
    lead_on(grid, at.row, at.row, at.column.saturating_add(1), at.to);
    at.rows()
}

/// The contact with a NOT before its operand, if it isn't to be `on`.
fn turned(contact: Contact, on: bool) -> Contact {
    Contact {
        operand: contact.operand,
        on: contact.on == on,
    }
}

/// Draws two contacts in series.
fn lay_series(grid: &mut Grid, at: Corner, first: Contact, second: Contact) {
    let behind = at.column.saturating_add(1);
    grid.put(at.row, at.column, Cell::Contact(first));
    lay_contact(
        grid,
        Corner {
            row: at.row,
            column: behind,
            to: at.to,
        },
        second,
    );
}

/// Draws two contacts of which just one is closed, or both or none where that isn't `on`.
fn lay_crossed(grid: &mut Grid, at: Corner, first: Contact, second: Contact, on: bool) -> Rows {
    let below = at.row.saturating_add(1);
    lay_series(grid, at, first, turned(second, !on));
    lay_series(
        grid,
        Corner { row: below, ..at },
        turned(first, false),
        turned(second, on),
    );
    Rows {
        left: below,
        right: below,
    }
}

/// Draws `XOR` of two operands, or `=` where it isn't `on`, if they are contacts.
fn lay_operands(
    grid: &mut Grid,
    at: Corner,
    helpers: Helpers<'_, '_>,
    operands: (&Expression, &Expression),
    on: bool,
) -> Rows {
    match (
        helpers.crossed_contact(operands.0),
        helpers.crossed_contact(operands.1),
    ) {
        (Some(first), Some(second)) => lay_crossed(grid, at, first, second, on),
        _ => at.rows(),
    }
}

/// Where two networks are drawn that are in series, or one below the other.
#[derive(Clone, Copy)]
struct Pair {
    first: Corner,
    second: Corner,
    /// Whether there is something of the first one, and of the second one.
    has_first: bool,
    has_second: bool,
}

/// Where two networks of these sizes are drawn: beside each other in one upper row, or one below the other, both led on to one column.
fn pair_of(is_series: bool, at: Corner, first: Size, second: Size) -> Pair {
    let middle = at.column.saturating_add(first.width);
    let below = at.row.saturating_add(first.height);
    Pair {
        first: Corner {
            row: at.row,
            column: at.column,
            to: if is_series { middle } else { at.to },
        },
        second: Corner {
            row: if is_series { at.row } else { below },
            column: if is_series { middle } else { at.column },
            to: if is_series {
                middle.saturating_add(second.width)
            } else {
                at.to
            },
        },
        has_first: first.width > 0,
        has_second: second.width > 0,
    }
}

/// Joins two networks that are drawn, and gives the lowest rows of both together.
fn end_pair(
    grid: &mut Grid,
    is_series: bool,
    at: Corner,
    pair: Pair,
    first: Rows,
    second: Rows,
) -> Rows {
    let left = if pair.has_first && (is_series || !pair.has_second) {
        first.left
    } else {
        second.left
    };
    let right = if pair.has_second {
        second.right
    } else {
        first.right
    };
    if !is_series {
        return Rows { left, right };
    }
    if pair.has_first && pair.has_second {
        grid.join(pair.second.column, at.row, first.right.max(second.left));
    }
    Rows {
        left,
        right: lead_on(grid, at.row, right, pair.second.to, at.to),
    }
}

/// Draws the network that is an expression, or its inverse where it isn't `on`, and gives its lowest rows.
fn lay(
    expression: &Expression,
    on: bool,
    at: Corner,
    helpers: Helpers<'_, '_>,
    grid: &mut Grid,
) -> Rows {
    if let Some(contact) = helpers.contact(expression, on) {
        return lay_contact(grid, at, contact);
    }
    if constant_of(expression).is_some() {
        return at.rows();
    }
    match expression {
        Expression::Constant(_) | Expression::Operand(_) => at.rows(),
        Expression::Not(a) => lay(a, !on, at, helpers, grid),
        Expression::And(a, b) | Expression::Or(a, b) => {
            let is_series = matches!(expression, Expression::And(_, _)) == on;
            let sizes = (size_of(a, on, helpers.parts), size_of(b, on, helpers.parts));
            let pair = pair_of(is_series, at, sizes.0, sizes.1);
            let first = lay(a, on, pair.first, helpers, grid);
            let second = lay(b, on, pair.second, helpers, grid);
            end_pair(grid, is_series, at, pair, first, second)
        }
        Expression::Equal(a, b) | Expression::Exclusive(a, b) => {
            let is_exclusive = matches!(expression, Expression::Exclusive(_, _)) == on;
            match (constant_of(a), constant_of(b)) {
                (Some(value), _) => lay(b, is_exclusive != value, at, helpers, grid),
                (_, Some(value)) => lay(a, is_exclusive != value, at, helpers, grid),
                _ => lay_operands(grid, at, helpers, (a, b), is_exclusive),
            }
        }
    }
}

/// Draws what leads to a cell in a row from the rail on, up to the column of that cell. The lowest row that ends there.
pub(crate) fn lay_feed(
    grid: &mut Grid,
    feed: Feed<'_>,
    helpers: Helpers<'_, '_>,
    row: usize,
    to: usize,
) -> usize {
    match feed {
        Feed::Rail => {
            grid.wires(row, 0, to);
            row
        }
        Feed::Network { expression, on } => {
            let width = size_of(expression, on, helpers.parts).width;
            let at = Corner {
                row,
                column: 0,
                to: width,
            };
            let rows = lay(expression, on, at, helpers, grid);
            lead_on(grid, row, rows.right, width, to)
        }
    }
}

/// The columns that what leads to a cell takes.
pub(crate) fn width_of(feed: Feed<'_>, helpers: Helpers<'_, '_>) -> usize {
    match feed {
        Feed::Rail => 0,
        Feed::Network { expression, on } => size_of(expression, on, helpers.parts).width,
    }
}
