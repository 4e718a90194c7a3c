//! Expressions as contacts: AND in series, OR in parallel.

use crate::diagram::{Diagram, Spot};
use io_table::{NOTHING, Part};
use st_expression::Expression;

/// What has the power of an expression, and how many columns and rows it takes up to there.
#[derive(Clone, Copy)]
pub(crate) struct Power {
    pub ends: Part,
    pub columns: usize,
    pub rows: usize,
}

impl Power {
    /// What it takes together with another one below it; the ends are its own.
    pub(crate) fn beside(self, lower: Option<Power>) -> Power {
        match lower {
            Some(power) => Power {
                ends: self.ends,
                columns: self.columns.max(power.columns),
                rows: self.rows.saturating_add(power.rows),
            },
            None => self,
        }
    }
}

/// Whether an expression is an operand.
fn is_operand(expression: &Expression) -> bool {
    matches!(expression, Expression::Operand(_))
}

/// What an expression is the inverse of, where that is no operand.
pub(crate) fn inverse_of(expression: &Expression) -> Option<&Expression> {
    match expression {
        Expression::Not(a) if !is_operand(a) => Some(a),
        _ => None,
    }
}

/// How many rows an expression takes.
pub(crate) fn rows_of(expression: &Expression) -> usize {
    match expression {
        Expression::And(a, b) => rows_of(a).max(rows_of(b)),
        Expression::Or(a, b) => rows_of(a).saturating_add(rows_of(b)),
        _ => 1,
    }
}

impl Diagram<'_> {
    /// Writes the contact that an expression is the inverse of, if it is an operand.
    fn write_negated(&mut self, expression: &Expression, left: Part, spot: Spot) -> Part {
        match expression {
            Expression::Operand(operand) => self.write_contact(true, *operand, left, spot),
            _ => NOTHING,
        }
    }

    /// Writes an expression from a place on, where it is fed from the left. Nothing has its power if it isn't made of contacts.
    pub(crate) fn write_power(&mut self, expression: &Expression, left: Part, spot: Spot) -> Power {
        match expression {
            Expression::Operand(operand) => Power {
                ends: self.write_contact(false, *operand, left, spot),
                columns: 1,
                rows: 1,
            },
            Expression::Not(a) => Power {
                ends: self.write_negated(a, left, spot),
                columns: 1,
                rows: 1,
            },
            Expression::And(a, b) => {
                let first = self.write_power(a, left, spot);
                let second = self.write_power(b, first.ends, spot.right(first.columns));
                Power {
                    ends: second.ends,
                    columns: first.columns.saturating_add(second.columns),
                    rows: first.rows.max(second.rows),
                }
            }
            Expression::Or(a, b) => {
                let first = self.write_power(a, left, spot);
                let second = self.write_power(b, left, spot.below(first.rows));
                Power {
                    ends: self.links.joined(first.ends, second.ends),
                    columns: first.columns.max(second.columns),
                    rows: first.rows.saturating_add(second.rows),
                }
            }
            Expression::Constant(on) => Power {
                ends: if *on { left } else { NOTHING },
                columns: 0,
                rows: 1,
            },
            Expression::Equal(_, _) | Expression::Exclusive(_, _) => Power {
                ends: NOTHING,
                columns: 0,
                rows: 1,
            },
        }
    }
}
