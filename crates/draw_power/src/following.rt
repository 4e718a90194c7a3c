//! An expression, followed from its left end to its right one.

ghost use Rattle.std.specs.Prelude.{◌≡◌, Bool, IfSome, IsTrue, false};
ghost use Rattle.scan_cycle.specs.Cells.{Frame};
ghost use Rattle.draw_power.specs.Parts.{any_of, both_of, same_of, shown};
ghost use Rattle.draw_power.specs.Power.{Carries};

use crate::cells::{contact, joined};
use crate::ends::{Ends, Start};
use crate::helpers::operand_of;
use crate::network::Network;
use crate::part::{Pair, Part};
use crate::sizes::{Size, size_of, size_of_series};
use st_expression::Expression;

/// The place below, by so many rows.
fn below(at: Start, rows: usize) -> Start
    ensures { result.from ≡ at.from }
{
    Start {
        row: at.row.saturating_add(rows),
        from: at.from,
    }
}

/// The column to which the longer of two branches reaches.
fn reach(at: Start, first: Size, second: Size) -> usize {
    at.from
        .column
        .saturating_add(first.columns.max(second.columns))
}

/// The right end of a part that begins at a place, where the parts of an OR are led on to the column `to` at least. None where the
/// cells there are another network.
#[cycle(following)]
pub(crate) fn follow(net: Network<'_>, part: Part<'_>, at: Start, to: usize) -> Option<Ends>
    ensures { IfSome result (λ x. Carries net.entry at.from x (shown part.entry)) }
{
    if let Some(operand) = operand_of(net.helpers, part.expression) {
        return contact(net, operand, part.on, at);
    }
    match part.constant() {
        Some(true) => return Some(at.from),
        Some(false) => return None,
        None => {}
    }
    match part.expression {
        Expression::Constant(_) | Expression::Operand(_) => None,
        Expression::Not(a) => {
            let inverse = Part {
                expression: a,
                on: !part.on,
            };
            follow(net, inverse, at, to)
        }
        Expression::And(a, b) => {
            let pair = Pair::new(a, part.on, b, part.on);
            if part.on {
                series(net, pair, at)
            } else {
                beside(net, pair, at, to)
            }
        }
        Expression::Or(a, b) => {
            let pair = Pair::new(a, part.on, b, part.on);
            if part.on {
                beside(net, pair, at, to)
            } else {
                series(net, pair, at)
            }
        }
        Expression::Equal(a, b) => crossed(net, Pair::new(a, true, b, part.on), at, to),
        Expression::Exclusive(a, b) => crossed(net, Pair::new(a, true, b, !part.on), at, to),
    }
}

/// The same of two parts in series.
#[cycle(following)]
fn series(net: Network<'_>, pair: Pair<'_>, at: Start) -> Option<Ends>
    ensures { IfSome result (λ x. Carries net.entry at.from x (both_of pair.entry)) }
{
    let middle = follow(net, pair.first, at, 0)?;
    let next = Start {
        row: at.row,
        from: middle,
    };
    follow(net, pair.second, next, 0)
}

/// Whether a part is never on and no helper stands for it, so that it isn't drawn.
fn is_never(net: Network<'_>, part: Part<'_>) -> bool
    ensures { IsTrue result → (f : Frame Bool) → shown part.entry f ≡ false }
{
    operand_of(net.helpers, part.expression).is_none() && part.is_never()
}

/// The same of two parts one below the other. One that is never on isn't drawn.
#[cycle(following)]
fn beside(net: Network<'_>, pair: Pair<'_>, at: Start, to: usize) -> Option<Ends>
    ensures { IfSome result (λ x. Carries net.entry at.from x (any_of pair.entry)) }
{
    if is_never(net, pair.first) {
        return follow(net, pair.second, at, to);
    }
    if is_never(net, pair.second) {
        return follow(net, pair.first, at, to);
    }
    let first = size_of(net.helpers, pair.first);
    let column = reach(at, first, size_of(net.helpers, pair.second)).max(to);
    let lower = below(at, first.rows);
    let upper_end = follow(net, pair.first, at, column)?;
    let lower_end = follow(net, pair.second, lower, column)?;
    joined(
        net,
        Start {
            row: at.row,
            from: upper_end,
        },
        Start {
            row: lower.row,
            from: lower_end,
        },
        column,
    )
}

/// The same of both parts or none: both in series, and below them the inverses of both in series. Where constants decide one of
/// them, the other one is alone, or its inverse.
#[cycle(following)]
fn crossed(net: Network<'_>, pair: Pair<'_>, at: Start, to: usize) -> Option<Ends>
    ensures { IfSome result (λ x. Carries net.entry at.from x (same_of pair.entry)) }
{
    if let Some(part) = pair.alone() {
        return follow(net, part, at, to);
    }
    let inverse = pair.inverse();
    let first = size_of_series(net.helpers, pair);
    let column = reach(at, first, size_of_series(net.helpers, inverse)).max(to);
    let lower = below(at, first.rows);
    let upper_end = series(net, pair, at)?;
    let lower_end = series(net, inverse, lower)?;
    joined(
        net,
        Start {
            row: at.row,
            from: upper_end,
        },
        Start {
            row: lower.row,
            from: lower_end,
        },
        column,
    )
}
