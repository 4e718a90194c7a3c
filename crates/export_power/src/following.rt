//! An expression, followed from its right end to its left one.

ghost use Rattle.std.specs.Prelude.{◌≡◌, ◌<◌, ◌||◌, ℕ, Bool, IfSome, IsTrue, not};
ghost use Rattle.scan_signals.specs.Truth.{plain};
ghost use Rattle.scan_cycle.specs.Cells.{Frame, Kept};
ghost use Rattle.scan_cycle.specs.Programs.{diagram_of};
ghost use Rattle.scan_cycle.specs.Rung.{link};
ghost use Rattle.st_expression.specs.Value.{value};
ghost use Rattle.st_statements.specs.Run.{seen};
ghost use Rattle.draw_power.specs.Power.{power};
ghost use Rattle.export_power.specs.Carried.{Carries};
ghost use Rattle.export_power.specs.Sight.{Sees};

use crate::cells::{ends_before, unwired};
use crate::ends::{Ends, Parts, is_same, split};
use crate::literals::{before_contact, before_operand};
use crate::network::Network;
use diagram_program::geometry::{PLACES, ROWS};
use st_expression::Expression;

/// What feeds the network of which these are the right end, if it has the power of an expression.
#[cycle(following)]
fn before(net: Network<'_>, expression: &Expression, to: Ends) -> Option<Ends>
    requires { net.rung < net.program.now.rungs }
    ensures { IfSome result (λ from. Carries net.entry from to (λ s. value (seen s) expression.now)) }
{
    let near = unwired(net, to);
    match expression {
        Expression::Constant(on) => on.then_some(near),
        Expression::Operand(operand) => before_operand(net, *operand, near),
        Expression::Not(a) => before_inverse(net, a, near),
        Expression::And(a, b) => before(net, a, before(net, b, near)?),
        Expression::Or(a, b) => before_either(net, a, b, near),
        Expression::Equal(_, _) | Expression::Exclusive(_, _) => None,
    }
}

/// What feeds the contact of which these are the right end, if it is closed where an operand is off.
fn before_inverse(net: Network<'_>, expression: &Expression, to: Ends) -> Option<Ends>
    requires { net.rung < net.program.now.rungs }
    ensures { IfSome result (λ from. Carries net.entry from to (λ s. not (value (seen s) expression.now))) }
{
    match expression {
        Expression::Operand(operand) => before_contact(net, *operand, false, to),
        _ => None,
    }
}

/// What feeds two networks of which these are the right ends, the upper ones of the first and the lower ones of the second.
#[cycle(following)]
fn before_either(net: Network<'_>, a: &Expression, b: &Expression, to: Ends) -> Option<Ends>
    requires { net.rung < net.program.now.rungs }
    ensures { IfSome result (λ from. Carries net.entry from to (λ s. value (seen s) a.now || value (seen s) b.now)) }
{
    for row in 1..ROWS {
        if to.rows[row] {
            let parts = split(to, row);
            if let Some(from) = before_both(net, a, b, parts) {
                return Some(from);
            }
        }
    }
    None
}

/// What feeds both of two networks, of which these are the right ends.
#[cycle(following)]
fn before_both(net: Network<'_>, a: &Expression, b: &Expression, to: Parts) -> Option<Ends>
    requires { net.rung < net.program.now.rungs }
    ensures upper { IfSome result (λ from. Carries net.entry from to.upper (λ s. value (seen s) a.now)) }
    ensures lower { IfSome result (λ from. Carries net.entry from to.lower (λ s. value (seen s) b.now)) }
{
    let first = before(net, a, to.upper)?;
    let second = before(net, b, to.lower)?;
    if is_same(first, second) {
        Some(first)
    } else {
        None
    }
}

/// Whether an expression has the value of the power at these ends, whatever the state and the moment.
///
/// It is followed from there to the left rail:
///
/// - Wires and coils are left out, since they pass power on, and `TRUE` is no more than a wire.
/// - An operand is a contact, plain, and negated under NOT; it has to have the value that the contact's operand had at the start of the
///   rung, or be known to be on where the contact is closed. Or it is the output of a block that was called, or is known to have the
///   value of the power there; then the left rail is reached.
/// - AND is in series: what feeds the second part is where the first one ends.
/// - OR is one part below the other: the upper rows are those of the first part, the lower ones those of the second, and the same rows
///   feed both.
/// - Each cell is fed from all the rows at which what is before it ends.
pub fn is_power(network: Network<'_>, expression: &Expression, to: Ends) -> bool
    requires { network.rung < network.program.now.rungs }
    ensures { IsTrue result → (k : Kept) (now : ℕ) (f s : Frame Bool)
        → Sees network.entry.program.now network.entry.rung network.entry.done.now network.entry.known.now k now f s
        → power network.entry.program.now network.entry.rung k now f to.column to.rows ≡ value (seen s) expression.now }
{
    match before(network, expression, to) {
        Some(from) => from.column == 0,
        None => false,
    }
}

/// Whether an expression has the value of the left link of a place, whatever the state and the moment.
pub fn is_link(network: Network<'_>, expression: &Expression, place: usize) -> bool
    requires { network.rung < network.program.now.rungs }
    ensures { IsTrue result → (k : Kept) (now : ℕ) (f s : Frame Bool)
        → Sees network.entry.program.now network.entry.rung network.entry.done.now network.entry.known.now k now f s
        → link plain (diagram_of network.entry.program.now) k now network.entry.rung f place ≡ value (seen s) expression.now }
{
    place < PLACES
        && is_power(
            network,
            expression,
            ends_before(network.program, network.rung, place),
        )
}
