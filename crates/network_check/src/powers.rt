//! Expressions that have the power on the left of something.

ghost use Rattle.std.specs.Prelude.{IsTrue, true};
ghost use Rattle.network_check.specs.Doing.{Shows};

use network_power::{Links, Network, is_fed};
use st_expression::Expression;

/// Whether an expression is NOT of one that has the power.

fn is_inverse(net: Network<'_>, left: Links, expression: &Expression) -> bool
    ensures { IsTrue result → Shows net.entry left true expression.now }
{
    match expression {
        Expression::Not(a) => is_fed(net, left, a),
        Expression::Constant(on) => is_fed(net, left, &Expression::Constant(!*on)),
        _ => false,
    }
}

/// Whether an expression has the power on the left of something, or is NOT of one that has.
pub(crate) fn shows(net: Network<'_>, left: Links, inverse: bool, expression: &Expression) -> bool
    ensures { IsTrue result → Shows net.entry left inverse expression.now }
{
    if inverse {
        is_inverse(net, left, expression)
    } else {
        is_fed(net, left, expression)
    }
}
