//! An expression, followed from the right to the left.

ghost use Rattle.std.specs.Prelude.{◌≡◌, ◌↔◌, Bool, IfSome, IsTrue, false, not, true};
ghost use Rattle.st_expression.specs.declared.expression.Operand.{Operand};
ghost use Rattle.st_expression.specs.Value.{value};
ghost use Rattle.network_power.specs.Network.{IsFedBy, left_of};
ghost use Rattle.network_power.specs.Leading.{Env, Leads};

use crate::elements::{linked, unwired};
use crate::leads::{Left, Way, before_first, before_rails, is_end, is_one_left};
use crate::network::{Links, Network};
use st_expression::Expression;

/// What leads to the first of some elements, if it lets power through where an expression is false.
fn before_inverse<'a>(
    net: Network<'a>,
    expression: &Expression,
    ids: &'a [usize],
) -> Option<Way<'a>>
    ensures { IfSome result (λ way. Leads net.entry ids.now way.left way.rest.now (λ env. not (value env expression.now))) }
{
    match expression {
        Expression::Operand(operand) => before_first(net, *operand, true, ids),
        _ => None,
    }
}

/// What leads to the first ones of some elements, if it lets power through where an expression is true.
fn before<'a>(net: Network<'a>, expression: &Expression, ids: &'a [usize]) -> Option<Way<'a>>
    ensures { IfSome result (λ way. Leads net.entry ids.now way.left way.rest.now (λ env. value env expression.now)) }
{
    match expression {
        Expression::Constant(on) if *on => before_rails(net, ids),
        Expression::Operand(operand) => before_first(net, *operand, false, ids),
        Expression::Not(a) => before_inverse(net, a, ids),
        Expression::And(a, b) => {
            let second = before(net, b, ids)?;
            let Left::Elements(middle) = second.left else {
                return None;
            };
            let first = before(net, a, middle)?;
            let [] = first.rest else {
                return None;
            };
            Some(Way {
                left: first.left,
                rest: second.rest,
            })
        }
        Expression::Or(a, b) => {
            let first = before(net, a, ids)?;
            let second = before(net, b, first.rest)?;
            if !is_one_left(net, first.left, second.left) {
                return None;
            }
            Some(Way {
                left: first.left,
                rest: second.rest,
            })
        }
        _ => None,
    }
}

/// Whether power comes to some elements from the left end, just where an expression is true.
fn leads_to_all(net: Network<'_>, expression: &Expression, ids: &[usize]) -> bool
    ensures { IsTrue result → (env : Env) → (value env expression.now ≡ true) ↔ IsFedBy net.entry env ids.now }
{
    let Some(way) = before(net, expression, ids) else {
        return false;
    };
    match way.rest {
        [] => is_end(net, way.left),
        _ => false,
    }
}

/// Whether an expression is the constant FALSE.
#[tactic(auto, unfolding(st_expression::specs::Value::value))]
fn is_false(expression: &Expression) -> bool
    ensures { IsTrue result → (env : Env) → value env expression.now ≡ false }
{
    matches!(expression, Expression::Constant(false))
}

/// Whether an expression has the power of what is connected on the left of something, whatever its operands have.
///
/// It is followed from there to the left end:
///
/// - An operand is a contact, plain, and negated under NOT, or the output of a block, which is a left end.
/// - Coils are passed; one that is connected in parallel with others only if it has one connection itself.
/// - AND is in series: what is connected on the left of the second part is where the first one ends, all of it.
/// - OR is in parallel: what is connected first is that of the first part, what comes behind that of the second, and both parts begin at the
///   left end, or at the same elements.
/// - TRUE is a rail, or several that come one after the other. What is connected with a rail is the left end, whatever else it is connected
///   with.
/// - FALSE is nothing connected.
///
/// So the expression is the network without the wires, element by element in the order of its connections; what is connected with several
/// elements stands once, or once for each of them.
pub fn is_fed(network: Network<'_>, left: Links, expression: &Expression) -> bool
    ensures { IsTrue result → (env : Operand → Bool) → (value env expression.now ≡ true) ↔ IsFedBy network.entry env (left_of network.entry left) }
{
    let Some(ids) = linked(network, left) else {
        return false;
    };
    match ids {
        [] => is_false(expression),
        _ => leads_to_all(network, expression, unwired(network, ids)),
    }
}
