//! The elements of a network by their numbers, and what is connected on their left.

ghost use Rattle.std.specs.Prelude.{◌≡◌, IfSome, IsTrue, slice_get};
ghost use Rattle.network_power.specs.declared.network.Element.TheVariants.{Rail};
ghost use Rattle.network_power.specs.Network.{IsAt, left_of};
ghost use Rattle.network_power.specs.Leading.{IsSame};

use crate::network::{Element, Links, Network};
use st_expression::Operand;

/// The element with a number.
pub(crate) fn element_at(net: Network<'_>, id: usize) -> Option<Element>
    ensures { result ≡ slice_get net.entry.elements.now id }
{
    net.elements.get(id).copied()
}

/// Whether an element is a left rail.
pub(crate) fn is_rail(net: Network<'_>, id: usize) -> bool
    ensures { IsTrue result → IsAt net.entry id Rail }
{
    matches!(element_at(net, id), Some(Element::Rail))
}

/// Whether both are one variable, or one output.
pub(crate) fn is_same_operand(first: Operand, second: Operand) -> bool
    ensures { IsTrue result → first ≡ second }
{
    match (first, second) {
        (Operand::Variable(number), Operand::Variable(other)) => number == other,
        (Operand::Output(number), Operand::Output(other)) => number == other,
        _ => false,
    }
}

/// What is connected on the left of something. None where the range isn't one of the list of connections.
pub(crate) fn linked(net: Network<'_>, left: Links) -> Option<&[usize]>
    ensures { IfSome result (λ ids. ids.now ≡ left_of net.entry left) }
{
    net.connections.get(left.start..left.end)
}

/// What is connected on the left of a coil that is the only one of these elements.
fn before_coil<'a>(net: Network<'a>, ids: &[usize]) -> Option<&'a [usize]>
    ensures { IfSome result (λ left. IsSame net.entry ids.now left.now) }
{
    let [id] = ids else {
        return None;
    };
    let Element::Coil { left } = element_at(net, *id)? else {
        return None;
    };
    linked(net, left)
}

/// The elements from which coils alone lead to these.
pub(crate) fn unwired<'a>(net: Network<'a>, ids: &'a [usize]) -> &'a [usize]
    ensures { IsSame net.entry ids.now result.now }
{
    let mut near = ids;
    for _ in net.elements {
        let Some(left) = before_coil(net, near) else {
            return near;
        };
        near = left;
    }
    near
}
