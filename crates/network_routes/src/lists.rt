//! What is connected on the left of elements and of what acts.

ghost use Rattle.std.specs.Prelude.{◌≡◌, IfSome, IsTrue, Some};
ghost use Rattle.network_power.specs.declared.network.Element.{Element};
ghost use Rattle.network_power.specs.declared.network.Links.{Links};
ghost use Rattle.network_power.specs.Network.{Among, IsAt, left_of};
ghost use Rattle.network_routes.specs.Firsts.{before};
ghost use Rattle.network_routes.specs.Routes.{fed_by, left_in};

use network_check::Effect;
use network_power::{Element, Links, Network};

/// What is connected on the left of something. None where the range isn't one of the list of connections.
pub(crate) fn linked(net: Network<'_>, left: Links) -> Option<&[usize]>
    ensures { IfSome result (λ ids. ids.now ≡ left_of net.entry left) }
{
    net.connections.get(left.start..left.end)
}

/// What is connected on the left of an element that passes power on.
pub(crate) fn left_in(element: Element) -> Option<Links>
    ensures { result ≡ left_in element }
{
    match element {
        Element::Contact { left, .. } | Element::Coil { left } => Some(left),
        Element::Rail | Element::Output { .. } => None,
    }
}

/// Whether an element is one of these.
#[tactic(auto, using(crate::proofs::Within::first_among, crate::proofs::Within::others_among))]
fn is_among(ids: &[usize], id: usize) -> bool
    ensures { IsTrue result → Among id ids.now }
{
    match ids {
        [] => false,
        [first, rest @ ..] => *first == id || is_among(rest, id),
    }
}

/// Whether an element is connected on the left of something.
pub(crate) fn is_linked(net: Network<'_>, left: Links, id: usize) -> bool
    ensures { IsTrue result → Among id (left_of net.entry left) }
{
    match linked(net, left) {
        Some(ids) => is_among(ids, id),
        None => false,
    }
}

/// Whether an element is connected on the left of another one, which passes power on.
pub(crate) fn is_before(net: Network<'_>, next: usize, id: usize) -> bool
    ensures { IsTrue result → (e : Element) × (left : Links) × IsAt net.entry next e × (left_in e ≡ Some left) × Among id (left_of net.entry left) }
{
    let Some(element) = net.elements.get(next) else {
        return false;
    };
    match left_in(*element) {
        Some(left) => is_linked(net, left, id),
        None => false,
    }
}
