//! What elements don't lead to, by a number of each of them: no larger than those of the elements that it leads to.

ghost use Rattle.std.specs.Prelude.{◌≡◌, IsTrue, List};
ghost use Rattle.network_power.specs.Network.{left_of};
ghost use Rattle.network_power.specs.declared.network.Network.{Network};
ghost use Rattle.network_check.specs.declared.effect.Effect.{Effect};
ghost use Rattle.network_routes.specs.Firsts.{AllWithin, AreNoLarger, AreOrdered, AreWithin, IsWithin, before, first_of};
ghost use Rattle.network_routes.specs.Routes.{LeadsToNone};

use crate::lists::{left_in, linked};
use network_check::Effect;
use network_power::{Element, Links, Network};

/// The number of an element.
fn first_of(firsts: &[usize], id: usize) -> usize
    ensures { result ≡ first_of firsts.now id }
{
    match firsts.get(id) {
        Some(first) => *first,
        None => 0,
    }
}

/// Whether all of these elements have a number within a limit.
#[tactic(auto, using(crate::proofs::Within::none_within, crate::proofs::Within::more_within))]
fn are_within(firsts: &[usize], limit: usize, ids: &[usize]) -> bool
    ensures { IsTrue result → AreWithin firsts.now limit ids.now }
{
    match ids {
        [] => true,
        [id, rest @ ..] => first_of(firsts, *id) <= limit && are_within(firsts, limit, rest),
    }
}

/// Whether what is connected on the left of something has numbers within a limit.
fn is_left_within(net: Network<'_>, firsts: &[usize], limit: usize, left: Links) -> bool
    ensures { IsTrue result → AreWithin firsts.now limit (left_of net.entry left) }
{
    match linked(net, left) {
        Some(ids) => are_within(firsts, limit, ids),
        None => false,
    }
}

/// Whether what is connected on the left of an element has numbers within a limit.
#[tactic(auto, using(crate::proofs::Within::none_within))]
fn is_before_within(net: Network<'_>, firsts: &[usize], limit: usize, element: Element) -> bool
    ensures { IsTrue result → AreWithin firsts.now limit (before net.entry element) }
{
    match left_in(element) {
        Some(left) => is_left_within(net, firsts, limit, left),
        None => true,
    }
}

/// Whether elements have these numbers, and nothing on the left of one of them a larger one.
fn are_no_larger(net: Network<'_>, firsts: &[usize], elements: &[Element], own: &[usize]) -> bool
    ensures { IsTrue result → AreNoLarger net.entry firsts.now elements.now own.now }
{
    match (elements, own) {
        ([], _) => true,
        ([element, elements @ ..], [first, own @ ..]) => {
            is_before_within(net, firsts, *first, *element)
                && are_no_larger(net, firsts, elements, own)
        }
        _ => false,
    }
}

/// Whether nothing on the left of an element of a network has a larger number than it; `firsts` has the numbers.
pub fn are_ordered(net: Network<'_>, firsts: &[usize]) -> bool
    ensures { IsTrue result → AreOrdered net.entry firsts.now }
{
    are_no_larger(net, firsts, net.elements, firsts)
}

/// Whether what is connected on the left of what acts has numbers within a limit.
#[tactic(auto, using(crate::proofs::Within::none_within, crate::proofs::Within::both_within))]
pub fn is_within(net: Network<'_>, firsts: &[usize], limit: usize, effect: Effect) -> bool
    ensures { IsTrue result → IsWithin net.entry firsts.now limit effect }
{
    match effect {
        Effect::Coil { left, .. }
        | Effect::Trigger { left, .. }
        | Effect::Return { left }
        | Effect::Jump { left, .. } => is_left_within(net, firsts, limit, left),
        Effect::Call { first, second, .. } => {
            is_left_within(net, firsts, limit, first) && is_left_within(net, firsts, limit, second)
        }
        Effect::Label => true,
    }
}

/// Whether an element has a number above a limit. Then it leads to none of those that act by what has numbers within it, if the numbers are ordered.
pub fn leads_to_none(firsts: &[usize], limit: usize, id: usize) -> bool
    ensures { IsTrue result → (net : Network) (effects : List Effect) → AreOrdered net firsts.now → AllWithin net firsts.now limit effects
        → LeadsToNone net effects id }
{
    first_of(firsts, id) > limit
}
