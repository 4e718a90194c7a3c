//! Whether an element leads to what acts.

ghost use Rattle.std.specs.Prelude.{◌≡◌, IsTrue, Some};
ghost use Rattle.network_power.specs.Network.{Among, IsAt, left_of};
ghost use Rattle.network_power.specs.declared.network.Element.{Element};
ghost use Rattle.network_power.specs.declared.network.Links.{Links};
ghost use Rattle.network_routes.specs.Routes.{LeadsTo, fed_by, left_in};

use crate::lists::{is_before, is_linked};
use network_check::Effect;
use network_power::Network;

/// Whether an element is connected on the left of what acts.
fn is_fed(net: Network<'_>, effect: Effect, id: usize) -> bool
    ensures { IsTrue result → Among id (fed_by net.entry effect) }
{
    match effect {
        Effect::Coil { left, .. }
        | Effect::Trigger { left, .. }
        | Effect::Return { left }
        | Effect::Jump { left, .. } => is_linked(net, left, id),
        Effect::Call { first, second, .. } => {
            is_linked(net, first, id) || is_linked(net, second, id)
        }
        Effect::Label => false,
    }
}

/// Whether an element leads to what acts, by a route of so many elements at most. `nexts` has the next element on the route for each of them.
#[tactic(auto, using(crate::specs::Routes::one, crate::specs::Routes::through))]
fn leads(net: Network<'_>, nexts: &[usize], effect: Effect, id: usize, most: usize) -> bool
    ensures { IsTrue result → LeadsTo net.entry effect id }
{
    if is_fed(net, effect, id) {
        return true;
    }
    let Some(next) = nexts.get(id) else {
        return false;
    };
    let Some(shorter) = most.checked_sub(1) else {
        return false;
    };
    is_before(net, *next, id) && leads(net, nexts, effect, *next, shorter)
}

/// Whether an element leads to what acts. `nexts` has, for each element of the network, the next one on its route; `false` says nothing.
pub fn leads_to(net: Network<'_>, nexts: &[usize], effect: Effect, id: usize) -> bool
    ensures { IsTrue result → LeadsTo net.entry effect id }
{
    leads(net, nexts, effect, id, net.elements.len())
}
