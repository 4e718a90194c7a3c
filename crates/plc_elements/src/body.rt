//! A body, compared with a network and what its elements do.

ghost use Rattle.std.specs.Prelude.{◌≡◌, [], IfOk, IsTrue, None, true};
ghost use Rattle.plc_elements.specs.Body.{AreDone, IsBody, are_in, have_memories};
ghost use Rattle.plc_elements.specs.Elements.{parts_of};
ghost use Rattle.plc_elements.specs.Order.{acting_from};

use crate::edges::Leading;
use crate::elements::are_parts;
use crate::names::Body;
use crate::order::{are_in, are_listed, are_numbered};
use crate::steps::{Stage, are_done};
use network_check::Effect;
use network_routes::are_ordered;
use std::alloc::{AllocError, Global};

/// Whether the triggers have the memories from a number on, one after the other.
fn have_memories(memory: usize, effects: &[Effect]) -> bool
    ensures { IsTrue result → have_memories memory effects.now ≡ true }
{
    let [effect, rest @ ..] = effects else {
        return true;
    };
    let Effect::Trigger { memory: found, .. } = effect else {
        return have_memories(memory, rest);
    };
    match memory.checked_add(1) {
        Some(next) => *found == memory && have_memories(next, rest),
        None => false,
    }
}

/// Whether all parts do this, in this order.
fn are_in_order(
    alloc: Global,
    body: Body<'_>,
    order: &[usize],
    effects: &[Effect],
    leading: Leading<'_>,
) -> Result<bool, AllocError>
    ensures { IfOk result (λ are. IsTrue are → AreDone body.entry [] None order.now effects.now) }
{
    if !are_ordered(body.network, leading.firsts) {
        return Ok(false);
    }
    let stage = Stage {
        numbered: are_numbered(body.document, body.parts),
        at: 0,
        before: None,
        last: None,
    };
    Ok(are_done(alloc, body, leading, stage, order, effects)?)
}

/// Whether all that act, and all that are looked at for an edge, are in an order, with the memories of their triggers.
fn are_all(
    alloc: Global,
    body: Body<'_>,
    order: &[usize],
    effects: &[Effect],
) -> Result<bool, AllocError>
    ensures memories { IfOk result (λ are. IsTrue are → have_memories 0 effects.now ≡ true) }
    ensures acting { IfOk result (λ are. IsTrue are → are_in order.now (acting_from body.entry 0 (parts_of body.entry)) ≡ true) }
    ensures edges { IfOk result (λ are. IsTrue are → are_in order.now body.entry.edges.now ≡ true) }
{
    Ok(
        have_memories(0, effects)
            && are_in(order, body.edges)
            && are_listed(alloc, body, body.parts, 0, order)?,
    )
}

/// Whether the parts of a body are the elements of its network, and all of them that act do this: the part with the first number of `order` the
/// first effect, and so on. A part with an edge is there with its trigger. `false` says nothing.
///
/// # Errors
///
/// Memory runs out.
pub fn is_body(
    alloc: Global,
    body: Body<'_>,
    order: &[usize],
    effects: &[Effect],
    leading: Leading<'_>,
) -> Result<bool, AllocError>
    ensures { IfOk result (λ is. IsTrue is → IsBody body.entry order.now effects.now) }
{
    Ok(
        are_parts(alloc, body, 0, body.parts, body.network.elements)?
            && are_all(alloc, body, order, effects)?
            && are_in_order(alloc, body, order, effects, leading)?,
    )
}
