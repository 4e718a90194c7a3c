//! Contacts and coils that act by an edge, and their triggers.

ghost use Rattle.std.specs.Prelude.{ℕ, ◌≡◌, IfOk, IfSome, IsTrue, List, Some, false, slice_get};
ghost use Rattle.xml_document.specs.Items.{Item};
ghost use Rattle.xml_parts.specs.Parts.{items_from};
ghost use Rattle.st_expression.specs.declared.expression.Operand.TheVariants as operand;
ghost use Rattle.network_check.specs.declared.effect.CoilKind.TheVariants.{Plain};
ghost use Rattle.network_check.specs.declared.effect.Effect.{Effect};
ghost use Rattle.network_routes.specs.Firsts.{AllWithin, AreOrdered};
ghost use Rattle.plc_elements.specs.Edges.{IsDue, IsEdge, IsEdgeCoil, IsFrom, IsSense, IsWatch, LeadsToNext, is_contact};
ghost use Rattle.plc_elements.specs.Elements.{parts_of};
ghost use Rattle.plc_elements.specs.Words.{coil_kind, falling_in, negation};

use crate::added::trigger_of;
use crate::connections::is_left;
use crate::effects::is_plain_kind;
use crate::names::{Body, is_called, is_variable};
use crate::parts::part_at;
use crate::words::{coil_kind, falling_in, negation, word_in};
use network_check::Effect;
use network_power::{Element, Links};
use network_routes::{leads_to, leads_to_none};
use st_expression::Operand;
use std::alloc::{AllocError, Global};
use xml_parts::bytes_at;

/// A trigger of a part that acts by an edge.
#[derive(Clone, Copy)]
pub(crate) struct Trigger {
    pub falling: bool,
    pub output: usize,
    pub left: Links,
}

/// What is known of where elements lead.
#[derive(Clone, Copy)]
pub struct Leading<'a> {
    /// Of each element of the network, the place in the order of the first that it leads to, counted from 1: no less than that of an element on its left.
    pub firsts: &'a [usize],
    /// The next element on the route there.
    pub nexts: &'a [usize],
}

/// The operand of the only element that is connected on the left of something, where that is an output.
fn operand_before(body: Body<'_>, left: Links) -> Option<Operand>
    ensures { IfSome result (λ of. IsFrom body.entry left of) }
{
    let [number] = body.network.connections.get(left.start..left.end)? else {
        return None;
    };
    match body.network.elements.get(*number)? {
        Element::Output { operand } => Some(*operand),
        _ => None,
    }
}

/// Whether the only element that is connected on the left of something has power where a variable is on.
fn is_from_variable(body: Body<'_>, left: Links, variable: usize) -> bool
    ensures { IsTrue result → IsFrom body.entry left (operand.Variable variable) }
{
    match operand_before(body, left) {
        Some(Operand::Variable(found)) => found == variable,
        _ => false,
    }
}

/// Whether a coil is neither negated nor stored.
fn is_unmarked(body: Body<'_>, place: usize) -> bool
    ensures negated { IsTrue result → negation (items_from body.entry.document.now place) ≡ Some false }
    ensures kind { IsTrue result → coil_kind false (items_from body.entry.document.now place) ≡ Some Plain }
{
    match coil_kind(body.document, place, false) {
        Some(kind) => is_plain_kind(kind) && negation(body.document, place) == Some(false),
        None => false,
    }
}

/// Whether the part with a number, inside which a place is, acts by an edge, and a variable is the output of its trigger.
fn is_edge(body: Body<'_>, number: usize, place: usize, falling: bool, variable: usize) -> bool
    ensures { IsTrue result → IsEdge body.entry number (items_from body.entry.document.now place) falling variable }
{
    falling_in(body.document, place) == Some(falling) && trigger_of(body, number) == Some(variable)
}

/// Whether the edge of the part with a number is the falling one; None where it has no edge.
pub fn falling_at(body: Body<'_>, number: usize) -> Option<bool>
    ensures { IfSome result (λ falling. (part : List ℕ × List Item) × (slice_get (parts_of body.entry) number ≡ Some part) × (falling_in part.1 ≡ Some falling)) }
{
    let part = part_at(body, number)?;
    falling_in(body.document, part.inside)
}

/// Whether the trigger of a contact looks at what the contact names.
pub(crate) fn is_watch(
    alloc: Global,
    body: Body<'_>,
    number: usize,
    place: usize,
    trigger: Trigger,
) -> Result<bool, AllocError>
    ensures { IfOk result (λ is. IsTrue is → IsWatch body.entry number (items_from body.entry.document.now place) trigger.falling trigger.output trigger.left) }
{
    if !is_edge(body, number, place, trigger.falling, trigger.output) {
        return Ok(false);
    }
    let Some(operand) = operand_before(body, trigger.left) else {
        return Ok(false);
    };
    let word = word_in(alloc, body.document, place, b"variable")?;
    Ok(is_called(body.names, operand, word))
}

/// Whether the trigger of a coil is called by the power of the coil.
pub(crate) fn is_sense(
    alloc: Global,
    body: Body<'_>,
    number: usize,
    place: usize,
    trigger: Trigger,
) -> Result<bool, AllocError>
    ensures { IfOk result (λ is. IsTrue is → IsSense body.entry number (items_from body.entry.document.now place) trigger.falling trigger.output trigger.left) }
{
    if !is_edge(body, number, place, trigger.falling, trigger.output) {
        return Ok(false);
    }
    Ok(is_left(alloc, body, trigger.left, place)?)
}

/// Whether a part is a contact.
fn is_contact(body: Body<'_>, number: usize) -> bool
    ensures { result ≡ is_contact body.entry number }
{
    match body.parts.get(number) {
        Some(part) => bytes_at(&body.document.bytes, part.name) == b"contact".as_slice(),
        None => false,
    }
}

/// Whether an element leads to the next that acts, behind triggers of contacts.
fn leads_to_next(
    body: Body<'_>,
    nexts: &[usize],
    id: usize,
    numbers: &[usize],
    effects: &[Effect],
) -> bool
    ensures { IsTrue result → LeadsToNext body.entry id numbers.now effects.now }
{
    match (numbers, effects) {
        ([number, numbers @ ..], [effect, effects @ ..]) => {
            if is_contact(body, *number) {
                leads_to_next(body, nexts, id, numbers, effects)
            } else {
                leads_to(body.network, nexts, *effect, id)
            }
        }
        _ => false,
    }
}

/// Whether the trigger of a contact is called when it is due, behind so many that act.
pub(crate) fn is_due(
    body: Body<'_>,
    leading: Leading<'_>,
    at: usize,
    id: usize,
    numbers: &[usize],
    effects: &[Effect],
) -> bool
    ensures { IsTrue result → (done : List Effect) → AreOrdered body.entry.network leading.entry.firsts.now
        → AllWithin body.entry.network leading.entry.firsts.now at done → IsDue body.entry id done numbers.now effects.now }
{
    leads_to_none(leading.firsts, at, id)
        && leads_to_next(body, leading.nexts, id, numbers, effects)
}

/// Whether the part with a number, inside which a place is, is a coil that writes a variable by its trigger, whose output is another one.
pub(crate) fn is_edge_coil(
    alloc: Global,
    body: Body<'_>,
    number: usize,
    place: usize,
    trigger: Trigger,
    variable: usize,
) -> Result<bool, AllocError>
    ensures { IfOk result (λ is. IsTrue is → IsEdgeCoil body.entry number (items_from body.entry.document.now place) trigger.falling trigger.output variable trigger.left) }
{
    let word = word_in(alloc, body.document, place, b"variable")?;
    Ok(
        is_edge(body, number, place, trigger.falling, trigger.output)
            && is_unmarked(body, place)
            && is_variable(body.names, variable, word)
            && is_from_variable(body, trigger.left, trigger.output),
    )
}
