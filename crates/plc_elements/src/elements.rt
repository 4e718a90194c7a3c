//! What the parts of a body are in a network.

ghost use Rattle.std.specs.Prelude.{◌≡◌, Bool, IfOk, IsTrue, Some, codes, false, map, true};
ghost use Rattle.st_expression.specs.declared.expression.Operand.TheVariants as operand;
ghost use Rattle.xml_parts.specs.Parts.{items_from, part_of};
ghost use Rattle.network_power.specs.declared.network.Element.TheVariants.{Coil, Output, Rail};
ghost use Rattle.network_power.specs.declared.network.Element.TheVariants as element;
ghost use Rattle.plc_elements.specs.Elements.{AreParts, IsContact, IsEdgeContact, IsElement, IsOperand};
ghost use Rattle.plc_elements.specs.Words.{falling_in, negation, says_none};

use crate::added::trigger_of;
use crate::connections::is_left;
use crate::names::{Body, block_at, is_called, is_trigger_block};
use crate::parts::is_named;
use crate::words::{falling_in, is_plain, negation, says_none, word_in};
use network_power::{Element, Links};
use st_expression::Operand;
use std::alloc::{AllocError, Global};
use xml_parts::Part;

/// A contact as a network has it.
#[derive(Clone, Copy)]
struct Contact {
    negated: bool,
    operand: Operand,
    left: Links,
}

/// Whether an element has neither an edge nor a storage.
fn is_steady(body: Body<'_>, place: usize) -> bool
    ensures edge { IsTrue result → says_none (codes "edge") (items_from body.entry.document.now place) ≡ true }
    ensures storage { IsTrue result → says_none (codes "storage") (items_from body.entry.document.now place) ≡ true }
{
    says_none(body.document, place, b"edge") && says_none(body.document, place, b"storage")
}

/// Whether an element is this contact.
fn is_contact(
    alloc: Global,
    body: Body<'_>,
    place: usize,
    contact: Contact,
) -> Result<bool, AllocError>
    ensures { IfOk result (λ is. IsTrue is → IsContact body.entry (items_from body.entry.document.now place) contact.negated contact.operand contact.left) }
{
    let word = word_in(alloc, body.document, place, b"variable")?;
    Ok(
        is_steady(body, place)
            && negation(body.document, place) == Some(contact.negated)
            && is_called(body.names, contact.operand, word)
            && is_left(alloc, body, contact.left, place)?,
    )
}

/// Whether an element has an edge, and is neither negated nor stored.
fn is_edge(body: Body<'_>, place: usize) -> bool
    ensures edge { IsTrue result → (falling : Bool) × (falling_in (items_from body.entry.document.now place) ≡ Some falling) }
    ensures storage { IsTrue result → says_none (codes "storage") (items_from body.entry.document.now place) ≡ true }
    ensures negated { IsTrue result → negation (items_from body.entry.document.now place) ≡ Some false }
{
    match falling_in(body.document, place) {
        Some(_) => {
            says_none(body.document, place, b"storage")
                && negation(body.document, place) == Some(false)
        }
        None => false,
    }
}

/// Whether the part with a number, inside which a place is, is a contact that is closed by its trigger, whose output is this variable.
fn is_edge_contact(
    alloc: Global,
    body: Body<'_>,
    number: usize,
    place: usize,
    variable: usize,
    left: Links,
) -> Result<bool, AllocError>
    ensures { IfOk result (λ is. IsTrue is → IsEdgeContact body.entry number (items_from body.entry.document.now place) variable left) }
{
    if !is_edge(body, place) || trigger_of(body, number) != Some(variable) {
        return Ok(false);
    }
    Ok(is_left(alloc, body, left, place)?)
}

/// Whether an inVariable is this operand.
fn is_operand(
    alloc: Global,
    body: Body<'_>,
    place: usize,
    operand: Operand,
) -> Result<bool, AllocError>
    ensures { IfOk result (λ is. IsTrue is → IsOperand body.entry (items_from body.entry.document.now place) operand) }
{
    let word = word_in(alloc, body.document, place, b"expression")?;
    Ok(is_plain(body.document, place) && is_called(body.names, operand, word))
}

/// Whether a part is a left rail.
#[tactic(auto, using(crate::specs::Elements::rail))]
fn is_rail_part(body: Body<'_>, number: usize, part: Part) -> bool
    ensures { IsTrue result → IsElement body.entry number (part_of body.entry.document.now part).0 (part_of body.entry.document.now part).1 Rail }
{
    is_named(body.document, part, b"leftPowerRail")
}

/// Whether a part is a contact with an edge that is closed by its trigger.
#[tactic(auto, using(crate::specs::Elements::edge))]
fn is_edge_part(
    alloc: Global,
    body: Body<'_>,
    number: usize,
    part: Part,
    contact: Contact,
) -> Result<bool, AllocError>
    ensures { IfOk result (λ is. IsTrue is → IsElement body.entry number (part_of body.entry.document.now part).0 (part_of body.entry.document.now part).1 (element.Contact contact.negated contact.operand contact.left)) }
{
    if contact.negated || !is_named(body.document, part, b"contact") {
        return Ok(false);
    }
    let Operand::Variable(variable) = contact.operand else {
        return Ok(false);
    };
    Ok(is_edge_contact(alloc, body, number, part.inside, variable, contact.left)?)
}

/// Whether a part is this contact.
#[tactic(auto, using(crate::specs::Elements::contact))]
fn is_contact_part(
    alloc: Global,
    body: Body<'_>,
    number: usize,
    part: Part,
    contact: Contact,
) -> Result<bool, AllocError>
    ensures { IfOk result (λ is. IsTrue is → IsElement body.entry number (part_of body.entry.document.now part).0 (part_of body.entry.document.now part).1 (element.Contact contact.negated contact.operand contact.left)) }
{
    if is_edge_part(alloc, body, number, part, contact)? {
        return Ok(true);
    }
    if !is_named(body.document, part, b"contact") {
        return Ok(false);
    }
    Ok(is_contact(alloc, body, part.inside, contact)?)
}

/// Whether a part is a trigger whose output is a variable.
#[tactic(auto, using(crate::specs::Elements::trigger))]
fn is_trigger_part(body: Body<'_>, number: usize, part: Part, variable: usize) -> bool
    ensures { IsTrue result → IsElement body.entry number (part_of body.entry.document.now part).0 (part_of body.entry.document.now part).1 (Output (operand.Variable variable)) }
{
    if !is_named(body.document, part, b"block") {
        return false;
    }
    is_trigger_block(body.document, body.names, part.inside, false, variable)
        || is_trigger_block(body.document, body.names, part.inside, true, variable)
}

/// Whether a part is a block with this output.
#[tactic(auto, using(crate::specs::Elements::block))]
fn is_block_part(body: Body<'_>, number: usize, part: Part, operand: Operand) -> bool
    ensures { IsTrue result → IsElement body.entry number (part_of body.entry.document.now part).0 (part_of body.entry.document.now part).1 (Output operand) }
{
    let instance = match operand {
        Operand::Variable(variable) => return is_trigger_part(body, number, part, variable),
        Operand::Output(instance) => instance,
    };
    if !is_named(body.document, part, b"block") {
        return false;
    }
    match block_at(body.document, body.names, part.inside, instance) {
        Some(_) => true,
        None => false,
    }
}

/// Whether a part is a block, or an inVariable, with this output.
#[tactic(auto, using(crate::specs::Elements::source))]
fn is_source(
    alloc: Global,
    body: Body<'_>,
    number: usize,
    part: Part,
    operand: Operand,
) -> Result<bool, AllocError>
    ensures { IfOk result (λ is. IsTrue is → IsElement body.entry number (part_of body.entry.document.now part).0 (part_of body.entry.document.now part).1 (Output operand)) }
{
    if is_named(body.document, part, b"inVariable") {
        return Ok(is_operand(alloc, body, part.inside, operand)?);
    }
    Ok(is_block_part(body, number, part, operand))
}

/// Whether a part is a coil of the network, or nothing is connected with it.
#[tactic(auto, using(crate::specs::Elements::coil, crate::specs::Elements::alone))]
fn is_passing(
    alloc: Global,
    body: Body<'_>,
    number: usize,
    part: Part,
    left: Links,
) -> Result<bool, AllocError>
    ensures { IfOk result (λ is. IsTrue is → IsElement body.entry number (part_of body.entry.document.now part).0 (part_of body.entry.document.now part).1 (Coil left)) }
{
    if left.start >= left.end {
        return Ok(true);
    }
    if !is_named(body.document, part, b"coil") {
        return Ok(false);
    }
    Ok(is_left(alloc, body, left, part.inside)?)
}

/// Whether the part with a number is an element of the network.
fn is_part(
    alloc: Global,
    body: Body<'_>,
    number: usize,
    part: Part,
    element: Element,
) -> Result<bool, AllocError>
    ensures { IfOk result (λ is. IsTrue is → IsElement body.entry number (part_of body.entry.document.now part).0 (part_of body.entry.document.now part).1 element) }
{
    match element {
        Element::Rail => Ok(is_rail_part(body, number, part)),
        Element::Contact {
            negated,
            operand,
            left,
        } => {
            let contact = Contact {
                negated,
                operand,
                left,
            };
            is_contact_part(alloc, body, number, part, contact)
        }
        Element::Coil { left } => is_passing(alloc, body, number, part, left),
        Element::Output { operand } => is_source(alloc, body, number, part, operand),
    }
}

/// Whether parts, counted from a number on, are the first of these elements of the network, one by one.
pub(crate) fn are_parts(
    alloc: Global,
    body: Body<'_>,
    number: usize,
    parts: &[Part],
    elements: &[Element],
) -> Result<bool, AllocError>
    ensures { IfOk result (λ are. IsTrue are → AreParts body.entry number (map (part_of body.entry.document.now) parts.now) elements.now) }
{
    match (parts, elements) {
        ([], _) => Ok(true),
        ([part, parts @ ..], [element, elements @ ..]) => {
            let Some(next) = number.checked_add(1) else {
                return Ok(false);
            };
            Ok(
                is_part(alloc, body, number, *part, *element)?
                    && are_parts(alloc, body, next, parts, elements)?,
            )
        }
        _ => Ok(false),
    }
}
