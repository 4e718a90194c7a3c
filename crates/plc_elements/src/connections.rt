//! What is connected with what.

ghost use Rattle.std.specs.Prelude.{◌≡◌, IfOk, IfSome, IsTrue, Some, map, slice_get, true};
ghost use Rattle.std.specs.List.{position_from};
ghost use Rattle.xml_parts.specs.Parts.{items_from, part_of};
ghost use Rattle.diagram_declarations.specs.Name.{same_letters};
ghost use Rattle.st_expression.specs.declared.expression.Operand.TheVariants as operand;
ghost use Rattle.st_program.specs.Items.{output_word};
ghost use Rattle.st_program.specs.declared.program.StInstance.{StInstance};
ghost use Rattle.network_power.specs.Network.{IsAt};
ghost use Rattle.network_power.specs.declared.network.Element.TheVariants.{Output};
ghost use Rattle.plc_elements.specs.Elements.{AreConnected, Each, IsBool, IsConnected, IsOfOutput, IsWithOpened, IsWithPart, Refers, gives, has_number};
ghost use Rattle.plc_elements.specs.Words.{connections_in};

use crate::added::opened_by;
use crate::names::{Body, Names, output_word};
use crate::parts::part_at;
use crate::unknown::is_unknown;
use crate::words::{attribute_or, connections_in};
use diagram_declarations::same_letters;
use network_power::{Element, Links};
use plc_declarations::is_bool;
use st_expression::Operand;
use std::alloc::{AllocError, Global};
use xml_document::Document;
use xml_parts::{Part, attribute};

/// Whether an element has a number.
fn has_number(document: &Document, place: usize, number: &[u8]) -> bool
    ensures { result ≡ has_number number.now (items_from document.now place) }
{
    match attribute(document, place, b"localId") {
        Some(found) => number == found,
        None => false,
    }
}

/// The place of the first of some parts with a number, where the places are counted from one on.
fn numbered_from(document: &Document, parts: &[Part], from: usize, number: &[u8]) -> Option<usize>
    ensures { IfSome result (λ place. position_from (λ part. has_number number.now part.1) from (map (part_of document.now) parts.now) ≡ Some place) }
{
    let [part, rest @ ..] = parts else {
        return None;
    };
    if has_number(document, part.inside, number) {
        return Some(from);
    }
    numbered_from(document, rest, from.checked_add(1)?, number)
}

/// The number of the part that a connection refers to.
pub(crate) fn referred(body: Body<'_>, connection: usize) -> Option<usize>
    ensures { IfSome result (λ number. Refers body.entry number (items_from body.entry.document.now connection)) }
{
    let reference = attribute(body.document, connection, b"refLocalId")?;
    let number = numbered_from(body.document, body.parts, 0, reference)?;
    Some(number)
}

/// The element of the network with a number.
fn element_at(body: Body<'_>, number: usize) -> Option<Element>
    ensures { result ≡ slice_get body.entry.network.elements.now number }
{
    body.network.elements.get(number).copied()
}

/// Whether an element may give power to what it is connected with.
fn gives(element: Element) -> bool
    ensures { result ≡ gives element }
{
    match element {
        Element::Coil { left } => left.start < left.end,
        _ => true,
    }
}

/// Whether the variable with a number is a BOOL.
fn is_bool_at(names: Names<'_>, number: usize) -> bool
    ensures { IsTrue result → IsBool names.entry number }
{
    match names.variables.get(number) {
        Some(x) => is_bool(*x),
        None => false,
    }
}

/// Whether the block with a number has an output of this name.
fn is_of_block(names: Names<'_>, number: usize, output: &[u8]) -> bool
    ensures { IsTrue result → (block : StInstance) × (slice_get names.entry.instances.now number ≡ Some block)
        × (same_letters output.now (output_word block.kind) ≡ true) }
{
    match names.instances.get(number) {
        Some(x) => same_letters(output, output_word(x.kind)),
        None => false,
    }
}

/// Whether a connection with an element is with its output.
fn is_of_output(body: Body<'_>, element: Element, output: &[u8]) -> bool
    ensures { IsTrue result → IsOfOutput body.entry element output.now }
{
    let Element::Output { operand } = element else {
        return true;
    };
    if output.is_empty() {
        return true;
    }
    match operand {
        Operand::Output(number) => is_of_block(body.names, number, output),
        Operand::Variable(number) => {
            same_letters(output, b"Q") || is_bool_at(body.names, number)
        }
    }
}

/// Whether a connection is with a part.
fn is_with_part(body: Body<'_>, number: usize, connection: usize) -> bool
    ensures { IsTrue result → IsWithPart body.entry number (items_from body.entry.document.now connection) }
{
    let Some(first) = referred(body, connection) else {
        return false;
    };
    let Some(element) = element_at(body, number) else {
        return false;
    };
    if first != number {
        return false;
    }
    if !gives(element) {
        return false;
    }
    is_of_output(
        body,
        element,
        attribute_or(body.document, connection, b"formalParameter", b""),
    )
}

/// Whether an element has power where a variable is on.
fn is_output_of(body: Body<'_>, number: usize, variable: usize) -> bool
    ensures { IsTrue result → IsAt body.entry.network number (Output (operand.Variable variable)) }
{
    match element_at(body, number) {
        Some(
            Element::Output {
                operand: Operand::Variable(found),
            },
        ) => found == variable,
        _ => false,
    }
}

/// Whether a connection is with an output of a block that isn't known, in whose place an element stands.
fn is_with_opened(
    alloc: Global,
    body: Body<'_>,
    number: usize,
    connection: usize,
) -> Result<bool, AllocError>
    ensures { IfOk result (λ is. IsTrue is → IsWithOpened body.entry number (items_from body.entry.document.now connection)) }
{
    let (Some(block), Some(variable)) = (referred(body, connection), opened_by(body, connection))
    else {
        return Ok(false);
    };
    let Some(part) = part_at(body, block) else {
        return Ok(false);
    };
    if !body.is_open || !is_output_of(body, number, variable) {
        return Ok(false);
    }
    Ok(is_unknown(alloc, body.document, part)?)
}

/// Whether a connection is with an element.
fn is_connected(
    alloc: Global,
    body: Body<'_>,
    number: usize,
    connection: usize,
) -> Result<bool, AllocError>
    ensures { IfOk result (λ is. IsTrue is → IsConnected body.entry number (items_from body.entry.document.now connection)) }
{
    if is_with_part(body, number, connection) {
        return Ok(true);
    }
    Ok(is_with_opened(alloc, body, number, connection)?)
}

/// Whether connections are with these elements.
fn are_with(
    alloc: Global,
    body: Body<'_>,
    numbers: &[usize],
    connections: &[usize],
) -> Result<bool, AllocError>
    ensures { IfOk result (λ are. IsTrue are → Each (IsConnected body.entry) numbers.now (map (items_from body.entry.document.now) connections.now)) }
{
    match (numbers, connections) {
        ([], []) => Ok(true),
        ([number, numbers @ ..], [connection, connections @ ..]) => Ok(
            is_connected(alloc, body, *number, *connection)?
                && are_with(alloc, body, numbers, connections)?,
        ),
        _ => Ok(false),
    }
}

/// Whether these connections are on the left of something.
pub(crate) fn are_connected(
    alloc: Global,
    body: Body<'_>,
    left: Links,
    connections: &[usize],
) -> Result<bool, AllocError>
    ensures { IfOk result (λ are. IsTrue are → AreConnected body.entry left (map (items_from body.entry.document.now) connections.now)) }
{
    match body.network.connections.get(left.start..left.end) {
        Some(numbers) => are_with(alloc, body, numbers, connections),
        None => Ok(false),
    }
}

/// Whether the connections of an element are on the left of something.
pub(crate) fn is_left(
    alloc: Global,
    body: Body<'_>,
    left: Links,
    place: usize,
) -> Result<bool, AllocError>
    ensures { IfOk result (λ is. IsTrue is → AreConnected body.entry left (connections_in (items_from body.entry.document.now place))) }
{
    let connections = connections_in(alloc, body.document, place)?;
    Ok(are_connected(alloc, body, left, &connections)?)
}
