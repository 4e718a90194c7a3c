//! Variables behind the declared ones.

ghost use Rattle.std.specs.Prelude.{◌≡◌, ◌==◌, IfOk, IfSome, Some, position};
ghost use Rattle.xml_parts.specs.Parts.{items_from};
ghost use Rattle.plc_elements.specs.Added.{is_same_output, opened_by, trigger_of};

use crate::names::Body;
use crate::words::attribute_or;
use xml_document::Document;

/// The place of a number in a list.
fn place_in(numbers: &[usize], number: usize) -> Option<usize>
    ensures { result ≡ position (λ n. n == number) numbers.now }
{
    numbers.iter().position(|n| *n == number)
}

/// The variable that is the output of the trigger of the part with a number.
pub(crate) fn trigger_of(body: Body<'_>, number: usize) -> Option<usize>
    ensures { IfSome result (λ variable. trigger_of body.entry number ≡ Some variable) }
{
    let place = place_in(body.edges, number)?;
    body.names.declared.checked_add(place)
}

/// Whether two connections name one output of one element.
fn is_same_output(document: &Document, first: usize, second: usize) -> bool
    ensures { result ≡ is_same_output (items_from document.now first) (items_from document.now second) }
{
    attribute_or(document, first, b"refLocalId", b"")
        == attribute_or(document, second, b"refLocalId", b"")
        && attribute_or(document, first, b"formalParameter", b"")
            == attribute_or(document, second, b"formalParameter", b"")
}

/// The place in a list of the first connection that names the same output as another one.
fn output_in(document: &Document, opened: &[usize], connection: usize) -> Option<usize>
    ensures { result ≡ position (λ place. is_same_output (items_from document.now connection) (items_from document.now place)) opened.now }
{
    opened
        .iter()
        .position(|place| is_same_output(document, connection, *place))
}

/// The variable that stands for the output of a block that isn't known, with which a connection is.
pub(crate) fn opened_by(body: Body<'_>, connection: usize) -> Option<usize>
    ensures { IfSome result (λ variable. opened_by body.entry (items_from body.entry.document.now connection) ≡ Some variable) }
{
    let place = output_in(body.document, body.opened, connection)?;
    let behind = body.edges.len().checked_add(place)?;
    body.names.declared.checked_add(behind)
}
