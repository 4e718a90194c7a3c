//! What a variable says of itself.

ghost use Rattle.std.specs.Prelude.{◌≡◌, IfOk, option_map};
ghost use Rattle.std.specs.Map.{lookup};
ghost use Rattle.diagram_declarations.specs.Name.{same_letters};
ghost use Rattle.xml_parts.specs.Parts.{items_from};
ghost use Rattle.plc_declarations.specs.Words.{address_in, initial_in, is_plain, is_unset, section_of, simple_value, values};

use diagram_declarations::same_letters;
use st_program::Section;
use std::alloc::{AllocError, Global};
use xml_document::Document;
use xml_parts::{attribute, first_in};

/// The section that a list of an interface is.
pub(crate) fn section_of(name: &[u8]) -> Option<Section>
    ensures { result ≡ section_of name.now }
{
    if name == b"localVars".as_slice() {
        Some(Section::Local)
    } else if name == b"inputVars".as_slice() {
        Some(Section::Input)
    } else if name == b"outputVars".as_slice() {
        Some(Section::Output)
    } else if name == b"externalVars".as_slice() || name == b"tempVars".as_slice() {
        Some(Section::Local)
    } else {
        None
    }
}

/// Whether an attribute is left out, or is `false` or 0.
fn is_unset(document: &Document, place: usize, name: &[u8]) -> bool
    ensures { result ≡ is_unset name.now (items_from document.now place) }
{
    match attribute(document, place, name) {
        Some(value) => matches!(value, b"false" | b"0"),
        None => true,
    }
}

/// Whether the variables of a list can be written, and begin anew.
pub(crate) fn is_plain(document: &Document, place: usize) -> bool
    ensures { result ≡ is_plain (items_from document.now place) }
{
    is_unset(document, place, b"constant") && is_unset(document, place, b"retain")
}

/// The address of a variable, where it has one that isn't empty.
pub(crate) fn address_in(document: &Document, place: usize) -> Option<&[u8]>
    ensures { option_map (λ word. word.now) result ≡ address_in (items_from document.now place) }
{
    match attribute(document, place, b"address")? {
        [] => None,
        word => Some(word),
    }
}

/// The word of the value that a variable has at the start, where there is one.
fn simple_value<'a>(
    alloc: Global,
    document: &'a Document,
    place: usize,
) -> Result<Option<&'a [u8]>, AllocError>
    ensures { IfOk result (λ found. option_map (λ word. word.now) found ≡ simple_value (items_from document.now place)) }
{
    let Some(initial) = first_in(alloc, document, place, b"initialValue")? else {
        return Ok(None);
    };
    match first_in(alloc, document, initial, b"simpleValue")? {
        Some(simple) => Ok(attribute(document, simple, b"value")),
        None => Ok(None),
    }
}

/// The value of a word; None where it is no BOOL.
fn value_of(word: &[u8]) -> Option<bool>
    ensures { result ≡ lookup (same_letters word.now) values }
{
    if same_letters(word, b"TRUE") || same_letters(word, b"1") {
        Some(true)
    } else if same_letters(word, b"FALSE") || same_letters(word, b"0") {
        Some(false)
    } else {
        None
    }
}

/// The value that a variable has at the start, OFF where there is none; None where it is no BOOL.
pub(crate) fn initial_in(
    alloc: Global,
    document: &Document,
    place: usize,
) -> Result<Option<bool>, AllocError>
    ensures { IfOk result (λ found. found ≡ initial_in (items_from document.now place)) }
{
    match simple_value(alloc, document, place)? {
        Some(word) => Ok(value_of(word)),
        None => Ok(value_of(b"FALSE")),
    }
}
