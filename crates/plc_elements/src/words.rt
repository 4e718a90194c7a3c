//! What the attributes and the parts of an element say.

ghost use Rattle.std.specs.Prelude.{◌≡◌, IfOk, IsTrue, map};
ghost use Rattle.xml_parts.specs.Parts.{items_from};
ghost use Rattle.plc_elements.specs.Words.{attribute_or, coil_kind, connections_in, falling_in, is_plain, negation, says_none, word_in};

use network_check::CoilKind;
use std::alloc::{AllocError, Global};
use xml_document::Document;
use xml_parts::{all_in, attribute, first_in, text};

/// The value of an attribute of an element, or what it stands for where it is left out.
pub(crate) fn attribute_or<'a>(
    document: &'a Document,
    place: usize,
    name: &[u8],
    default: &'a [u8],
) -> &'a [u8]
    ensures { result.now ≡ attribute_or name.now default.now (items_from document.now place) }
{
    match attribute(document, place, name) {
        Some(value) => value,
        None => default,
    }
}

/// The characters in the first part of an element with a name.
pub(crate) fn word_in<'a>(
    alloc: Global,
    document: &'a Document,
    place: usize,
    name: &[u8],
) -> Result<&'a [u8], AllocError>
    ensures { IfOk result (λ word. word.now ≡ word_in name.now (items_from document.now place)) }
{
    match first_in(alloc, document, place, name)? {
        Some(inside) => Ok(text(document, inside)),
        None => Ok(&[]),
    }
}

/// Whether an element is negated; None where that can't be told.
pub(crate) fn negation(document: &Document, place: usize) -> Option<bool>
    ensures { result ≡ negation (items_from document.now place) }
{
    match attribute_or(document, place, b"negated", b"false") {
        b"true" | b"1" => Some(true),
        b"false" | b"0" => Some(false),
        _ => None,
    }
}

/// Whether an attribute of an element is left out, or says that it has none of this.
pub(crate) fn says_none(document: &Document, place: usize, name: &[u8]) -> bool
    ensures { result ≡ says_none name.now (items_from document.now place) }
{
    attribute_or(document, place, name, b"none") == b"none".as_slice()
}

/// Whether an element passes power on as it is: it isn't negated, and has no edge and no storage.
pub(crate) fn is_plain(document: &Document, place: usize) -> bool
    ensures { result ≡ is_plain (items_from document.now place) }
{
    says_none(document, place, b"edge")
        && says_none(document, place, b"storage")
        && negation(document, place) == Some(false)
}

/// Whether the edge that an element acts by is the falling one; None where it has no edge.
pub(crate) fn falling_in(document: &Document, place: usize) -> Option<bool>
    ensures { result ≡ falling_in (items_from document.now place) }
{
    let word = attribute_or(document, place, b"edge", b"none");
    if word == b"rising".as_slice() {
        Some(false)
    } else if word == b"falling".as_slice() {
        Some(true)
    } else {
        None
    }
}

/// The kind of a coil that is negated or not; None where there is no such coil.
pub(crate) fn coil_kind(document: &Document, place: usize, negated: bool) -> Option<CoilKind>
    ensures { result ≡ coil_kind negated (items_from document.now place) }
{
    match (negated, attribute_or(document, place, b"storage", b"none")) {
        (true, b"none") => Some(CoilKind::Negated),
        (false, b"none") => Some(CoilKind::Plain),
        (false, b"set") => Some(CoilKind::Set),
        (false, b"reset") => Some(CoilKind::Reset),
        _ => None,
    }
}

/// What an element is connected with on its left.
pub(crate) fn connections_in(
    alloc: Global,
    document: &Document,
    place: usize,
) -> Result<Vec<usize>, AllocError>
    ensures { IfOk result (λ places. map (items_from document.now) places.items ≡ connections_in (items_from document.now place)) }
{
    match first_in(alloc, document, place, b"connectionPointIn")? {
        Some(inside) => all_in(alloc, document, inside, b"connection"),
        None => Ok(Vec::new(alloc)),
    }
}
