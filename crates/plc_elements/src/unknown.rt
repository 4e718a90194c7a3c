//! What is left out of a body that may be open.

ghost use Rattle.std.specs.Prelude.{◌≡◌, IfOk, map};
ghost use Rattle.std.specs.List.{list_all, list_any};
ghost use Rattle.diagram_declarations.specs.Name.{is_name_byte, same_letters};
ghost use Rattle.st_words.specs.Places.{spelled};
ghost use Rattle.xml_parts.specs.Parts.{items_from, part_of};
ghost use Rattle.plc_elements.specs.Unknown.{both_ways, has_name, is_foreign, is_left_out, is_unknown, writes_foreign};

use crate::names::{Body, Names};
use crate::words::{attribute_or, word_in};
use diagram_declarations::same_letters;
use plc_declarations::is_known_type;
use st_program::{StInstance, StVariable, bytes_of};
use std::alloc::{AllocError, Global};
use xml_document::Document;
use xml_parts::{Part, all_in, bytes_at, first_in};

/// What a block may write beside its outputs.
fn both_ways(alloc: Global, document: &Document, place: usize) -> Result<Vec<usize>, AllocError>
    ensures { IfOk result (λ places. map (items_from document.now) places.items ≡ both_ways (items_from document.now place)) }
{
    match first_in(alloc, document, place, b"inOutVariables")? {
        Some(inside) => all_in(alloc, document, inside, b"variable"),
        None => Ok(Vec::new(alloc)),
    }
}

/// Whether a part is a block of a type that isn't known, which writes nothing but its outputs.
pub(crate) fn is_unknown(alloc: Global, document: &Document, part: Part) -> Result<bool, AllocError>
    ensures { IfOk result (λ is. is ≡ is_unknown (part_of document.now part)) }
{
    if bytes_at(&document.bytes, part.name) != b"block".as_slice()
        || is_known_type(attribute_or(document, part.inside, b"typeName", b""))
    {
        return Ok(false);
    }
    Ok(both_ways(alloc, document, part.inside)?.is_empty())
}

/// Whether one of some variables has a name.
fn names_variable(text: &[u8], variables: &[StVariable], word: &[u8]) -> bool
    ensures { result ≡ list_any (λ x. same_letters word.now (spelled text.now x.name)) variables.now }
{
    match variables {
        [] => false,
        [x, rest @ ..] => {
            same_letters(word, bytes_of(text, x.name)) || names_variable(text, rest, word)
        }
    }
}

/// Whether one of some blocks has a name.
fn names_instance(text: &[u8], instances: &[StInstance], word: &[u8]) -> bool
    ensures { result ≡ list_any (λ x. same_letters word.now (spelled text.now x.name)) instances.now }
{
    match instances {
        [] => false,
        [x, rest @ ..] => {
            same_letters(word, bytes_of(text, x.name)) || names_instance(text, rest, word)
        }
    }
}

/// Whether something of the program has a name.
fn has_name(names: Names<'_>, word: &[u8]) -> bool
    ensures { result ≡ has_name names.entry word.now }
{
    names_variable(names.text, names.variables, word)
        || names_instance(names.text, names.instances, word)
}

/// Whether all bytes can be in a name.
fn are_name_bytes(bytes: &[u8]) -> bool
    ensures { result ≡ list_all is_name_byte bytes.now }
{
    bytes
        .iter()
        .all(|b| b.is_ascii_alphanumeric() || *b == b'_')
}

/// Whether a word is a name, of nothing that the program has.
fn is_foreign(names: Names<'_>, word: &[u8]) -> bool
    ensures { result ≡ is_foreign names.entry word.now }
{
    !word.is_empty() && are_name_bytes(word) && !has_name(names, word)
}

/// Whether a part writes a variable that the program doesn't have.
fn writes_foreign(
    alloc: Global,
    document: &Document,
    names: Names<'_>,
    part: Part,
) -> Result<bool, AllocError>
    ensures { IfOk result (λ is. is ≡ writes_foreign names.entry (part_of document.now part)) }
{
    if bytes_at(&document.bytes, part.name) != b"outVariable".as_slice() {
        return Ok(false);
    }
    let word = word_in(alloc, document, part.inside, b"expression")?;
    Ok(is_foreign(names, word))
}

/// Whether a part is left out.
pub(crate) fn is_left_out(alloc: Global, body: Body<'_>, part: Part) -> Result<bool, AllocError>
    ensures { IfOk result (λ is. is ≡ is_left_out body.entry (part_of body.entry.document.now part)) }
{
    if !body.is_open {
        return Ok(false);
    }
    Ok(
        is_unknown(alloc, body.document, part)?
            || writes_foreign(alloc, body.document, body.names, part)?,
    )
}
