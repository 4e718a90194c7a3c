//! The order in which the parts of a body act.

ghost use Rattle.std.specs.Prelude.{◌≡◌, ◌&&◌, IfOk, IfSome, IsTrue, map, not, true};
ghost use Rattle.std.specs.List.{list_any};
ghost use Rattle.std.specs.Str.{bytes_eq};
ghost use Rattle.xml_parts.specs.Parts.{items_from, part_of};
ghost use Rattle.plc_elements.specs.Body.{are_in};
ghost use Rattle.plc_elements.specs.Unknown.{is_left_out};
ghost use Rattle.plc_elements.specs.Order.{IsKey, acting, acting_from, acts, are_numbered, comes_before, is_numeral, is_ordered, number_word, place_word};

use crate::names::Body;
use crate::unknown::is_left_out;
use crate::words::attribute_or;
use diagram_declarations::{digits_len, number};
use std::alloc::{AllocError, Global};
use xml_document::Document;
use xml_parts::{Part, bytes_at, first_in};

/// Execution numbers and places are below this.
const CAP: u64 = 1 << 32;

/// What the order of a part goes by.
#[derive(Clone, Copy)]
pub struct Key {
    /// Its execution number, or 0 where not all have one.
    pub number: u64,
    pub y: u64,
    pub x: u64,
    /// Its place among the parts.
    pub place: usize,
}

/// Whether a part with this name acts.
fn acts(name: &[u8]) -> bool
    ensures { result ≡ list_any (bytes_eq name.now) acting }
{
    name == b"coil".as_slice()
        || name == b"outVariable".as_slice()
        || name == b"block".as_slice()
        || name == b"jump".as_slice()
        || name == b"return".as_slice()
}

/// Whether a part acts.
fn is_acting(document: &Document, part: Part) -> bool
    ensures { result ≡ acts (part_of document.now part) }
{
    acts(bytes_at(&document.bytes, part.name))
}

/// Whether a part is in the order of those that act: it acts, or is a label.
fn is_ordered(document: &Document, part: Part) -> bool
    ensures { result ≡ is_ordered (part_of document.now part) }
{
    bytes_at(&document.bytes, part.name) == b"label".as_slice() || is_acting(document, part)
}

/// Whether a part is in the order of those that act, and isn't left out.
fn is_due(alloc: Global, body: Body<'_>, part: Part) -> Result<bool, AllocError>
    ensures { IfOk result (λ is. is ≡ (is_ordered (part_of body.entry.document.now part) && not (is_left_out body.entry (part_of body.entry.document.now part)))) }
{
    if !is_ordered(body.document, part) {
        return Ok(false);
    }
    let is_out = is_left_out(alloc, body, part)?;
    Ok(!is_out)
}

/// Whether all parts in the order of those that act, counted from a number on, are in a list, but for those that are left out.
pub(crate) fn are_listed(
    alloc: Global,
    body: Body<'_>,
    parts: &[Part],
    from: usize,
    order: &[usize],
) -> Result<bool, AllocError>
    ensures { IfOk result (λ are. IsTrue are → are_in order.now (acting_from body.entry from (map (part_of body.entry.document.now) parts.now)) ≡ true) }
{
    let [part, rest @ ..] = parts else {
        return Ok(true);
    };
    if is_due(alloc, body, *part)? && !order.contains(&from) {
        return Ok(false);
    }
    match from.checked_add(1) {
        Some(next) => are_listed(alloc, body, rest, next, order),
        None => Ok(false),
    }
}

/// Whether all of some numbers are in a list.
pub(crate) fn are_in(order: &[usize], numbers: &[usize]) -> bool
    ensures { IsTrue result → are_in order.now numbers.now ≡ true }
{
    match numbers {
        [] => true,
        [number, rest @ ..] => order.contains(number) && are_in(order, rest),
    }
}

/// The execution number of an element as it is spelled.
fn number_word(document: &Document, place: usize) -> &[u8]
    ensures { result.now ≡ number_word (items_from document.now place) }
{
    attribute_or(document, place, b"executionOrderId", b"0")
}

/// Whether each part that acts has an execution number that isn't 0.
pub(crate) fn are_numbered(document: &Document, parts: &[Part]) -> bool
    ensures { result ≡ are_numbered (map (part_of document.now) parts.now) }
{
    match parts {
        [] => true,
        [part, rest @ ..] => {
            (!is_acting(document, *part) || number(number_word(document, part.inside)) != 0)
                && are_numbered(document, rest)
        }
    }
}

/// Whether a word is digits, of a number that isn't too large.
#[tactic(auto, using(crate::proofs::Digits::all_digits))]
fn is_numeral(word: &[u8]) -> bool
    ensures { IsTrue result → is_numeral word.now ≡ true }
{
    !word.is_empty() && digits_len(word) >= word.len() && number(word) < CAP
}

/// The place of an element along an axis as it is spelled.
fn place_word<'a>(
    alloc: Global,
    document: &'a Document,
    place: usize,
    axis: &[u8],
) -> Result<&'a [u8], AllocError>
    ensures { IfOk result (λ word. word.now ≡ place_word axis.now (items_from document.now place)) }
{
    match first_in(alloc, document, place, b"position")? {
        Some(inside) => Ok(attribute_or(document, inside, axis, b"0")),
        None => Ok(b"0"),
    }
}

/// The key of the element at a place among the parts; None where a number of it can't be read.
pub(crate) fn key_of(
    alloc: Global,
    document: &Document,
    numbered: bool,
    part: Part,
    place: usize,
) -> Result<Option<Key>, AllocError>
    ensures { IfOk result (λ key. IfSome key (IsKey numbered (items_from document.now part.inside) place)) }
{
    let word = number_word(document, part.inside);
    let y = place_word(alloc, document, part.inside, b"y")?;
    let x = place_word(alloc, document, part.inside, b"x")?;
    if !(is_numeral(word) && is_numeral(y) && is_numeral(x)) {
        return Ok(None);
    }
    Ok(Some(Key {
        number: if numbered { number(word) } else { 0 },
        y: number(y),
        x: number(x),
        place,
    }))
}

/// Whether a part with one key acts before one with another key.
pub(crate) fn comes_before(first: Key, second: Key) -> bool
    ensures { result ≡ comes_before first second }
{
    if first.number != second.number {
        first.number < second.number
    } else if first.y != second.y {
        first.y < second.y
    } else if first.x != second.x {
        first.x < second.x
    } else {
        first.place < second.place
    }
}
