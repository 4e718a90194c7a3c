//! What an element of a document says.

use crate::fault::{PlcFault, PlcReason};
use std::alloc::Global;
use xml_document::{Document, Event, Span};
use xml_parts::{Part, attribute, bytes_at, parts};

/// No bytes.
pub(crate) const NOTHING: Span = Span { start: 0, end: 0 };

/// A number of a document has no more digits than this.
const MOST_DIGITS: usize = 9;

/// The elements directly in the one behind whose name a place is.
pub(crate) fn parts_in(
    alloc: Global,
    document: &Document,
    place: usize,
) -> Result<Vec<Part>, PlcFault> {
    match parts(alloc, document, place) {
        Ok(found) => Ok(found),
        Err(_) => Err(PlcFault::Memory),
    }
}

/// The name of an element.
pub(crate) fn name_of(document: &Document, part: Part) -> &[u8] {
    bytes_at(&document.bytes, part.name)
}

/// Whether both are the same bytes.
pub(crate) fn is_word(word: &[u8], other: &[u8]) -> bool {
    word == other
}

/// Whether an element has a name.
pub(crate) fn is_named(document: &Document, part: Part, name: &[u8]) -> bool {
    is_word(name_of(document, part), name)
}

/// The place behind the name of the first element with a name that is directly in another one.
pub(crate) fn child(document: &Document, place: usize, name: &[u8]) -> Option<usize> {
    let mut depth: usize = 0;
    for next in place..document.events.len() {
        match document.events[next] {
            Event::Open { name: found } => {
                if depth == 0 && bytes_at(&document.bytes, found) == name {
                    return Some(next.saturating_add(1));
                }
                depth = depth.saturating_add(1);
            }
            Event::Close if depth == 0 => return None,
            Event::Close => depth = depth.saturating_sub(1),
            Event::Attribute { .. } | Event::Characters { .. } => {}
        }
    }
    None
}

/// The first element directly in another one.
pub(crate) fn first_in(document: &Document, place: usize) -> Option<Part> {
    for next in place..document.events.len() {
        match document.events[next] {
            Event::Open { name } => {
                return Some(Part {
                    name,
                    inside: next.saturating_add(1),
                });
            }
            Event::Close => return None,
            Event::Attribute { .. } | Event::Characters { .. } => {}
        }
    }
    None
}

/// Where the value of an attribute is; no bytes where there is none.
pub(crate) fn value_of(document: &Document, place: usize, name: &[u8]) -> Span {
    for next in place..document.events.len() {
        let Event::Attribute { name: found, value } = document.events[next] else {
            return NOTHING;
        };
        if bytes_at(&document.bytes, found) == name {
            return value;
        }
    }
    NOTHING
}

/// Where the characters are that an element begins with; no bytes where there are none.
pub(crate) fn characters_in(document: &Document, place: usize) -> Span {
    for next in place..document.events.len() {
        match document.events[next] {
            Event::Characters { text } => return text,
            Event::Attribute { .. } => {}
            Event::Open { .. } | Event::Close => return NOTHING,
        }
    }
    NOTHING
}

/// Whether an attribute is `true`; it is off where there is none.
pub(crate) fn is_on(document: &Document, place: usize, name: &[u8]) -> Result<bool, PlcReason> {
    let Some(value) = attribute(document, place, name) else {
        return Ok(false);
    };
    if is_word(value, b"true") {
        return Ok(true);
    }
    if is_word(value, b"false") {
        Ok(false)
    } else {
        Err(PlcReason::Value)
    }
}

/// Whether an attribute is `none`, or isn't there.
pub(crate) fn is_none(document: &Document, place: usize, name: &[u8]) -> bool {
    match attribute(document, place, name) {
        Some(value) => is_word(value, b"none"),
        None => true,
    }
}

/// The number that digits spell. Other bytes and long numbers have none.
fn number_in(digits: &[u8]) -> Option<u32> {
    if digits.is_empty() || digits.len() > MOST_DIGITS {
        return None;
    }
    let mut number: u32 = 0;
    for digit in digits {
        if !digit.is_ascii_digit() {
            return None;
        }
        number = number
            .saturating_mul(10)
            .saturating_add(u32::from(digit.saturating_sub(b'0')));
    }
    Some(number)
}

/// The number that an attribute has; 0 where there is none.
pub(crate) fn number_of(document: &Document, place: usize, name: &[u8]) -> Result<u32, PlcReason> {
    match attribute(document, place, name) {
        None => Ok(0),
        Some(value) => match number_in(value) {
            Some(number) => Ok(number),
            None => Err(PlcReason::Value),
        },
    }
}
