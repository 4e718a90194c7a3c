//! Elements that stand directly in another.

ghost use Rattle.std.specs.Prelude.{◌≡◌, ◌++◌, ℕ, List, IfOk, map, option_map};
ghost use Rattle.std.specs.Map.{lookup};
ghost use Rattle.std.specs.Str.{bytes_eq};
ghost use Rattle.xml_document.specs.Items.{Item, items_of, item_of};
ghost use Rattle.xml_parts.specs.Parts.{all_in, items_from, part_in, part_of, parts_in, with_name};

use crate::spans::bytes_at;
use std::alloc::{AllocError, Global};
use xml_document::{Document, Event, Span};

/// An element.
#[derive(Clone, Copy)]
pub struct Part {
    pub name: Span,
    /// The place of the event behind that of its name.
    pub inside: usize,
}

/// The elements directly in the one behind whose name a place is, in their order.
///
/// # Errors
///
/// Memory runs out.
#[tactic(auto, using(crate::proofs::Places::at_place))]
pub fn parts(alloc: Global, document: &Document, place: usize) -> Result<Vec<Part>, AllocError>
    ensures { IfOk result (λ parts. map (part_of document.now) parts.items ≡ parts_in (items_from document.now place)) }
{
    let mut parts: Vec<Part> = Vec::new(alloc);
    let mut depth: usize = 0;
    for next in place..document.events.len() {
        match document.events[next] {
            Event::Open { name } => {
                let inside = next + 1;
                if depth == 0 {
                    parts.push(Part { name, inside })?;
                }
                depth += 1;
            }
            Event::Close if depth == 0 => return Ok(parts),
            Event::Close => depth -= 1,
            Event::Attribute { .. } | Event::Characters { .. } => {}
        }
    }
    Ok(parts)
}

/// The place behind the name of the first of some elements that has a name.
pub fn place_of(document: &Document, parts: &[Part], name: &[u8]) -> Option<usize>
    ensures { option_map (items_from document.now) result ≡ lookup (bytes_eq name.now) (map (part_of document.now) parts.now) }
{
    match parts {
        [] => None,
        [first, rest @ ..] => {
            if name == bytes_at(&document.bytes, first.name) {
                Some(first.inside)
            } else {
                place_of(document, rest, name)
            }
        }
    }
}

/// The place behind the name of the first element with a name directly in the one behind whose name a place is.
///
/// # Errors
///
/// Memory runs out.
pub fn first_in(
    alloc: Global,
    document: &Document,
    place: usize,
    name: &[u8],
) -> Result<Option<usize>, AllocError>
    ensures { IfOk result (λ found. option_map (items_from document.now) found ≡ part_in name.now (items_from document.now place)) }
{
    let parts = parts(alloc, document, place)?;
    Ok(place_of(document, &parts, name))
}

/// Adds the places behind the names of those elements that have a name.
fn add_named(
    document: &Document,
    parts: &[Part],
    name: &[u8],
    places: &mut Vec<usize>,
) -> Result<(), AllocError>
    ensures { IfOk result (λ _. map (items_from document.now) places.new.items
        ≡ map (items_from document.now) places.old.items ++ with_name name.now (map (part_of document.now) parts.now)) }
{
    for part in parts {
        if name == bytes_at(&document.bytes, part.name) {
            places.push(part.inside)?;
        }
    }
    Ok(())
}

/// The places behind the names of all elements with a name directly in the one behind whose name a place is, in their order.
///
/// # Errors
///
/// Memory runs out.
pub fn all_in(
    alloc: Global,
    document: &Document,
    place: usize,
    name: &[u8],
) -> Result<Vec<usize>, AllocError>
    ensures { IfOk result (λ places. map (items_from document.now) places.items ≡ all_in name.now (items_from document.now place)) }
{
    let parts = parts(alloc, document, place)?;
    let mut places: Vec<usize> = Vec::new(alloc);
    add_named(document, &parts, name, &mut places)?;
    Ok(places)
}
