//! The program of a project.

ghost use Rattle.std.specs.Prelude.{◌≡◌, ◌++◌, ◌∷◌, [], IfOk, IfSome, List, Some, codes, map, option_map};
ghost use Rattle.xml_document.specs.Items.{Item, items_of};
ghost use Rattle.xml_parts.specs.Parts.{all_in, items_from, part_in};
ghost use Rattle.plc_units.specs.Projects.{IsUnit, named_so, pous_in, project_in, says, that_say};

use std::alloc::{AllocError, Global};
use xml_document::{Document, Event};
use xml_parts::{all_in, attribute, bytes_at, first_in};

/// A program of a project.
#[derive(Clone, Copy, PartialEq, Eq)]
pub struct Unit {
    /// The place inside its interface, where it has one.
    pub interface: Option<usize>,
    /// The place inside its `LD`.
    pub body: usize,
}

/// The place inside the root element of a document, if it is a project.
fn project_in(document: &Document) -> Option<usize>
    ensures { option_map (items_from document.now) result ≡ project_in (items_of document.now) }
{
    match document.events.as_slice() {
        [Event::Open { name }, ..] if bytes_at(&document.bytes, *name) == b"project".as_slice() => {
            Some(1)
        }
        _ => None,
    }
}

/// The units of a project.
fn pous_in(alloc: Global, document: &Document, project: usize) -> Result<Vec<usize>, AllocError>
    ensures { IfOk result (λ places. map (items_from document.now) places.items ≡ pous_in (items_from document.now project)) }
{
    let Some(types) = first_in(alloc, document, project, b"types")? else {
        return Ok(Vec::new(alloc));
    };
    match first_in(alloc, document, types, b"pous")? {
        Some(pous) => all_in(alloc, document, pous, b"pou"),
        None => Ok(Vec::new(alloc)),
    }
}

/// Whether an attribute has this value.
fn says(document: &Document, place: usize, name: &[u8], value: &[u8]) -> bool
    ensures { result ≡ says name.now value.now (items_from document.now place) }
{
    match attribute(document, place, name) {
        Some(found) => value == found,
        None => false,
    }
}

/// Adds those of some units of which an attribute has this value.
fn add_that_say(
    document: &Document,
    pous: &[usize],
    name: &[u8],
    value: &[u8],
    found: &mut Vec<usize>,
) -> Result<(), AllocError>
    ensures { IfOk result (λ _. map (items_from document.now) found.new.items
        ≡ map (items_from document.now) found.old.items ++ that_say name.now value.now (map (items_from document.now) pous.now)) }
{
    for pou in pous {
        if says(document, *pou, name, value) {
            found.push(*pou)?;
        }
    }
    Ok(())
}

/// The units with a name, where one is asked for, or else those that are programs.
fn named_so(
    alloc: Global,
    document: &Document,
    pous: &[usize],
    name: Option<&[u8]>,
) -> Result<Vec<usize>, AllocError>
    ensures { IfOk result (λ found. map (items_from document.now) found.items
        ≡ named_so (option_map (λ word. word.now) name.entry) (map (items_from document.now) pous.now)) }
{
    let mut found: Vec<usize> = Vec::new(alloc);
    match name {
        Some(name) => add_that_say(document, pous, b"name", name, &mut found)?,
        None => add_that_say(document, pous, b"pouType", b"program", &mut found)?,
    }
    Ok(found)
}

/// The place of the only unit that is asked for.
fn only_unit(
    alloc: Global,
    document: &Document,
    name: Option<&[u8]>,
) -> Result<Option<usize>, AllocError>
    ensures { IfOk result (λ found. IfSome found (λ place. (project : List Item)
        × (project_in (items_of document.now) ≡ Some project)
        × (named_so (option_map (λ word. word.now) name.entry) (pous_in project) ≡ (items_from document.now place) ∷ []))) }
{
    let Some(project) = project_in(document) else {
        return Ok(None);
    };
    let pous = pous_in(alloc, document, project)?;
    let found = named_so(alloc, document, &pous, name)?;
    match found.as_slice() {
        [unit] => Ok(Some(*unit)),
        _ => Ok(None),
    }
}

/// The place inside the only body of a unit, if it is one of ladder diagram.
fn body_in(alloc: Global, document: &Document, unit: usize) -> Result<Option<usize>, AllocError>
    ensures { IfOk result (λ found. IfSome found (λ place. (whole : List Item)
        × (all_in (codes "body") (items_from document.now unit) ≡ whole ∷ [])
        × (part_in (codes "LD") whole ≡ Some (items_from document.now place)))) }
{
    let bodies = all_in(alloc, document, unit, b"body")?;
    match bodies.as_slice() {
        [body] => first_in(alloc, document, *body, b"LD"),
        _ => Ok(None),
    }
}

/// The unit of a document that is asked for: the one with a name, or the one that is a program. None where there isn't one, or where its body is in
/// another language.
///
/// # Errors
///
/// Memory runs out.
pub fn unit_in(
    alloc: Global,
    document: &Document,
    name: Option<&[u8]>,
) -> Result<Option<Unit>, AllocError>
    ensures { IfOk result (λ found. IfSome found (λ unit. IsUnit (option_map (λ word. word.now) name.entry) (items_of document.now)
        (option_map (items_from document.now) unit.interface) (items_from document.now unit.body))) }
{
    let Some(unit) = only_unit(alloc, document, name)? else {
        return Ok(None);
    };
    let interface = first_in(alloc, document, unit, b"interface")?;
    match body_in(alloc, document, unit)? {
        Some(body) => Ok(Some(Unit { interface, body })),
        None => Ok(None),
    }
}
