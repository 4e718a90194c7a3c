//! Where the program of a project is.

use crate::fault::PlcFault;
use crate::xml::{child, is_named, is_word, name_of, parts_in};
use std::alloc::Global;
use xml_document::Document;
use xml_parts::{Part, attribute};

/// The place inside the `pous` of a project.
fn pous_of(document: &Document) -> Option<usize> {
    let project = child(document, 0, b"project")?;
    let types = child(document, project, b"types")?;
    child(document, types, b"pous")
}

/// Whether an element is a `pou` of which an attribute has a value.
fn is_pou(document: &Document, part: Part, name: &[u8], value: &[u8]) -> bool {
    match attribute(document, part.inside, name) {
        Some(found) => is_named(document, part, b"pou") && is_word(found, value),
        None => false,
    }
}

/// The place inside the only `pou` of which an attribute has a value.
fn only_pou(
    document: &Document,
    pous: &[Part],
    name: &[u8],
    value: &[u8],
) -> Result<usize, PlcFault> {
    let mut found: Option<usize> = None;
    for part in pous {
        if is_pou(document, *part, name, value) {
            if found.is_some() {
                return Err(PlcFault::SeveralPrograms);
            }
            found = Some(part.inside);
        }
    }
    match found {
        Some(place) => Ok(place),
        None => Err(PlcFault::NoProgram),
    }
}

/// The place inside the program with a name, or inside the only one.
pub(crate) fn pou_of(
    alloc: Global,
    document: &Document,
    name: Option<&[u8]>,
) -> Result<usize, PlcFault> {
    let Some(place) = pous_of(document) else {
        return Err(PlcFault::NoProject);
    };
    let pous = parts_in(alloc, document, place)?;
    match name {
        Some(name) => only_pou(document, &pous, b"name", name),
        None => only_pou(document, &pous, b"pouType", b"program"),
    }
}

/// The place inside the only `body` of a program.
fn only_body(document: &Document, parts: &[Part]) -> Result<usize, PlcFault> {
    let mut found: Option<usize> = None;
    for part in parts {
        if is_named(document, *part, b"body") {
            if found.is_some() {
                return Err(PlcFault::OtherLanguage);
            }
            found = Some(part.inside);
        }
    }
    match found {
        Some(place) => Ok(place),
        None => Err(PlcFault::OtherLanguage),
    }
}

/// The place inside the `LD` of a body. Beside it nothing stands that says what the program does.
fn only_ladder(document: &Document, parts: &[Part]) -> Result<usize, PlcFault> {
    let mut found: Option<usize> = None;
    for part in parts {
        let name = name_of(document, *part);
        if is_word(name, b"LD") && found.is_none() {
            found = Some(part.inside);
        } else if !is_word(name, b"addData") && !is_word(name, b"documentation") {
            return Err(PlcFault::OtherLanguage);
        }
    }
    match found {
        Some(place) => Ok(place),
        None => Err(PlcFault::OtherLanguage),
    }
}

/// The place inside the body of a program.
fn body_of(alloc: Global, document: &Document, pou: usize) -> Result<usize, PlcFault> {
    let parts = parts_in(alloc, document, pou)?;
    only_body(document, &parts)
}

/// The place inside the `LD` of a program.
pub(crate) fn ladder_of(alloc: Global, document: &Document, pou: usize) -> Result<usize, PlcFault> {
    let body = body_of(alloc, document, pou)?;
    let parts = parts_in(alloc, document, body)?;
    only_ladder(document, &parts)
}
