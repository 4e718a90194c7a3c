//! An interface, compared with what a program declares.

ghost use Rattle.std.specs.Prelude.{◌≡◌, ◌∷◌, ◌<◌, [], IfNone, IfOk, IfSome, IsTrue, length, map, option_map};
ghost use Rattle.xml_parts.specs.Parts.{items_from, part_of};
ghost use Rattle.plc_declarations.specs.Declarations.{DeclareAll, DeclarePart, IsInterface};

use crate::declared::{Names, Texts, behind_all};
use crate::words::{is_plain, section_of};
use st_program::{StInstance, StVariable};
use std::alloc::{AllocError, Global};
use xml_document::Document;
use xml_parts::{Part, all_in, bytes_at, parts};

/// Those behind what a part of an interface declares.
#[tactic(auto, using(crate::specs::Declarations::listed, crate::specs::Declarations::passed))]
fn behind_part<'a>(
    alloc: Global,
    texts: Texts<'_>,
    part: Part,
    names: Names<'a>,
) -> Result<Option<Names<'a>>, AllocError>
    ensures { IfOk result (λ found. IfSome found (λ rest. DeclarePart texts.entry.text.now (part_of texts.entry.document.now part)
        names.entry.variables.now rest.variables.now names.entry.instances.now rest.instances.now)) }
{
    let Some(section) = section_of(bytes_at(&texts.document.bytes, part.name)) else {
        return Ok(Some(names));
    };
    if !is_plain(texts.document, part.inside) {
        return Ok(None);
    }
    let places = all_in(alloc, texts.document, part.inside, b"variable")?;
    let Some(rest) = behind_all(alloc, texts, section, &places, names)? else {
        return Ok(None);
    };
    Ok(Some(rest))
}

/// The first part, and those behind it.
fn first_part(parts: &[Part]) -> Option<(Part, &[Part])>
    ensures whole { IfSome result (λ found. parts.now ≡ found.0 ∷ found.1.now) }
    ensures shorter { IfSome result (λ found. length found.1.now < length parts.now) }
    ensures none { IfNone result (parts.now ≡ []) }
{
    match parts {
        [part, rest @ ..] => Some((*part, rest)),
        [] => None,
    }
}

/// Those behind what the parts of an interface declare.
#[tactic(auto, using(crate::proofs::More::all_more))]
fn behind_parts<'a>(
    alloc: Global,
    texts: Texts<'_>,
    parts: &[Part],
    names: Names<'a>,
) -> Result<Option<Names<'a>>, AllocError>
    ensures { IfOk result (λ found. IfSome found (λ rest. DeclareAll texts.entry.text.now (map (part_of texts.entry.document.now) parts.now)
        names.entry.variables.now rest.variables.now names.entry.instances.now rest.instances.now)) }
{
    let Some((part, others)) = first_part(parts) else {
        return Ok(Some(names));
    };
    let Some(rest) = behind_part(alloc, texts, part, names)? else {
        return Ok(None);
    };
    let Some(last) = behind_parts(alloc, texts, others, rest)? else {
        return Ok(None);
    };
    Ok(Some(last))
}

/// Whether an interface, where a program has one, declares these variables and instances and no others: BOOL variables, triggers and standard function
/// blocks, each list in the section that it is. Variables of other types are left out. The place is the one behind the name of the interface.
///
/// # Errors
///
/// Memory runs out.
pub fn is_interface(
    alloc: Global,
    document: &Document,
    interface: Option<usize>,
    text: &[u8],
    variables: &[StVariable],
    instances: &[StInstance],
) -> Result<bool, AllocError>
    ensures { IfOk result (λ is. IsTrue is → IsInterface text.now (option_map (items_from document.now) interface) variables.now instances.now) }
{
    let Some(place) = interface else {
        return Ok(variables.is_empty() && instances.is_empty());
    };
    let parts = parts(alloc, document, place)?;
    let texts = Texts { document, text };
    let names = Names {
        variables,
        instances,
    };
    match behind_parts(alloc, texts, &parts, names)? {
        Some(rest) => Ok(rest.variables.is_empty() && rest.instances.is_empty()),
        None => Ok(false),
    }
}
