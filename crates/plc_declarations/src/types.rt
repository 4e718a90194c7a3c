//! The types of variables.

ghost use Rattle.std.specs.Prelude.{◌≡◌, ◌↔◌, IfOk, IsTrue, option_map};
ghost use Rattle.st_program.specs.declared.symbols.Sort.TheVariants.{Bool};
ghost use Rattle.xml_parts.specs.Parts.{items_from, part_of};
ghost use Rattle.plc_declarations.specs.Declarations.{IsBool, IsDerived, IsOther, IsType};
ghost use Rattle.plc_declarations.specs.Types.{is_known_type, is_standard, trigger_sort, trigger_word};
ghost use Rattle.plc_declarations.specs.Words.{type_in};

use diagram_declarations::{BlockKind, same_letters};
use st_program::{Sort, StVariable};
use std::alloc::{AllocError, Global};
use xml_document::Document;
use xml_parts::{Part, attribute, bytes_at, first_in, parts};

/// What the type of a variable is.
#[derive(Clone, Copy)]
pub(crate) enum VariableType<'a> {
    Bool,
    /// A function block of this name.
    Derived(&'a [u8]),
    Other,
}

/// The element that is the type of a variable.
fn type_in(alloc: Global, document: &Document, place: usize) -> Result<Option<Part>, AllocError>
    ensures { IfOk result (λ found. option_map (part_of document.now) found ≡ type_in (items_from document.now place)) }
{
    let Some(inside) = first_in(alloc, document, place, b"type")? else {
        return Ok(None);
    };
    let parts = parts(alloc, document, inside)?;
    Ok(parts.first().copied())
}

/// Whether an element has a name.
fn is_named(document: &Document, part: Part, name: &[u8]) -> bool
    ensures { IsTrue result ↔ ((part_of document.now part).0 ≡ name.now) }
{
    bytes_at(&document.bytes, part.name) == name
}

/// Whether a name is that of a standard function block.
fn is_standard(name: &[u8]) -> bool
    ensures { result ≡ is_standard name.now }
{
    BlockKind::ALL
        .iter()
        .any(|kind| same_letters(name, kind.traits().word))
}

/// Whether a name is that of a function block that a program can have.
pub fn is_known_type(name: &[u8]) -> bool
    ensures { result ≡ is_known_type name.now }
{
    same_letters(name, b"R_TRIG") || same_letters(name, b"F_TRIG") || is_standard(name)
}

/// The type of a trigger for falling edges, or for rising ones.
pub fn trigger_word(falling: bool) -> &'static [u8]
    ensures { result.now ≡ trigger_word falling }
{
    if falling { b"F_TRIG" } else { b"R_TRIG" }
}

/// Whether a variable is a BOOL.
pub fn is_bool(x: StVariable) -> bool
    ensures { IsTrue result → x.sort ≡ Bool }
{
    matches!(x.sort, Sort::Bool)
}

/// Whether a variable is the output of a trigger for falling edges, or for rising ones.
pub fn is_trigger_sort(x: StVariable, falling: bool) -> bool
    ensures { IsTrue result → x.sort ≡ trigger_sort falling }
{
    matches!(
        (x.sort, falling),
        (Sort::Rising, false) | (Sort::Falling, true)
    )
}

/// The type of a variable.
pub(crate) fn type_of<'a>(
    alloc: Global,
    document: &'a Document,
    place: usize,
) -> Result<VariableType<'a>, AllocError>
    ensures { IfOk result (λ found. IsType (items_from document.now place) found) }
{
    let Some(part) = type_in(alloc, document, place)? else {
        return Ok(VariableType::Other);
    };
    if is_named(document, part, b"BOOL") {
        return Ok(VariableType::Bool);
    }
    if !is_named(document, part, b"derived") {
        return Ok(VariableType::Other);
    }
    match attribute(document, part.inside, b"name") {
        Some(name) if is_known_type(name) => Ok(VariableType::Derived(name)),
        _ => Ok(VariableType::Other),
    }
}
