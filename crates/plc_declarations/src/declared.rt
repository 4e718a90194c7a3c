//! Variables of PLCopen XML and those of a program in Structured Text, one by one.

ghost use Rattle.std.specs.Prelude.{◌≡◌, ◌∷◌, IfOk, IfSome, IsTrue, Some, codes, map, option_map};
ghost use Rattle.st_words.specs.Places.{spelled};
ghost use Rattle.xml_parts.specs.Parts.{attribute_in, items_from};
ghost use Rattle.plc_declarations.specs.Declarations.{Declare, DeclareOne, IsBool, IsDerived, IsInstance, IsTrigger, IsVariable};
ghost use Rattle.plc_declarations.specs.Words.{address_in};

use crate::types::{VariableType, is_bool, is_trigger_sort, trigger_word, type_of};
use crate::words::{address_in, initial_in};
use diagram_declarations::same_letters;
use st_program::{Section, StInstance, StVariable, bytes_of};
use st_words::Word;
use std::alloc::{AllocError, Global};
use xml_document::Document;
use xml_parts::attribute;

/// The variables and instances of a program, or those of them that come last.
#[derive(Clone, Copy)]
pub(crate) struct Names<'a> {
    pub variables: &'a [StVariable],
    pub instances: &'a [StInstance],
}

/// A document with the text of a program.
#[derive(Clone, Copy)]
pub(crate) struct Texts<'a> {
    pub document: &'a Document,
    pub text: &'a [u8],
}

/// Whether two sections are one.
fn is_same_section(first: Section, second: Section) -> bool
    ensures { IsTrue result → first ≡ second }
{
    match (first, second) {
        (Section::Local, Section::Local)
        | (Section::Input, Section::Input)
        | (Section::Output, Section::Output) => true,
        _ => false,
    }
}

/// Whether a variable has the name of a word.
fn is_named(texts: Texts<'_>, place: usize, name: Word) -> bool
    ensures { IsTrue result → attribute_in (codes "name") (items_from texts.entry.document.now place) ≡ Some (spelled texts.entry.text.now name) }
{
    match attribute(texts.document, place, b"name") {
        Some(found) => found == bytes_of(texts.text, name),
        None => false,
    }
}

/// Whether a variable is at the address that a word spells, or nowhere where there is no word.
fn is_placed(texts: Texts<'_>, place: usize, address: Option<Word>) -> bool
    ensures { IsTrue result → option_map (spelled texts.entry.text.now) address ≡ address_in (items_from texts.entry.document.now place) }
{
    match (address, address_in(texts.document, place)) {
        (Some(word), Some(found)) => bytes_of(texts.text, word) == found,
        (None, None) => true,
        _ => false,
    }
}

/// Whether a BOOL is a variable of the program.
fn is_variable(
    alloc: Global,
    texts: Texts<'_>,
    section: Section,
    place: usize,
    x: StVariable,
) -> Result<bool, AllocError>
    ensures { IfOk result (λ is. IsTrue is → IsBool (items_from texts.entry.document.now place)
        → IsVariable texts.entry.text.now section (items_from texts.entry.document.now place) x) }
{
    let initial = initial_in(alloc, texts.document, place)?;
    Ok(
        is_bool(x)
            && initial == Some(x.initial)
            && is_same_section(x.section, section)
            && is_named(texts, place, x.name)
            && is_placed(texts, place, x.address),
    )
}

/// Whether a block of a type is an instance of the program.
fn is_instance(texts: Texts<'_>, type_name: &[u8], place: usize, x: StInstance) -> bool
    ensures { IsTrue result → IsDerived (items_from texts.entry.document.now place) type_name.now
        → IsInstance texts.entry.text.now (items_from texts.entry.document.now place) x }
{
    same_letters(type_name, x.kind.traits().word) && is_named(texts, place, x.name)
}

/// Whether a trigger of a type is a variable of the program, for falling edges or for rising ones.
fn is_trigger_for(
    texts: Texts<'_>,
    section: Section,
    type_name: &[u8],
    place: usize,
    falling: bool,
    x: StVariable,
) -> bool
    ensures { IsTrue result → IsDerived (items_from texts.entry.document.now place) type_name.now
        → IsTrigger texts.entry.text.now section (items_from texts.entry.document.now place) x }
{
    same_letters(type_name, trigger_word(falling))
        && is_trigger_sort(x, falling)
        && !x.initial
        && is_same_section(x.section, section)
        && is_named(texts, place, x.name)
        && is_placed(texts, place, x.address)
}

/// Whether a trigger of a type is a variable of the program.
fn is_trigger(
    texts: Texts<'_>,
    section: Section,
    type_name: &[u8],
    place: usize,
    x: StVariable,
) -> bool
    ensures { IsTrue result → IsDerived (items_from texts.entry.document.now place) type_name.now
        → IsTrigger texts.entry.text.now section (items_from texts.entry.document.now place) x }
{
    is_trigger_for(texts, section, type_name, place, false, x)
        || is_trigger_for(texts, section, type_name, place, true, x)
}

/// The first variable, and those behind it.
fn first_variable<'a>(names: Names<'a>) -> Option<(StVariable, Names<'a>)>
    ensures variables { IfSome result (λ found. names.entry.variables.now ≡ found.0 ∷ found.1.variables.now) }
    ensures instances { IfSome result (λ found. names.entry.instances.now ≡ found.1.instances.now) }
{
    match names.variables {
        [x, variables @ ..] => {
            let rest = Names {
                variables,
                instances: names.instances,
            };
            Some((*x, rest))
        }
        [] => None,
    }
}

/// The first instance, and those behind it.
fn first_instance<'a>(names: Names<'a>) -> Option<(StInstance, Names<'a>)>
    ensures variables { IfSome result (λ found. names.entry.variables.now ≡ found.1.variables.now) }
    ensures instances { IfSome result (λ found. names.entry.instances.now ≡ found.0 ∷ found.1.instances.now) }
{
    match names.instances {
        [x, instances @ ..] => {
            let rest = Names {
                variables: names.variables,
                instances,
            };
            Some((*x, rest))
        }
        [] => None,
    }
}

/// Those behind a trigger of a type, if it is the first variable.
#[tactic(auto, using(crate::specs::Declarations::trigger))]
fn behind_trigger<'a>(
    texts: Texts<'_>,
    section: Section,
    type_name: &[u8],
    place: usize,
    names: Names<'a>,
) -> Option<Names<'a>>
    ensures { IfSome result (λ rest. IsDerived (items_from texts.entry.document.now place) type_name.now
        → DeclareOne texts.entry.text.now section (items_from texts.entry.document.now place)
        names.entry.variables.now rest.variables.now names.entry.instances.now rest.instances.now) }
{
    let (x, rest) = first_variable(names)?;
    if is_trigger(texts, section, type_name, place, x) {
        Some(rest)
    } else {
        None
    }
}

/// Those behind a block of a type, if it is the first instance or the first variable.
#[tactic(auto, using(crate::specs::Declarations::block))]
fn behind_block<'a>(
    texts: Texts<'_>,
    section: Section,
    type_name: &[u8],
    place: usize,
    names: Names<'a>,
) -> Option<Names<'a>>
    ensures { IfSome result (λ rest. IsDerived (items_from texts.entry.document.now place) type_name.now
        → DeclareOne texts.entry.text.now section (items_from texts.entry.document.now place)
        names.entry.variables.now rest.variables.now names.entry.instances.now rest.instances.now) }
{
    if let Some(rest) = behind_trigger(texts, section, type_name, place, names) {
        return Some(rest);
    }
    let (x, rest) = first_instance(names)?;
    if is_instance(texts, type_name, place, x) {
        Some(rest)
    } else {
        None
    }
}

/// Those behind what a variable of a list declares.
#[tactic(auto, using(crate::specs::Declarations::variable, crate::specs::Declarations::left_out))]
fn behind<'a>(
    alloc: Global,
    texts: Texts<'_>,
    section: Section,
    place: usize,
    names: Names<'a>,
) -> Result<Option<Names<'a>>, AllocError>
    ensures { IfOk result (λ found. IfSome found (λ rest. DeclareOne texts.entry.text.now section (items_from texts.entry.document.now place)
        names.entry.variables.now rest.variables.now names.entry.instances.now rest.instances.now)) }
{
    match type_of(alloc, texts.document, place)? {
        VariableType::Bool => {
            let Some((x, rest)) = first_variable(names) else {
                return Ok(None);
            };
            if !is_variable(alloc, texts, section, place, x)? {
                return Ok(None);
            }
            Ok(Some(rest))
        }
        VariableType::Derived(name) => {
            let Some(rest) = behind_block(texts, section, name, place, names) else {
                return Ok(None);
            };
            Ok(Some(rest))
        }
        VariableType::Other => Ok(Some(names)),
    }
}

/// Those behind what the variables of a list declare.
pub(crate) fn behind_all<'a>(
    alloc: Global,
    texts: Texts<'_>,
    section: Section,
    places: &[usize],
    names: Names<'a>,
) -> Result<Option<Names<'a>>, AllocError>
    ensures { IfOk result (λ found. IfSome found (λ rest. Declare texts.entry.text.now section (map (items_from texts.entry.document.now) places.now)
        names.entry.variables.now rest.variables.now names.entry.instances.now rest.instances.now)) }
{
    let [place, places @ ..] = places else {
        return Ok(Some(names));
    };
    let Some(rest) = behind(alloc, texts, section, *place, names)? else {
        return Ok(None);
    };
    let Some(last) = behind_all(alloc, texts, section, places, rest)? else {
        return Ok(None);
    };
    Ok(Some(last))
}
