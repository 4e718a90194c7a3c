//! Presets of timers and counters, which stand beside a block as literals.

ghost use Rattle.std.specs.Prelude.{◌≡◌, ◌≤◌, IfOk, IfSome, IsTrue};
ghost use Rattle.diagram_declarations.specs.Grammar.{IsNumber};
ghost use Rattle.st_program.specs.Declarations.{IsPreset};
ghost use Rattle.xml_parts.specs.Parts.{items_from};
ghost use Rattle.plc_elements.specs.Effects.{IsLiteral, IsPresetOf};

use crate::connections::referred;
use crate::inputs::{BlockPlace, Callee, Role, given};
use crate::names::Body;
use crate::parts::{is_named, part_at};
use crate::words::{negation, word_in};
use diagram_declarations::limits::{LARGEST_COUNT, MOST_DIGITS};
use diagram_declarations::{BlockKind, Parameter, digits_len, number, read_time};
use std::alloc::{AllocError, Global};

/// The number of a word of 1 to 5 digits that a counter can count to.
#[tactic(auto, using(crate::proofs::Digits::all_digits))]
fn count_of(word: &[u8]) -> Option<u32>
    ensures { IfSome result (λ n. IsNumber word.now n × (n ≤ LARGEST_COUNT)) }
{
    if word.is_empty() || word.len() > MOST_DIGITS || digits_len(word) < word.len() {
        return None;
    }
    let count = number(word);
    if count <= u64::from(LARGEST_COUNT) {
        Some(count as u32)
    } else {
        None
    }
}

/// Whether a word gives a parameter this value.
fn is_preset(parameter: Parameter, word: &[u8], value: u32) -> bool
    ensures { IsTrue result → IsPreset parameter word.now value }
{
    let found = match parameter {
        Parameter::Time => read_time(word),
        Parameter::Count => count_of(word),
    };
    match found {
        Some(n) => n == value,
        None => false,
    }
}

/// Whether a connection is with a literal of this value.
fn is_literal(
    alloc: Global,
    body: Body<'_>,
    parameter: Parameter,
    connection: usize,
    value: u32,
) -> Result<bool, AllocError>
    ensures { IfOk result (λ is. IsTrue is → IsLiteral body.entry parameter (items_from body.entry.document.now connection) value) }
{
    let Some(number) = referred(body, connection) else {
        return Ok(false);
    };
    let Some(part) = part_at(body, number) else {
        return Ok(false);
    };
    let word = word_in(alloc, body.document, part.inside, b"expression")?;
    if !is_named(body.document, part, b"inVariable") {
        return Ok(false);
    }
    if negation(body.document, part.inside) != Some(false) {
        return Ok(false);
    }
    Ok(is_preset(parameter, word, value))
}

/// Whether the input of the preset of a block is connected with a literal of this value; a block without one has any.
pub(crate) fn is_preset_of(
    alloc: Global,
    body: Body<'_>,
    place: usize,
    kind: BlockKind,
    parameter: Option<Parameter>,
    value: u32,
) -> Result<bool, AllocError>
    ensures { IfOk result (λ is. IsTrue is → IsPresetOf body.entry (items_from body.entry.document.now place) kind parameter value) }
{
    let Some(parameter) = parameter else {
        return Ok(true);
    };
    let block = BlockPlace {
        callee: Callee::Block(kind),
        place,
    };
    let Some(connections) = given(alloc, body.document, block, Role::Preset)? else {
        return Ok(false);
    };
    match connections.as_slice() {
        [connection] => is_literal(alloc, body, parameter, *connection, value),
        _ => Ok(false),
    }
}
