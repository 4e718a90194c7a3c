//! The inputs of blocks, and what is connected with them.

ghost use Rattle.std.specs.Prelude.{◌≡◌, ◌++◌, IfOk, IsTrue, map, option_map};
ghost use Rattle.std.specs.List.{list_all, list_any};
ghost use Rattle.diagram_declarations.specs.Name.{same_letters};
ghost use Rattle.xml_parts.specs.Parts.{items_from};
ghost use Rattle.plc_elements.specs.declared.inputs.Role.TheVariants.{First, Preset, Second};
ghost use Rattle.plc_elements.specs.Effects.{IsInput, given, inputs_in, inputs_named, is_known, is_named, outputs_in, words_of};
ghost use Rattle.plc_elements.specs.Words.{is_plain};

use crate::connections::are_connected;
use crate::names::Body;
use crate::words::{attribute_or, connections_in, is_plain};
use diagram_declarations::{BlockKind, same_letters};
use network_power::Links;
use std::alloc::{AllocError, Global};
use xml_document::Document;
use xml_parts::{all_in, first_in};

/// What an input of a block is for.
#[derive(Clone, Copy)]
pub enum Role {
    First,
    Second,
    Preset,
}

/// What is called: a trigger, or a block of a kind.
#[derive(Clone, Copy)]
pub enum Callee {
    Trigger,
    Block(BlockKind),
}

/// A block in a document.
#[derive(Clone, Copy)]
pub(crate) struct BlockPlace {
    pub callee: Callee,
    /// The place behind its name.
    pub place: usize,
}

/// Whether a word is a name of the first input of a block.
fn is_first(callee: Callee, word: &[u8]) -> bool
    ensures { result ≡ list_any (same_letters word.now) (words_of callee First) }
{
    let Callee::Block(kind) = callee else {
        return same_letters(word, b"CLK");
    };
    match kind {
        BlockKind::Ctu => same_letters(word, b"CU"),
        BlockKind::Ctd => same_letters(word, b"CD"),
        BlockKind::Sr => same_letters(word, b"S1") || same_letters(word, b"SET1"),
        BlockKind::Rs => same_letters(word, b"S") || same_letters(word, b"SET"),
        _ => same_letters(word, b"IN"),
    }
}

/// Whether a word is a name of the second input of a block.
fn is_second(callee: Callee, word: &[u8]) -> bool
    ensures { result ≡ list_any (same_letters word.now) (words_of callee Second) }
{
    let Callee::Block(kind) = callee else {
        return false;
    };
    match kind {
        BlockKind::Ctu => same_letters(word, b"R"),
        BlockKind::Ctd => same_letters(word, b"LD"),
        BlockKind::Sr => same_letters(word, b"R") || same_letters(word, b"RESET"),
        BlockKind::Rs => same_letters(word, b"R1") || same_letters(word, b"RESET1"),
        _ => false,
    }
}

/// Whether a word is the name of the preset of a block.
fn is_preset(callee: Callee, word: &[u8]) -> bool
    ensures { result ≡ list_any (same_letters word.now) (words_of callee Preset) }
{
    let Callee::Block(kind) = callee else {
        return false;
    };
    match kind {
        BlockKind::Ctu | BlockKind::Ctd => same_letters(word, b"PV"),
        BlockKind::Sr | BlockKind::Rs => false,
        _ => same_letters(word, b"PT"),
    }
}

/// Whether an input has a name of a role.
fn is_named(document: &Document, callee: Callee, role: Role, input: usize) -> bool
    ensures { result ≡ is_named callee role (items_from document.now input) }
{
    let word = attribute_or(document, input, b"formalParameter", b"");
    match role {
        Role::First => is_first(callee, word),
        Role::Second => is_second(callee, word),
        Role::Preset => is_preset(callee, word),
    }
}

/// Whether an input is one of a block, or nothing is connected with it.
fn is_known(
    alloc: Global,
    document: &Document,
    callee: Callee,
    input: usize,
) -> Result<bool, AllocError>
    ensures { IfOk result (λ is. is ≡ is_known callee (items_from document.now input)) }
{
    let connections = connections_in(alloc, document, input)?;
    Ok(
        is_plain(document, input)
            && (is_named(document, callee, Role::First, input)
                || is_named(document, callee, Role::Second, input)
                || is_named(document, callee, Role::Preset, input)
                || connections.is_empty()),
    )
}

/// Whether all inputs are of a block, or have nothing connected with them.
pub(crate) fn are_known(
    alloc: Global,
    document: &Document,
    callee: Callee,
    inputs: &[usize],
) -> Result<bool, AllocError>
    ensures { IfOk result (λ are. are ≡ list_all (is_known callee) (map (items_from document.now) inputs.now)) }
{
    match inputs {
        [] => Ok(true),
        [input, rest @ ..] => Ok(
            is_known(alloc, document, callee, *input)? && are_known(alloc, document, callee, rest)?,
        ),
    }
}

/// Whether all outputs pass the power on as it is.
pub(crate) fn are_plain(document: &Document, outputs: &[usize]) -> bool
    ensures { result ≡ list_all is_plain (map (items_from document.now) outputs.now) }
{
    match outputs {
        [] => true,
        [output, rest @ ..] => is_plain(document, *output) && are_plain(document, rest),
    }
}

/// The inputs of a block.
pub(crate) fn inputs_in(
    alloc: Global,
    document: &Document,
    place: usize,
) -> Result<Vec<usize>, AllocError>
    ensures { IfOk result (λ places. map (items_from document.now) places.items ≡ inputs_in (items_from document.now place)) }
{
    match first_in(alloc, document, place, b"inputVariables")? {
        Some(inside) => all_in(alloc, document, inside, b"variable"),
        None => Ok(Vec::new(alloc)),
    }
}

/// The outputs of a block.
pub(crate) fn outputs_in(
    alloc: Global,
    document: &Document,
    place: usize,
) -> Result<Vec<usize>, AllocError>
    ensures { IfOk result (λ places. map (items_from document.now) places.items ≡ outputs_in (items_from document.now place)) }
{
    match first_in(alloc, document, place, b"outputVariables")? {
        Some(inside) => all_in(alloc, document, inside, b"variable"),
        None => Ok(Vec::new(alloc)),
    }
}

/// Adds those inputs of a block that have a name of a role.
fn add_named(
    document: &Document,
    inputs: &[usize],
    callee: Callee,
    role: Role,
    found: &mut Vec<usize>,
) -> Result<(), AllocError>
    ensures { IfOk result (λ _. map (items_from document.now) found.new.items
        ≡ map (items_from document.now) found.old.items ++ inputs_named callee role (map (items_from document.now) inputs.now)) }
{
    for input in inputs {
        if is_named(document, callee, role, *input) {
            found.push(*input)?;
        }
    }
    Ok(())
}

/// What the input of a role of a block is connected with; None where several have it.
pub(crate) fn given(
    alloc: Global,
    document: &Document,
    block: BlockPlace,
    role: Role,
) -> Result<Option<Vec<usize>>, AllocError>
    ensures { IfOk result (λ found. option_map (λ places. map (items_from document.now) places.items) found ≡ given block.callee role (items_from document.now block.place)) }
{
    let inputs = inputs_in(alloc, document, block.place)?;
    let mut found: Vec<usize> = Vec::new(alloc);
    add_named(document, &inputs, block.callee, role, &mut found)?;
    match found.as_slice() {
        [] => Ok(Some(Vec::new(alloc))),
        [input] => Ok(Some(connections_in(alloc, document, *input)?)),
        _ => Ok(None),
    }
}

/// Whether these connections are on the left of the input of a role.
pub(crate) fn is_input(
    alloc: Global,
    body: Body<'_>,
    block: BlockPlace,
    role: Role,
    left: Links,
) -> Result<bool, AllocError>
    ensures { IfOk result (λ is. IsTrue is → IsInput body.entry (items_from body.entry.document.now block.place) block.callee role left) }
{
    match given(alloc, body.document, block, role)? {
        Some(connections) => Ok(are_connected(alloc, body, left, &connections)?),
        None => Ok(false),
    }
}
