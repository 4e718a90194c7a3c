//! A program, read from its text.

ghost use Rattle.std.specs.Prelude.{◌≡◌, ◌∷◌, [], List, map, IfErr, IfNone, IfOk, IfSome, IsTrue};
ghost use Rattle.st_program.specs.Programs.{Ending, Finish, Heading, IsProgram, IsStProgram, Refuses, instances_from, nothing_declared, preset_in, preset_of};
ghost use Rattle.st_program.specs.Declarations.{Sections};
ghost use Rattle.st_program.specs.Statements.{Body, Reads};
ghost use Rattle.st_program.specs.Symbols.{table};
ghost use Rattle.st_words.specs.Places.{spellings};
ghost use Rattle.st_words.specs.Words.{AreWords};
ghost use Rattle.st_program.specs.declared.item.Item.{Item};

use crate::declarations::read_sections;
use crate::expressions::{after, fault_at};
use crate::fault::{Expected, Refusal, StFault};
use crate::item::{Item, items_of};
use crate::mark::Mark;
use crate::notes::{Called, Note, is_of_block};
use crate::phrases::{behind, first_word, place_of};
use crate::spelling::{bytes_of, is_name};
use crate::statements::statements_at;
use crate::symbols::{Block, StVariable, Symbols};
use crate::values::add_values;
use diagram_declarations::BlockKind;
use st_integers::IntegerValue;
use st_statements::StatementList;
use st_words::{Word, WordFault, read_words};
use std::alloc::{AllocError, Global};

/// A timer, a counter or a bistable.
#[derive(Clone, Copy)]
pub struct StInstance {
    pub name: Word,
    pub kind: BlockKind,
    /// Milliseconds of a timer, counts of a counter, 0 of a bistable.
    pub preset: u32,
}

/// A program. Its variables and instances go by their numbers, in order of declaration; behind the variables that are declared stand those of the
/// numbers that are assigned to INTs.
#[derive(Drop)]
pub struct StProgram {
    pub variables: Vec<StVariable>,
    pub instances: Vec<StInstance>,
    pub statements: StatementList,
    /// The word that each statement begins with, in the order of the text. That of a copy of an output is the variable.
    pub places: Vec<Word>,
}

/// What is behind the heading of a program, where there is one.
fn after_heading<'a>(text: &[u8], words: &'a [Word]) -> Result<&'a [Word], Refusal>
    ensures { IfOk result (λ rest. Heading text.now words.now rest.now) }
{
    let Some(named) = behind(text, Mark::Program, words) else {
        return Ok(words);
    };
    match first_word(named) {
        Some((name, rest)) if is_name(bytes_of(text, name)) => Ok(rest),
        _ => Err(Refusal::Due {
            at: place_of(named),
            expected: Expected::Name,
        }),
    }
}

/// Whether the text ends here, behind a semicolon or without one.
fn is_finish(items: &[Item]) -> bool
    ensures { IsTrue result → Finish items.now }
{
    match after(Mark::Semicolon, items) {
        Some(rest) => rest.is_empty(),
        None => items.is_empty(),
    }
}

/// Whether the text ends here, behind END_PROGRAM or without it.
fn is_ending(items: &[Item]) -> bool
    ensures { IsTrue result → Ending items.now }
{
    match after(Mark::EndProgram, items) {
        Some(rest) => is_finish(rest),
        None => items.is_empty(),
    }
}

/// The preset that a call gives.
fn preset_of(called: Called) -> u32
    ensures { result ≡ preset_of called }
{
    match called {
        Called::Block { preset, .. } => preset,
        _ => 0,
    }
}

/// The preset of a block.
fn preset_in(number: usize, declared: Option<u32>, notes: &[Note]) -> u32
    ensures { result ≡ preset_in number declared notes.now }
{
    let mut rest = notes;
    while let [note, others @ ..] = rest {
        if is_of_block(number, note.called) {
            return preset_of(note.called);
        }
        rest = others;
    }
    declared.unwrap_or(0)
}

/// The blocks with their presets.
fn instances_of(
    alloc: Global,
    blocks: &[Block],
    notes: &[Note],
) -> Result<Vec<StInstance>, AllocError>
    ensures { IfOk result (λ instances. instances.items ≡ instances_from notes.now 0 blocks.now) }
{
    let mut instances = Vec::new(alloc);
    let mut rest = blocks;
    while let Some((block, others)) = first_block(rest) {
        let number = blocks.len() - rest.len();
        instances.push(StInstance {
            name: block.name,
            kind: block.kind,
            preset: preset_in(number, block.preset, notes),
        })?;
        rest = others;
    }
    Ok(instances)
}

/// The first of some blocks, and those behind it.
fn first_block(blocks: &[Block]) -> Option<(Block, &[Block])>
    ensures first { IfSome result (λ x. blocks.now ≡ x.0 ∷ x.1.now) }
    ensures none { IfNone result (blocks.now ≡ []) }
{
    match blocks {
        [block, rest @ ..] => Some((*block, rest)),
        [] => None,
    }
}

/// The words that statements begin with.
fn places_of(alloc: Global, notes: &[Note]) -> Result<Vec<Word>, AllocError>
    ensures { IfOk result (λ places. places.items ≡ map (λ note. note.word) notes.now) }
{
    notes.iter().map(|note| note.word).collect(alloc)
}

/// The words of a text.
fn words_of(alloc: Global, text: &[u8]) -> Result<Vec<Word>, StFault>
    ensures words { IfOk result (λ words. AreWords text.now (spellings text.now words.items)) }
    ensures refused { IfErr result (Refuses text.now) }
{
    match read_words(alloc, text) {
        Ok(words) => Ok(words),
        Err(WordFault::Memory) => Err(StFault::Words(Refusal::Memory)),
        Err(WordFault::Character { at }) => Err(StFault::Character { at }),
    }
}

/// The declarations of a text, and the words behind them.
fn symbols_of<'a>(
    alloc: Global,
    text: &[u8],
    words: &'a [Word],
) -> Result<(Symbols, &'a [Word]), Refusal>
    ensures { IfOk result (λ x. Sections text.now words.now x.1.now nothing_declared (table x.0)) }
{
    let mut symbols = Symbols {
        variables: Vec::new(alloc),
        blocks: Vec::new(alloc),
    };
    let rest = read_sections(alloc, text, &mut symbols, words)?;
    Ok((symbols, rest))
}

/// The statements of a program, with what is noted of them.
fn body_of(
    alloc: Global,
    values: &[Option<IntegerValue>],
    items: &[Item],
) -> Result<(StatementList, Vec<Note>), Refusal>
    ensures { IfOk result (λ x. (rest : List Item) × Reads values.now Body items.now rest [] x.1.items x.0 × Ending rest) }
{
    let mut notes = Vec::new(alloc);
    let (statements, rest) = statements_at(alloc, values, items, &mut notes)?;
    if !is_ending(rest) {
        drop(statements);
        return Err(fault_at(rest, Expected::End));
    }
    Ok((statements, notes))
}

/// The blocks with their presets, and the words that statements begin with.
fn lists_of(
    alloc: Global,
    blocks: &[Block],
    notes: &[Note],
) -> Result<(Vec<StInstance>, Vec<Word>), Refusal>
    ensures instances { IfOk result (λ x. x.0.items ≡ instances_from notes.now 0 blocks.now) }
    ensures places { IfOk result (λ x. x.1.items ≡ map (λ note. note.word) notes.now) }
{
    let instances = instances_of(alloc, blocks, notes)?;
    let places = places_of(alloc, notes)?;
    Ok((instances, places))
}

/// The program of some words.
fn program_of(alloc: Global, text: &[u8], words: &[Word]) -> Result<StProgram, Refusal>
    ensures { IfOk result (IsProgram text.now words.now) }
{
    let behind_heading = after_heading(text, words)?;
    let (mut symbols, body) = symbols_of(alloc, text, behind_heading)?;
    let values = add_values(alloc, text, &mut symbols, body)?;
    let items = items_of(alloc, text, &symbols, &values, body)?;
    let (statements, notes) = body_of(alloc, &values, &items)?;
    let Symbols { variables, blocks } = symbols;
    match lists_of(alloc, &blocks, &notes) {
        Ok((instances, places)) => Ok(StProgram {
            variables,
            instances,
            statements,
            places,
        }),
        // A `?` would drop the statements by their forms.
        Err(fault) => {
            drop(statements);
            Err(fault)
        }
    }
}

/// The program of a text in Structured Text.
///
/// # Errors
///
/// `Character` has the first place where no word begins and no comment that has an end. `Words` says why the words are no program, or that memory
/// runs out.
pub fn read_st_program(alloc: Global, text: &[u8]) -> Result<StProgram, StFault>
    ensures program { IfOk result (IsStProgram text.now) }
    ensures refused { IfErr result (Refuses text.now) }
{
    let words = words_of(alloc, text)?;
    let program = program_of(alloc, text, &words)?;
    Ok(program)
}
