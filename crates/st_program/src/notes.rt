//! What is kept of the statements so far.

ghost use Rattle.std.specs.Prelude.{◌≡◌, OnOk};
ghost use Rattle.st_program.specs.Notes.{Adds, has_block, has_trigger, is_of_block, is_of_trigger, is_trigger, noted, triggers};

use crate::fault::Refusal;
use st_words::Word;

/// The most statements that a program may have.
pub const MOST_STATEMENTS: usize = 600;

/// What a statement calls.
#[derive(Clone, Copy)]
pub(crate) enum Called {
    Nothing,
    /// The trigger with this variable.
    Trigger(usize),
    Block { number: usize, preset: u32 },
}

/// A statement: the word that it begins with, and what it calls.
#[derive(Clone, Copy)]
pub(crate) struct Note {
    pub word: Word,
    pub called: Called,
}

/// Notes a statement more.
pub(crate) fn add_note(notes: &mut Vec<Note>, word: Word, called: Called) -> Result<(), Refusal>
    ensures { OnOk result (Adds notes.old.items (noted word called) notes.new.items) }
{
    if notes.len() >= MOST_STATEMENTS {
        return Err(Refusal::TooMany {
            at: Some(word.start),
        });
    }
    notes.push(Note { word, called })?;
    Ok(())
}

/// Whether a trigger is called.
fn is_trigger(called: Called) -> bool
    ensures { result ≡ is_trigger called }
{
    matches!(called, Called::Trigger(_))
}

/// How many triggers are called.
pub(crate) fn triggers(notes: &[Note]) -> usize
    ensures { result ≡ triggers notes.now }
{
    notes.iter().filter(|note| is_trigger(note.called)).count()
}

/// Whether the trigger with this variable is called.
fn is_of_trigger(number: usize, called: Called) -> bool
    ensures { result ≡ is_of_trigger number called }
{
    match called {
        Called::Trigger(n) => n == number,
        _ => false,
    }
}

/// Whether the block of this number is called.
pub(crate) fn is_of_block(number: usize, called: Called) -> bool
    ensures { result ≡ is_of_block number called }
{
    match called {
        Called::Block { number: n, .. } => n == number,
        _ => false,
    }
}

/// Whether the trigger with this variable is called already.
pub(crate) fn has_trigger(notes: &[Note], number: usize) -> bool
    ensures { result ≡ has_trigger number notes.now }
{
    notes.iter().any(|note| is_of_trigger(number, note.called))
}

/// Whether the block of this number is called already.
pub(crate) fn has_block(notes: &[Note], number: usize) -> bool
    ensures { result ≡ has_block number notes.now }
{
    notes.iter().any(|note| is_of_block(number, note.called))
}
