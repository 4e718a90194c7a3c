//! The lines of a HAL file, and their words.

ghost use Rattle.std.specs.Prelude.{◌≡◌, IfOk, false, map};
ghost use Rattle.clp_project.specs.Hal.{joined, parts_of, some_words, words_of};

use crate::number::before;
use std::alloc::{AllocError, Global};

/// The text with each line that ends with a backslash joined with the next one.
///
/// # Errors
///
/// An error when out of memory.
pub fn joined(alloc: Global, text: &[u8]) -> Result<Vec<u8>, AllocError>
    ensures { IfOk result (λ v. v.items ≡ joined false text.now) }
{
    let mut all = Vec::new(alloc);
    let mut goes_on = false;
    for b in text {
        all.push(if goes_on && *b == b'\n' { b' ' } else { *b })?;
        goes_on = *b == b'\\';
    }
    Ok(all)
}

/// The parts of a line between blanks, empty ones too; a backslash, which joins lines, counts as a blank.
fn parts_of(alloc: Global, line: &[u8]) -> Result<Vec<&[u8]>, AllocError>
    ensures { IfOk result (λ v. map (λ l. l.now) v.items ≡ parts_of line.now) }
{
    line.split(|b| *b == b' ' || *b == b'\t' || *b == b'\r' || *b == b'\\')
        .collect(alloc)
}

/// The words out of the parts of a line: those that aren't empty.
fn some_words<'a>(alloc: Global, mut parts: &[&'a [u8]]) -> Result<Vec<&'a [u8]>, AllocError>
    ensures { IfOk result (λ v. map (λ l. l.now) v.items ≡ some_words (map (λ l. l.now) parts.entry.now)) }
{
    let mut words = Vec::new(alloc);
    while let [part, rest @ ..] = parts {
        if !part.is_empty() {
            words.push(*part)?;
        }
        parts = rest;
    }
    Ok(words)
}

/// The words of a line, up to a remark.
#[tactic(auto, unfolding(crate::specs::Hal::words_of))]
pub(crate) fn words_of(alloc: Global, line: &[u8]) -> Result<Vec<&[u8]>, AllocError>
    ensures { IfOk result (λ v. map (λ l. l.now) v.items ≡ words_of line.now) }
{
    let parts = parts_of(alloc, before(b'#', line))?;
    some_words(alloc, &parts)
}
