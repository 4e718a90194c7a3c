//! How far a word is from a name.

ghost use Rattle.std.specs.Prelude.{◌≡◌, IfOk, map};
ghost use Rattle.std.specs.Char.{to_ascii_lowercase};
ghost use Rattle.text_names.specs.Nearest.{distance};

use std::alloc::{AllocError, Global};
use strsim::generic_levenshtein;

/// A word in small letters.
fn lowered(alloc: Global, word: &[u8]) -> Result<Vec<u8>, AllocError>
    ensures { IfOk result (λ v. v.items ≡ map to_ascii_lowercase word.now) }
{
    let mut letters = Vec::new(alloc);
    for byte in word {
        letters.push(byte.to_ascii_lowercase())?;
    }
    Ok(letters)
}

/// How many letters have to be put in, left out or replaced to make the name of the word, whatever their case.
pub(crate) fn distance(alloc: Global, word: &[u8], name: &[u8]) -> Result<usize, AllocError>
    ensures { IfOk result (λ d. d ≡ distance word.now name.now) }
{
    let word = lowered(alloc, word)?;
    let name = lowered(alloc, name)?;
    generic_levenshtein(alloc, word.as_slice(), name.as_slice())
}
