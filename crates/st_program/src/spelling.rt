//! How words are spelled.

ghost use Rattle.std.specs.Prelude.{◌≡◌, ◌↔◌, IsTrue};
ghost use Rattle.diagram_declarations.specs.Name.{has_name_form, is_name_byte};
ghost use Rattle.std.specs.List.{list_all};
ghost use Rattle.st_words.specs.Places.{spelled};
ghost use Rattle.st_program.specs.Symbols.{IsName};

use crate::mark::{Mark, is_mark, mark_of};
use st_words::Word;

/// The bytes of a word.
#[tactic(auto, using(crate::proofs::Ranges::clamped))]
pub fn bytes_of(text: &[u8], word: Word) -> &[u8]
    ensures { result.now ≡ spelled text.now word }
{
    let end = word.end.min(text.len());
    &text[word.start.min(end)..end]
}

/// Whether all bytes may be part of a name.
fn are_name_bytes(bytes: &[u8]) -> bool
    ensures { result ≡ list_all is_name_byte bytes.now }
{
    bytes
        .iter()
        .all(|b| b.is_ascii_alphanumeric() || *b == b'_')
}

/// Whether a word is a letter or an underscore, and then letters, digits and underscores.
fn has_name_form(word: &[u8]) -> bool
    ensures { result ≡ has_name_form word.now }
{
    match word {
        [] => false,
        [first, rest @ ..] => {
            (first.is_ascii_alphabetic() || *first == b'_') && are_name_bytes(rest)
        }
    }
}

/// Whether a word can be declared as a name.
pub(crate) fn is_name(word: &[u8]) -> bool
    ensures { IsTrue result ↔ IsName word.now }
{
    has_name_form(word) && is_mark(mark_of(word), Mark::Other)
}
