//! What the words of a declaration spell.

ghost use Rattle.std.specs.Prelude.{◌≡◌};
ghost use Rattle.std.specs.List.{list_all};
ghost use Rattle.std.specs.Char.{is_ascii_digit};
ghost use Rattle.diagram_declarations.specs.ReadWords.{block_of, short_number, numbers_of, address_of};

use crate::decls::{Address, VarKind};
use crate::digits::{digits_len, number};
use crate::kind::BlockKind;
use crate::letters::same_letters;
use crate::limits::MOST_DIGITS;

/// The function block that a word names.
pub(crate) fn block_of(word: &[u8]) -> Option<BlockKind>
    ensures { result ≡ block_of word.now }
{
    BlockKind::ALL
        .iter()
        .copied()
        .find(|kind| same_letters(word, kind.traits().word))
}

/// Whether a word has decimal digits alone.
fn are_digits(word: &[u8]) -> bool
    ensures { result ≡ list_all is_ascii_digit word.now }
{
    word.iter().all(|b| b.is_ascii_digit())
}

/// The number of a word of 1 to 5 digits; a longer word is none.
#[tactic(auto, using(crate::proofs::WordLaws::number_of_short))]
pub(crate) fn short_number(word: &[u8]) -> Option<u32>
    ensures { result ≡ short_number word.now }
{
    if 1 <= word.len() && word.len() <= MOST_DIGITS && are_digits(word) {
        Some(number(word) as u32)
    } else {
        None
    }
}

/// A number, and a second one after a point where there is a point.
#[tactic(auto, unfolding(crate::specs::ReadWords::numbers_of))]
fn numbers_of(text: &[u8]) -> Option<(u32, Option<u32>)>
    ensures { result ≡ numbers_of text.now }
{
    let (first, second) = text.split_at(digits_len(text));
    let first = short_number(first)?;
    match second {
        [] => Some((first, None)),
        [b'.', digits @ ..] => Some((first, Some(short_number(digits)?))),
        _ => None,
    }
}

/// The address that a word spells, and the kind of the variables there: the size `X` may be left out.
pub(crate) fn address_of(word: &[u8]) -> Option<(VarKind, Address)>
    ensures { result ≡ address_of word.now }
{
    let [b'%', letter, text @ ..] = word else {
        return None;
    };
    let letter = letter.to_ascii_uppercase();
    let kind = match letter {
        b'I' => VarKind::Input,
        b'Q' => VarKind::Output,
        b'M' => VarKind::Memory,
        _ => return None,
    };
    let (first, second) = match text {
        [b'X' | b'x', numbers @ ..] => numbers_of(numbers)?,
        _ => numbers_of(text)?,
    };
    let address = Address {
        letter: char::from(letter),
        first,
        second,
    };
    Some((kind, address))
}
