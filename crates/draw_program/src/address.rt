//! Addresses, as words spell them.

ghost use Rattle.std.specs.Prelude.{◌≡◌, ◌∷◌, IfSome};
ghost use Rattle.std.specs.Char.{is_ascii_digit};
ghost use Rattle.std.specs.List.{list_all};
ghost use Rattle.diagram_declarations.specs.Grammar.{IsAddress, IsNumber, IsSecond};
ghost use Rattle.draw_program.specs.Addresses.{AreNumbers, IsBehindSize, kind_of};

use diagram_declarations::limits::MOST_DIGITS;
use diagram_declarations::{Address, VarKind, digits_len, number};

/// Larger than any number of an address.
const TOO_LARGE: u64 = 100_000;

/// Whether a word has decimal digits alone.
fn are_digits(word: &[u8]) -> bool
    ensures { result ≡ list_all is_ascii_digit word.now }
{
    word.iter().all(|b| b.is_ascii_digit())
}

/// The number of a word of 1 to 5 digits.
fn short_number(word: &[u8]) -> Option<u32>
    ensures { IfSome result (λ n. IsNumber word.now n) }
{
    let number = number(word);
    if word.is_empty() || word.len() > MOST_DIGITS || !are_digits(word) || number >= TOO_LARGE {
        return None;
    }
    Some(number as u32)
}

/// The second number of an address, where a point stands before it.
fn second_number(text: &[u8]) -> Option<Option<u32>>
    ensures { IfSome result (λ n. IsSecond text.now n) }
{
    match text {
        [] => Some(None),
        [b'.', digits @ ..] => Some(Some(short_number(digits)?)),
        _ => None,
    }
}

/// A number, and a second one after a point where there is a point.
fn numbers_of(text: &[u8]) -> Option<(u32, Option<u32>)>
    ensures { IfSome result (λ x. AreNumbers text.now x) }
{
    let (first, second) = text.split_at(digits_len(text));
    Some((short_number(first)?, second_number(second)?))
}

/// The first byte, and those behind it.
fn first_of(text: &[u8]) -> Option<(u8, &[u8])>
    ensures { IfSome result (λ x. text.now ≡ x.0 ∷ x.1.now) }
{
    match text {
        [first, rest @ ..] => Some((*first, rest)),
        [] => None,
    }
}

/// What is behind the size of an address, which may be left out.
#[tactic(auto, using(crate::proofs::Sizes::without, crate::proofs::Sizes::large, crate::proofs::Sizes::small))]
fn behind_size(text: &[u8]) -> &[u8]
    ensures { IsBehindSize text.now result.now }
{
    match first_of(text) {
        Some((b'X', numbers)) => numbers,
        Some((b'x', numbers)) => numbers,
        _ => text,
    }
}

/// What a variable at an address with this letter is.
fn kind_at(letter: u8) -> Option<VarKind>
    ensures { result ≡ kind_of letter }
{
    match letter {
        b'I' => Some(VarKind::Input),
        b'Q' => Some(VarKind::Output),
        b'M' => Some(VarKind::Memory),
        _ => None,
    }
}

/// The address that a word spells, and the kind of the variables there.
pub fn address_of(word: &[u8]) -> Option<(VarKind, Address)>
    ensures { IfSome result (λ x. IsAddress word.now x.0 x.1) }
{
    let [b'%', letter, text @ ..] = word else {
        return None;
    };
    let letter = letter.to_ascii_uppercase();
    let kind = kind_at(letter)?;
    let (first, second) = numbers_of(behind_size(text))?;
    let address = Address {
        letter: char::from(letter),
        first,
        second,
    };
    Some((kind, address))
}
