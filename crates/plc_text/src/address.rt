//! Addresses.

use diagram_declarations::limits::MOST_DIGITS;
use diagram_declarations::{Address, digits_len, number};

/// The number that digits spell; other bytes, none and more than five have none.
fn number_in(digits: &[u8]) -> Option<u32> {
    if digits.is_empty() || digits.len() > MOST_DIGITS || digits_len(digits) < digits.len() {
        return None;
    }
    match u32::try_from(number(digits)) {
        Ok(found) => Some(found),
        Err(_) => None,
    }
}

/// What is behind the size of an address, which may be left out.
fn after_size(word: &[u8]) -> &[u8] {
    match word {
        [b'X' | b'x', rest @ ..] => rest,
        _ => word,
    }
}

/// The address with a letter and its numbers.
fn with_numbers(letter: char, word: &[u8]) -> Option<Address> {
    let (digits, rest) = word.split_at(digits_len(word));
    let first = number_in(digits)?;
    let second = match rest {
        [] => None,
        [b'.', digits @ ..] => Some(number_in(digits)?),
        _ => return None,
    };
    Some(Address {
        letter,
        first,
        second,
    })
}

/// The address that a word spells, if it is one that a program can have.
pub(crate) fn address_of(word: &[u8]) -> Option<Address> {
    match word {
        [b'%', b'I' | b'i', rest @ ..] => with_numbers('I', after_size(rest)),
        [b'%', b'Q' | b'q', rest @ ..] => with_numbers('Q', after_size(rest)),
        [b'%', b'M' | b'm', rest @ ..] => with_numbers('M', after_size(rest)),
        _ => None,
    }
}
