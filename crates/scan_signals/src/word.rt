//! The signal of 64 places in one word.

ghost use Rattle.scan_signals.specs.WordLaws.{words_allowed, words_choice_known, words_lattice};
ghost use Rattle.scan_signals.specs.Words.{IsBit, IsWord, word_allows, words};

use crate::operations::Operations;
use crate::signal::Signal;

/// Sixty-four truth values: place i is the bit of weight 2 ^ i.
#[derive(Clone, Copy, Debug, PartialEq, Eq)]
pub struct Word64(pub u64);

impl Operations for Word64 {
    ghost algebra = { words };

    ghost value = { IsWord };

    ghost choice_known = { words_choice_known };

    /// The same truth value at all 64 places.
    fn known(b: bool) -> Word64 {
        Word64(if b { u64::MAX } else { 0 })
    }

    /// The OR at each place.
    fn or(self, other: Word64) -> Word64 {
        Word64(self.0 | other.0)
    }

    /// The AND at each place.
    fn and(self, other: Word64) -> Word64 {
        Word64(self.0 & other.0)
    }

    /// The inverse at each place.
    fn not(self) -> Word64 {
        Word64(!self.0)
    }

    /// At each place the bit of the side that the condition's bit takes.
    fn choose(condition: Word64, on: Word64, off: Word64) -> Word64 {
        Word64((condition.0 & on.0) | (!condition.0 & off.0))
    }

    /// Any word is a value.
    fn is_value(self) -> bool {
        let _number = self.0;
        true
    }
}

impl Signal for Word64 {
    ghost place = { IsBit };

    ghost allows = { word_allows };

    ghost lattice = { words_lattice };

    ghost allowed = { words_allowed };
}
