//! The pins of ClassicLadder that a HAL file names.

ghost use Rattle.std.specs.Prelude.{◌≡◌};
ghost use Rattle.clp_project.specs.Hal.{number_behind, pin_of};

use crate::number::number_in;

/// A pin of ClassicLadder, by the number of its variable.
#[derive(Clone, Copy, PartialEq, Eq)]
pub enum ClpPin {
    /// That of an input, `%I`.
    Input(u32),
    /// That of an output, `%Q`.
    Output(u32),
}

/// The number after the first part of a word, as in `classicladder.0.in-03`.
fn number_behind(part: &[u8], word: &[u8]) -> Option<u32>
    ensures { result ≡ number_behind part.now word.now }
{
    if word.starts_with(part) {
        number_in(&word[part.len()..])
    } else {
        None
    }
}

/// The pin of ClassicLadder that a word of a HAL file names.
#[tactic(auto, unfolding(crate::specs::Hal::pin_of))]
pub(crate) fn pin_of(word: &[u8]) -> Option<ClpPin>
    ensures { result ≡ pin_of word.now }
{
    match number_behind(b"classicladder.0.in-", word) {
        Some(number) => Some(ClpPin::Input(number)),
        None => match number_behind(b"classicladder.0.out-", word) {
            Some(number) => Some(ClpPin::Output(number)),
            None => None,
        },
    }
}
