//! Words in a row.

ghost use Rattle.std.specs.Prelude.{◌≡◌, ◌∷◌, [], ◌<◌, length, IfNone, IfSome, IfOk};
ghost use Rattle.st_program.specs.Phrases.{Marked};

use crate::fault::{Expected, Refusal};
use crate::mark::{Mark, is_mark, mark_of};
use crate::spelling::bytes_of;
use st_words::Word;

/// The place of the first of some words; None at the end of the text.
pub(crate) fn place_of(words: &[Word]) -> Option<usize> {
    words.first().map(|word| word.start)
}

/// The first of some words, and what is behind it.
pub(crate) fn first_word(words: &[Word]) -> Option<(Word, &[Word])>
    ensures first { IfSome result (λ x. words.now ≡ x.0 ∷ x.1.now) }
    ensures none { IfNone result (words.now ≡ []) }
{
    match words {
        [word, rest @ ..] => Some((*word, rest)),
        [] => None,
    }
}

/// The first of some words as a keyword or a symbol, and what is behind it.
pub(crate) fn first_mark<'a>(text: &[u8], words: &'a [Word]) -> Option<(Mark, &'a [Word])>
    ensures marked { IfSome result (λ x. Marked text.now x.0 words.now x.1.now) }
    ensures shorter { IfSome result (λ x. length x.1.now < length words.now) }
{
    match words {
        [word, rest @ ..] => Some((mark_of(bytes_of(text, *word)), rest)),
        [] => None,
    }
}

/// What is behind a keyword or a symbol; None where the words don't begin with it.
pub(crate) fn behind<'a>(text: &[u8], mark: Mark, words: &'a [Word]) -> Option<&'a [Word]>
    ensures marked { IfSome result (λ rest. Marked text.now mark words.now rest.now) }
    ensures shorter { IfSome result (λ rest. length rest.now < length words.now) }
{
    match first_mark(text, words) {
        Some((found, rest)) if is_mark(found, mark) => Some(rest),
        _ => None,
    }
}

/// What is behind a keyword or a symbol that is due.
pub(crate) fn due<'a>(text: &[u8], mark: Mark, words: &'a [Word]) -> Result<&'a [Word], Refusal>
    ensures marked { IfOk result (λ rest. Marked text.now mark words.now rest.now) }
    ensures shorter { IfOk result (λ rest. length rest.now < length words.now) }
{
    behind(text, mark, words).ok_or(Refusal::Due {
        at: place_of(words),
        expected: Expected::Mark(mark),
    })
}
