//! Places of a text: the line, the column, and the word that begins there.

ghost use Rattle.std.specs.Prelude.{◌≡◌, ◌≤◌, IfSome, length};
ghost use Rattle.std.specs.List.{prefix_len};
ghost use Rattle.st_words.specs.Words.{is_word_byte};
ghost use Rattle.text_reasons.specs.Bytes.{goes_on};
ghost use Rattle.text_reasons.specs.Reasons.{MayStand};
ghost use Rattle.cli_draw.specs.Places.{before, column, first_word, from, is_control, line_number, marks_at, word_at};

use diagram_program::geometry::CELL;
use text_reasons::{Marks, WIDEST};

/// How many bytes of a word are shown at most.
const LONGEST: usize = 32;

/// What is before a place; no place is the end of the text.
fn before(text: &[u8], at: Option<usize>) -> &[u8]
    ensures { result.now ≡ before text.now at }
{
    match at {
        Some(at) => &text[..at.min(text.len())],
        None => text,
    }
}

/// What is from a place on.
fn from(text: &[u8], at: Option<usize>) -> &[u8]
    ensures { result.now ≡ from text.now at }
{
    match at {
        Some(at) => &text[at.min(text.len())..],
        None => &[],
    }
}

/// The number of the line of a place, counted from 1.
pub(crate) fn line_number(text: &[u8], at: Option<usize>) -> usize
    ensures { result ≡ line_number text.now at }
{
    let lines = before(text, at);
    1 + lines.iter().filter(|b| **b == b'\n').count()
}

/// Whether a byte goes on with a character of UTF-8.
fn goes_on(b: u8) -> bool
    ensures { result ≡ goes_on b }
{
    128 <= b && b <= 191
}

/// How many characters of its line are before a place.
fn column(text: &[u8], at: Option<usize>) -> usize
    ensures { result ≡ column text.now at }
{
    before(text, at)
        .iter()
        .rev()
        .take_while(|b| **b != b'\n')
        .filter(|b| !goes_on(**b))
        .count()
}

/// Whether a byte is one of a name, a number, an address or a duration.
fn is_word_byte(b: u8) -> bool
    ensures { result ≡ is_word_byte b }
{
    b.is_ascii_alphanumeric() || matches!(b, b'_' | b'#' | b'%' | b'.')
}

/// How many bytes at the start of a text are those of one word.
fn run_len(text: &[u8]) -> usize
    ensures value { result ≡ prefix_len is_word_byte text.now }
    ensures within { result ≤ length text.now }
{
    text.iter().take_while(|b| is_word_byte(**b)).count()
}

/// Whether a byte moves a terminal's cursor or changes its colours.
fn is_control(b: u8) -> bool
    ensures { result ≡ is_control b }
{
    b < b' ' || b == 127
}

/// The word that begins a text, as many of its bytes as are shown, or its first byte, where it is of no longer word.
fn first_word(text: &[u8]) -> &[u8]
    ensures { result.now ≡ first_word text.now }
{
    let [first, ..] = text else {
        return &[];
    };
    if is_control(*first) {
        return b"?";
    }
    &text[..run_len(text).min(LONGEST).max(1)]
}

/// The word at a place; at the end of the text there is none.
pub(crate) fn word_at(text: &[u8], at: Option<usize>) -> &[u8]
    ensures { result.now ≡ word_at text.now at }
{
    first_word(from(text, at))
}

/// The marks under the word at a place, or one where there is no word; none beyond the width of a drawing.
pub(crate) fn marks_at(text: &[u8], at: Option<usize>) -> Option<Marks>
    ensures value { result ≡ marks_at text.now at }
    ensures stand { IfSome result MayStand }
{
    let indent = column(text, at);
    if indent <= WIDEST {
        Some(Marks {
            indent,
            count: word_at(text, at).len().min(CELL).max(1),
        })
    } else {
        None
    }
}
