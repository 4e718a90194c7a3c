//! V1: the byte of a line that may stand in comments only, and what is said of it.

ghost use Rattle.std.specs.Prelude.{◌≡◌, ◌≤◌, ◌++◌, ◌-◌, ◌&&◌, length, option_map, IfSome};
ghost use Rattle.std.specs.List.{prefix_len};
ghost use Rattle.io_text.specs.Buffer.{Sends};
ghost use Rattle.diagram_declarations.specs.Text.{begins};
ghost use Rattle.diagram_program.specs.Bytes.{is_upright};
ghost use Rattle.text_reasons.specs.Outside.{is_code};
ghost use Rattle.text_reasons.specs.Bytes.{bad_from, bad_in, bad_text, bad_words, begins_mark, begins_tab, character_len, character_words, goes_on, is_bad, place_in, place_text, tab_words};

use crate::outside::{Within, is_code, next_within};
use io_text::{Piece, Sink, TextBuffer, WriteFault, add_pieces};

/// Whether a byte may not stand outside comments, in a line of a rung or in another one.
fn is_bad(in_rung: bool, b: u8, after: &[u8]) -> bool
    ensures { result ≡ is_bad in_rung b after.now }
{
    let may_stand = (b' ' <= b && b <= b'~')
        || (b == b'\t' && !in_rung)
        || (b == b'\r' && matches!(after, [b'\n', ..]));
    !may_stand
}

/// The text from the first bad byte of the line on that is in no comment.
fn bad_from(in_rung: bool, within: Within, line: &[u8]) -> Option<&[u8]>
    ensures value { option_map (λ l. l.now) result ≡ bad_from in_rung within line.now }
    ensures shorter { IfSome result (λ at. length at.now ≤ length line.now) }
{
    let mut inside = within;
    let mut rest = line;
    while let [b, after @ ..] = rest {
        if *b == b'\n' {
            return None;
        }
        if is_code(inside) && is_bad(in_rung, *b, after) {
            return Some(rest);
        }
        inside = next_within(inside, *b, after);
        rest = after;
    }
    None
}

/// Whether a line is one of a rung.
fn is_rung_line(within: Within, line: &[u8]) -> bool
    ensures { result ≡ (is_code within && begins is_upright line.now) }
{
    is_code(within) && matches!(line, [b'|' | b'+', ..])
}

/// The text from the first bad byte of the line on.
pub(crate) fn bad_in(within: Within, line: &[u8]) -> Option<&[u8]>
    ensures value { option_map (λ l. l.now) result ≡ bad_in (within, line.now) }
    ensures shorter { IfSome result (λ at. length at.now ≤ length line.now) }
{
    bad_from(is_rung_line(within, line), within, line)
}

/// Whether a byte goes on with a character of UTF-8.
fn goes_on(b: u8) -> bool
    ensures { result ≡ goes_on b }
{
    128 <= b && b <= 191
}

/// How many bytes at the start go on with a character.
fn run_on(text: &[u8]) -> usize
    ensures value { result ≡ prefix_len goes_on text.now }
    ensures within { result ≤ length text.now }
{
    text.iter().take_while(|b| goes_on(**b)).count()
}

/// How many bytes the first character has.
#[tactic(auto, unfolding(crate::specs::Bytes::character_len))]
fn character_len(text: &[u8]) -> usize
    ensures value { result ≡ character_len text.now }
    ensures within { result ≤ length text.now }
{
    match text {
        [] => 0,
        [b, after @ ..] => {
            if *b >= 192 {
                1 + run_on(after).min(3)
            } else {
                1
            }
        }
    }
}

/// How many characters of the line are before the byte.
pub(crate) fn place_in(start: &[u8], at: &[u8]) -> usize
    ensures value { result ≡ place_in start.now at.now }
    ensures within { result ≤ length start.now }
{
    let before = &start[..start.len().saturating_sub(at.len())];
    before.iter().filter(|b| !goes_on(**b)).count()
}

/// Whether a byte order mark is at the start.
fn begins_mark(text: &[u8]) -> bool
    ensures { result ≡ begins_mark text.now }
{
    match text {
        [239, 187, 191, ..] => true,
        _ => false,
    }
}

/// Whether a tab is at the start.
#[tactic(auto, unfolding(crate::specs::Bytes::begins_tab))]
fn begins_tab(text: &[u8]) -> bool
    ensures { result ≡ begins_tab text.now }
{
    matches!(text, [b'\t', ..])
}

/// Adds what is said of a character.
fn add_character<W: Sink>(
    buffer: &mut TextBuffer,
    at: &[u8],
    len: usize,
    writer: &mut W,
) -> Result<(), WriteFault>
    requires { len ≤ length at.now }
    ensures { Sends (W.log writer.old) (W.log writer.new) buffer.old buffer.new result (character_words at.now len) }
{
    if len <= 1 {
        return buffer.add(b"a byte that is no character of ASCII\n", writer);
    }
    let pieces = [
        Piece::Text(b"\""),
        Piece::Text(&at[..len]),
        Piece::Text(b"\"; names have ASCII letters\n"),
    ];
    add_pieces(buffer, pieces.as_slice(), writer)
}

/// Adds what is said of a tab, or of another character.
fn add_tab<W: Sink>(buffer: &mut TextBuffer, at: &[u8], writer: &mut W) -> Result<(), WriteFault>
    ensures { Sends (W.log writer.old) (W.log writer.new) buffer.old buffer.new result (tab_words at.now) }
{
    if begins_tab(at) {
        return buffer.add(b"a tab; a line of a rung has spaces\n", writer);
    }
    add_character(buffer, at, character_len(at), writer)
}

/// Adds what is said of the bad byte.
fn add_bad_words<W: Sink>(
    buffer: &mut TextBuffer,
    at: &[u8],
    writer: &mut W,
) -> Result<(), WriteFault>
    ensures { Sends (W.log writer.old) (W.log writer.new) buffer.old buffer.new result (bad_words at.now) }
{
    if begins_mark(at) {
        return buffer.add(
            b"a byte order mark; save the file as UTF-8 without BOM\n",
            writer,
        );
    }
    add_tab(buffer, at, writer)
}

/// Adds the place of the bad byte.
fn add_place<W: Sink>(
    buffer: &mut TextBuffer,
    place: usize,
    writer: &mut W,
) -> Result<(), WriteFault>
    ensures { Sends (W.log writer.old) (W.log writer.new) buffer.old buffer.new result (place_text place) }
{
    let pieces = [
        Piece::Text(b"place "),
        Piece::Number(place as u64),
        Piece::Text(b" has "),
    ];
    add_pieces(buffer, pieces.as_slice(), writer)
}

/// Adds where the bad byte is, and what it is.
fn add_bad_at<W: Sink>(
    buffer: &mut TextBuffer,
    place: usize,
    at: &[u8],
    writer: &mut W,
) -> Result<(), WriteFault>
    ensures { Sends (W.log writer.old) (W.log writer.new) buffer.old buffer.new result (place_text place ++ bad_words at.now) }
{
    add_place(buffer, place, writer)?;
    add_bad_words(buffer, at, writer)
}

/// Adds which byte of the line may not stand there, by the text from the start of the line on.
pub(crate) fn add_bad<W: Sink>(
    buffer: &mut TextBuffer,
    start: &[u8],
    at: Option<&[u8]>,
    writer: &mut W,
) -> Result<(), WriteFault>
    ensures { Sends (W.log writer.old) (W.log writer.new) buffer.old buffer.new result (bad_text start.now (option_map (λ l. l.now) at.entry)) }
{
    match at {
        Some(at) => add_bad_at(buffer, place_in(start, at), at, writer),
        None => Ok(()),
    }
}
