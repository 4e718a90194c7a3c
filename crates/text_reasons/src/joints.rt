//! G4: what reaches over the place of a joint. G5: where a vertical link lacks its end.

ghost use Rattle.std.specs.Prelude.{◌≡◌, ◌<◌, ◌≤◌, ◌+◌, ◌-◌, IsTrue, length};
ghost use Rattle.std.specs.List.{suffix_len};
ghost use Rattle.diagram_declarations.specs.Text.{begins, is_word_byte};
ghost use Rattle.diagram_program.specs.Bytes.{is_upright};
ghost use Rattle.io_text.specs.Buffer.{Sends};
ghost use Rattle.text_reasons.specs.Joints.{above_text, byte_at, crossing_text, end_text, has_end, is_crossed, is_in_rung, joint_text, line_in, link_text, missing_text, word_across};

use crate::names::word_len;
use crate::quote::line_of;
use io_text::{Piece, Sink, TextBuffer, WriteFault, add_pieces};

/// The line of a text with this number, counted from 1; an empty one where there is none.
pub(crate) fn line_in(text: &[u8], number: usize) -> &[u8]
    ensures { result.now ≡ line_in text.now number }
{
    if number == 0 {
        return &[];
    }
    match line_of(text, number - 1) {
        Some(line) => line,
        None => &[],
    }
}

/// The character of a line at a place, a space past its end.
pub(crate) fn byte_at(line: &[u8], place: usize) -> u8
    ensures { result ≡ byte_at line.now place }
{
    if place < line.len() {
        line[place]
    } else {
        b' '
    }
}

/// Whether a byte is one of a word.
fn is_word_byte(b: u8) -> bool
    ensures { result ≡ is_word_byte b }
{
    b.is_ascii_alphanumeric() || matches!(b, b'_' | b'#' | b'.')
}

/// How many bytes at the end are those of one word.
fn word_len_back(text: &[u8]) -> usize
    ensures value { result ≡ suffix_len is_word_byte text.now }
    ensures within { result ≤ length text.now }
{
    text.iter().rev().take_while(|b| is_word_byte(**b)).count()
}

/// The word on both sides of a place.
#[tactic(auto, unfolding(crate::specs::Joints::word_across))]
fn word_across(line: &[u8], place: usize) -> &[u8]
    requires { place < length line.now }
    ensures { result.now ≡ word_across line.now place }
{
    let (before, behind) = line.split_at(place);
    let start = before.len() - word_len_back(before);
    let end = before.len() + word_len(behind);
    &line[start..end]
}

/// Whether the character at a place is one of a word.
#[tactic(auto, unfolding(crate::specs::Joints::is_crossed))]
fn is_crossed(line: &[u8], place: usize) -> bool
    ensures value { result ≡ is_crossed line.now place }
    ensures within { IsTrue result → place < length line.now }
{
    place < line.len() && is_word_byte(line[place])
}

/// Adds the word that reaches over a place.
fn add_crossing<'a, W: Sink>(
    buffer: &mut TextBuffer,
    word: &'a [u8],
    reaches: &'a [u8],
    place: usize,
    writer: &mut W,
) -> Result<(), WriteFault>
    ensures { Sends (W.log writer.old) (W.log writer.new) buffer.old buffer.new result (crossing_text word.now reaches.now place) }
{
    let pieces = [
        Piece::Text(word),
        Piece::Text(reaches),
        Piece::Number(place as u64),
        Piece::Text(b"\n"),
    ];
    add_pieces(buffer, pieces.as_slice(), writer)
}

/// Adds what reaches over the place of a joint.
pub(crate) fn add_joint<W: Sink>(
    buffer: &mut TextBuffer,
    line: &[u8],
    place: usize,
    writer: &mut W,
) -> Result<(), WriteFault>
    ensures { Sends (W.log writer.old) (W.log writer.new) buffer.old buffer.new result (joint_text line.now place) }
{
    if is_crossed(line, place) {
        return add_crossing(
            buffer,
            word_across(line, place),
            b" reaches over place ",
            place,
            writer,
        );
    }
    Ok(())
}

/// Whether a character is a bar or a `+`.
fn is_upright(b: u8) -> bool
    ensures { result ≡ is_upright b }
{
    b == b'|' || b == b'+'
}

/// Whether a line is one of a rung.
fn begins_rung(line: &[u8]) -> bool
    ensures { result ≡ begins is_upright line.now }
{
    match line {
        [] => false,
        [b, ..] => is_upright(*b),
    }
}

/// Adds that a link lacks an end.
fn add_missing<W: Sink>(
    buffer: &mut TextBuffer,
    side: &[u8],
    line: usize,
    place: usize,
    writer: &mut W,
) -> Result<(), WriteFault>
    ensures { Sends (W.log writer.old) (W.log writer.new) buffer.old buffer.new result (missing_text side.now line place) }
{
    let pieces = [
        Piece::Text(b"the + "),
        Piece::Text(side),
        Piece::Text(b" it, line "),
        Piece::Number(line as u64),
        Piece::Text(b" place "),
        Piece::Number(place as u64),
        Piece::Text(b", is missing\n"),
    ];
    add_pieces(buffer, pieces.as_slice(), writer)
}

/// Whether a bar or a `+` is at this place of the line.
#[tactic(auto, unfolding(crate::specs::Joints::has_end))]
fn has_end(text: &[u8], line: usize, place: usize) -> bool
    ensures { result ≡ has_end text.now line place }
{
    is_upright(byte_at(line_in(text, line), place))
}

/// Adds that a link lacks an end, where it does.
fn add_end<W: Sink>(
    buffer: &mut TextBuffer,
    text: &[u8],
    side: &[u8],
    line: usize,
    place: usize,
    writer: &mut W,
) -> Result<(), WriteFault>
    ensures { Sends (W.log writer.old) (W.log writer.new) buffer.old buffer.new result (end_text text.now side.now line place) }
{
    if has_end(text, line, place) {
        return Ok(());
    }
    add_missing(buffer, side, line, place, writer)
}

/// Whether a line of the text is one of a rung.
#[tactic(auto, unfolding(crate::specs::Joints::is_in_rung))]
fn is_in_rung(text: &[u8], line: usize) -> bool
    ensures { result ≡ is_in_rung text.now line }
{
    begins_rung(line_in(text, line))
}

/// Adds that a link lacks its upper end, where it does.
fn add_above<W: Sink>(
    buffer: &mut TextBuffer,
    text: &[u8],
    line: usize,
    place: usize,
    writer: &mut W,
) -> Result<(), WriteFault>
    ensures { Sends (W.log writer.old) (W.log writer.new) buffer.old buffer.new result (above_text text.now line place) }
{
    if is_in_rung(text, line) {
        return add_end(buffer, text, b"above", line, place, writer);
    }
    buffer.add(b"no row is above it\n", writer)
}

/// Adds which end a link lacks, by the line on which its bar is.
pub(crate) fn add_link<W: Sink>(
    buffer: &mut TextBuffer,
    text: &[u8],
    line: usize,
    place: usize,
    writer: &mut W,
) -> Result<(), WriteFault>
    requires { line ≤ length text.now }
    ensures { Sends (W.log writer.old) (W.log writer.new) buffer.old buffer.new result (link_text text.now line place) }
{
    add_above(buffer, text, line.saturating_sub(1), place, writer)?;
    add_end(buffer, text, b"below", line + 1, place, writer)
}
