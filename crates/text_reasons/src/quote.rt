//! The lines of a text near a fault, with their numbers.

ghost use Rattle.std.specs.Prelude.{◌≡◌, ◌+◌, ◌++◌, ◌-◌, ◌==◌, ◌<◌, ◌≤◌, ◌^◌, codes, decimal, false, length, map, IfSome, option_map, replicate, slice_get, take, true};
ghost use Rattle.std.specs.List.{slice_split};
ghost use Rattle.diagram_program.specs.Bytes.{line_feed, space};
ghost use Rattle.text_reasons.specs.declared.quote.TheConstants.{DIGITS, WIDEST, WIDTH};
ghost use Rattle.diagram_program.specs.declared.geometry.TheConstants.{CELL};
ghost use Rattle.io_text.specs.Buffer.{Sends};
ghost use Rattle.text_reasons.specs.Reasons.{MayStand, caret, marks_text, near, numbered, quote, quoted, quoted_byte};

use diagram_program::geometry::{CELL, RAIL};
use io_text::{Piece, Sink, TextBuffer, WriteFault, add_pieces};
use itoa::Buffer;

/// How wide the number of a line is, where it has no more digits.
const DIGITS: usize = 5;

/// How many bytes of a line are quoted at most.
const WIDTH: usize = 160;

/// How many spaces there are in a row at most.
pub const WIDEST: usize = RAIL + 1;

const SPACES: &[u8; WIDEST] = &[b' '; WIDEST];

/// What is written before a line that has no number.
const MARGIN: &[u8] = b"        | ";

const CARETS: &[u8; CELL] = &[b'^'; CELL];

/// What is written under a quoted line.
#[derive(Clone, Copy)]
pub struct Marks {
    /// How many spaces come first, at most `WIDEST`.
    pub indent: usize,
    /// How many marks there are, at most as many as a cell is wide.
    pub count: usize,
}

/// A byte as it is quoted: `?` for a control character, so that no terminal acts on it.
fn quoted_byte(byte: u8) -> u8
    ensures { result ≡ quoted_byte byte }
{
    if byte < b' ' || byte == 127 {
        b'?'
    } else {
        byte
    }
}

/// Adds the bytes of a line with control characters replaced, so that no terminal acts on them.
fn add_bytes<W: Sink>(
    buffer: &mut TextBuffer,
    bytes: &[u8],
    writer: &mut W,
) -> Result<(), WriteFault>
    ensures { Sends (W.log writer.old) (W.log writer.new) buffer.old buffer.new result (map quoted_byte bytes.now) }
{
    for byte in bytes {
        buffer.add(&[quoted_byte(*byte)], writer)?;
    }
    Ok(())
}

/// This many spaces, by which marks get below their column.
fn spaces(count: usize) -> &'static [u8]
    requires { count ≤ WIDEST }
    ensures { result.now ≡ replicate count space }
{
    &SPACES[..count]
}

/// This many carets, which mark what is wrong.
fn carets(count: usize) -> &'static [u8]
    requires { count ≤ CELL }
    ensures { result.now ≡ replicate count caret }
{
    &CARETS[..count]
}

/// Adds the line with marks under a quoted line, if there are any.
fn add_marks<W: Sink>(
    buffer: &mut TextBuffer,
    marks: Option<Marks>,
    writer: &mut W,
) -> Result<(), WriteFault>
    requires { IfSome marks MayStand }
    ensures { Sends (W.log writer.old) (W.log writer.new) buffer.old buffer.new result (marks_text marks) }
{
    match marks {
        Some(Marks { indent, count }) => {
            let pieces = [
                Piece::Text(MARGIN),
                Piece::Text(spaces(indent)),
                Piece::Text(carets(count)),
                Piece::Text(b"\n"),
            ];
            add_pieces(buffer, pieces.as_slice(), writer)
        }
        None => Ok(()),
    }
}

/// How many spaces fill up the number of a line, so that all numbers are as wide.
fn missing(number: usize) -> usize
    ensures value { result ≡ DIGITS - length (decimal number) }
    ensures few { result ≤ DIGITS }
{
    let mut digits = Buffer::new();
    DIGITS.saturating_sub(digits.format(number).len())
}

/// Adds the number of a quoted line, and whether the fault is in this one.
fn add_number<W: Sink>(
    buffer: &mut TextBuffer,
    is_it: bool,
    number: usize,
    writer: &mut W,
) -> Result<(), WriteFault>
    ensures { Sends (W.log writer.old) (W.log writer.new) buffer.old buffer.new result (numbered is_it number) }
{
    let pieces = [
        Piece::Text(if is_it { b"> " } else { b"  " }),
        Piece::Text(spaces(missing(number))),
        Piece::Number(number as u64),
        Piece::Text(b" | "),
    ];
    add_pieces(buffer, pieces.as_slice(), writer)
}

/// The part of a line that is quoted, at most `WIDTH` bytes.
fn start(line: &[u8]) -> &[u8]
    ensures { result.now ≡ take WIDTH line.now }
{
    &line[..WIDTH.min(line.len())]
}

/// Adds as much of a line as is quoted, and its end.
fn add_end<W: Sink>(buffer: &mut TextBuffer, line: &[u8], writer: &mut W) -> Result<(), WriteFault>
    ensures { Sends (W.log writer.old) (W.log writer.new) buffer.old buffer.new result (map quoted_byte (take WIDTH line.now) ++ codes "\n") }
{
    add_bytes(buffer, start(line), writer)?;
    buffer.add(b"\n", writer)
}

/// Adds a quoted line with its number.
fn add_line<W: Sink>(
    buffer: &mut TextBuffer,
    is_it: bool,
    number: usize,
    line: &[u8],
    writer: &mut W,
) -> Result<(), WriteFault>
    ensures { Sends (W.log writer.old) (W.log writer.new) buffer.old buffer.new result (quoted is_it number line.now) }
{
    add_number(buffer, is_it, number, writer)?;
    add_end(buffer, line, writer)
}

/// The line of a text with this number, counted from 0, if there is one.
pub(crate) fn line_of(text: &[u8], number: usize) -> Option<&[u8]>
    ensures { option_map (λ l. l.now) result ≡ slice_get (slice_split (λ b. b == line_feed) text.now) number }
{
    text.split(|b| *b == b'\n').nth(number)
}

/// Adds the quoted line with this number, counted from 1, if the text has it.
fn add_quote<W: Sink>(
    buffer: &mut TextBuffer,
    text: &[u8],
    is_it: bool,
    number: usize,
    writer: &mut W,
) -> Result<(), WriteFault>
    ensures { Sends (W.log writer.old) (W.log writer.new) buffer.old buffer.new result (quote text.now is_it number) }
{
    if number == 0 {
        return Ok(());
    }
    match line_of(text, number - 1) {
        Some(line) => add_line(buffer, is_it, number, line, writer),
        None => Ok(()),
    }
}

/// Adds the marks under the line where a fault shows, and the line after it.
fn add_below<W: Sink>(
    buffer: &mut TextBuffer,
    text: &[u8],
    line: usize,
    marks: Option<Marks>,
    writer: &mut W,
) -> Result<(), WriteFault>
    requires { IfSome marks MayStand }
    ensures { Sends (W.log writer.old) (W.log writer.new) buffer.old buffer.new result (marks_text marks ++ quote text.now false (line + 1)) }
{
    add_marks(buffer, marks, writer)?;
    // A text has at most one line more than it has bytes.
    if text.len() < line {
        return Ok(());
    }
    add_quote(buffer, text, false, line + 1, writer)
}

/// Adds the line where a fault shows, the marks under it, and the line after it.
fn add_from<W: Sink>(
    buffer: &mut TextBuffer,
    text: &[u8],
    line: usize,
    marks: Option<Marks>,
    writer: &mut W,
) -> Result<(), WriteFault>
    requires { IfSome marks MayStand }
    ensures { Sends (W.log writer.old) (W.log writer.new) buffer.old buffer.new result (quote text.now true line ++ (marks_text marks ++ quote text.now false (line + 1))) }
{
    add_quote(buffer, text, true, line, writer)?;
    add_below(buffer, text, line, marks, writer)
}

/// Adds the line where a fault shows, with the marks under it, and the lines before and after it.
pub fn add_near<W: Sink>(
    buffer: &mut TextBuffer,
    text: &[u8],
    line: usize,
    marks: Option<Marks>,
    writer: &mut W,
) -> Result<(), WriteFault>
    requires { IfSome marks MayStand }
    ensures { Sends (W.log writer.old) (W.log writer.new) buffer.old buffer.new result (near text.now line (marks_text marks)) }
{
    // Out of memory shows on no line.
    if line == 0 {
        return Ok(());
    }
    add_quote(buffer, text, false, line - 1, writer)?;
    add_from(buffer, text, line, marks, writer)
}
