//! The lines of a drawing with marks in the place of characters.

ghost use Rattle.std.specs.Prelude.{◌≡◌, ◌<◌, ◌≤◌, length, position, IfSome};
ghost use Rattle.diagram_page.specs.Lines.{part_in};
ghost use Rattle.io_text.specs.Buffer.{Sends};
ghost use Rattle.text_drawing.specs.Marked.{is_line_of, shown_in, shown_whole};
ghost use Rattle.text_drawing.specs.Pictures.{Fits, lines_of};

use crate::picture::Picture;
use diagram_page::Part;
use io_text::{Sink, TextBuffer, WriteFault};
use text_power::add_shown_line;

/// The number of the rung that the line belongs to.
pub(crate) fn rung_of(parts: &[Part], line: usize) -> Option<usize>
    ensures value { result ≡ position (is_line_of line) parts.now }
    ensures within { IfSome result (λ k. (k < length parts.now) × ((part_in parts.now k).start ≤ line)) }
{
    parts
        .iter()
        .position(|part| part.start <= line && line < part.end)
}

/// Adds a line of a text, with its marks where it is a line of a rung.
fn add_line_in<W: Sink>(
    buffer: &mut TextBuffer,
    picture: Picture<'_>,
    line: usize,
    writer: &mut W,
) -> Result<(), WriteFault>
    requires fits { Fits picture }
    requires line { line < length picture.lines.now }
    ensures { Sends (W.log writer.old) (W.log writer.new) buffer.old buffer.new result (shown_in picture.entry.parts.now picture.entry.marks.now (lines_of picture.entry) line (position (is_line_of line) picture.entry.parts.now)) }
{
    match rung_of(picture.parts, line) {
        Some(rung) => add_shown_line(
            buffer,
            picture.marks,
            rung,
            line - picture.parts[rung].start,
            picture.lines[line],
            writer,
        ),
        None => buffer.add(picture.lines[line], writer),
    }
}

/// Adds a line with its marks, and the end of the line.
pub(crate) fn add_whole_line<W: Sink>(
    buffer: &mut TextBuffer,
    picture: Picture<'_>,
    line: usize,
    writer: &mut W,
) -> Result<(), WriteFault>
    requires fits { Fits picture }
    requires line { line < length picture.lines.now }
    ensures { Sends (W.log writer.old) (W.log writer.new) buffer.old buffer.new result (shown_whole picture.entry.parts.now picture.entry.marks.now (lines_of picture.entry) line) }
{
    add_line_in(buffer, picture, line, writer)?;
    buffer.add(b"\n", writer)
}
