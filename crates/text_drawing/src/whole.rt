//! The whole text: the lines with their marks, and what is noted beside them.

ghost use Rattle.std.specs.Prelude.{◌<◌, length, position};
ghost use Rattle.io_text.specs.Buffer.{Sends};
ghost use Rattle.io_text.specs.Log.{Puts};
ghost use Rattle.text_drawing.specs.Marked.{is_line_of};
ghost use Rattle.text_drawing.specs.Pictures.{Fits, lines_drawn, of_picture};
ghost use Rattle.text_drawing.specs.Showing.{end_of, film_start, head_of, tail_of, whole_of, why_of, why_on};
ghost use Rattle.text_drawing.specs.Notes.{head_line, kept_line, noted_line, noted_lines, notes_behind, tail_line};

use crate::marked::{add_whole_line, rung_of};
use crate::notes::{add_above, add_below, add_rung_notes};
use crate::page::{
    add_drawn_line, add_frame_head, add_frames_start, add_page_below, add_page_head,
};
use crate::picture::{Picture, Style};
use io_text::{Sink, TextBuffer, WriteFault};
use text_power::add_why;

/// Adds the notes on a rung after its last line, and nothing after any other line.
fn add_notes_behind<W: Sink>(
    buffer: &mut TextBuffer,
    picture: Picture<'_>,
    line: usize,
    writer: &mut W,
) -> Result<(), WriteFault>
    requires fits { Fits picture }
    requires line { line < length picture.lines.now }
    ensures { Sends (W.log writer.old) (W.log writer.new) buffer.old buffer.new result (notes_behind picture.entry.program.now picture.entry.after.now picture.entry.parts.now picture.entry.marks.now line (position (is_line_of line) picture.entry.parts.now)) }
{
    match rung_of(picture.parts, line) {
        Some(rung) => {
            if line + 1 == picture.parts[rung].end {
                add_rung_notes(buffer, picture, rung, writer)
            } else {
                buffer.add(b"", writer)
            }
        }
        None => buffer.add(b"", writer),
    }
}

/// Adds a line of the drawing in its style: with marks in a text, with tags on a page.
fn add_line<W: Sink>(
    buffer: &mut TextBuffer,
    picture: Picture<'_>,
    line: usize,
    writer: &mut W,
) -> Result<(), WriteFault>
    requires fits { Fits picture }
    requires line { line < length picture.lines.now }
    ensures { Sends (W.log writer.old) (W.log writer.new) buffer.old buffer.new result (lines_drawn picture.entry line) }
{
    match picture.style {
        Style::Marked | Style::MarkedFrame => add_whole_line(buffer, picture, line, writer),
        Style::Page | Style::PageFrame => add_drawn_line(buffer, picture, line, writer),
    }
}

/// Adds a line of the drawing, and the notes that follow it.
fn add_noted_line<W: Sink>(
    buffer: &mut TextBuffer,
    picture: Picture<'_>,
    line: usize,
    writer: &mut W,
) -> Result<(), WriteFault>
    requires fits { Fits picture }
    requires line { line < length picture.lines.now }
    ensures { Sends (W.log writer.old) (W.log writer.new) buffer.old buffer.new result (noted_line (lines_drawn picture.entry) picture.entry.program.now picture.entry.after.now picture.entry.parts.now picture.entry.marks.now line) }
{
    add_line(buffer, picture, line, writer)?;
    add_notes_behind(buffer, picture, line, writer)
}

/// Adds a line, unless it is the first, which the declarations end in, or an empty last one.
fn add_kept_line<W: Sink>(
    buffer: &mut TextBuffer,
    picture: Picture<'_>,
    line: usize,
    writer: &mut W,
) -> Result<(), WriteFault>
    requires fits { Fits picture }
    requires line { line < length picture.lines.now }
    ensures { Sends (W.log writer.old) (W.log writer.new) buffer.old buffer.new result (of_picture (kept_line (lines_drawn picture.entry)) picture.entry line) }
{
    let last = line + 1 == picture.lines.len();
    if line == 0 || (last && picture.lines[line].is_empty()) {
        buffer.add(b"", writer)
    } else {
        add_noted_line(buffer, picture, line, writer)
    }
}

/// Adds all lines of the drawing with the notes on their rungs.
fn add_noted_lines<W: Sink>(
    buffer: &mut TextBuffer,
    picture: Picture<'_>,
    writer: &mut W,
) -> Result<(), WriteFault>
    requires { Fits picture }
    ensures { Sends (W.log writer.old) (W.log writer.new) buffer.old buffer.new result (of_picture (noted_lines (lines_drawn picture.entry)) picture.entry) }
{
    for line in 0..picture.lines.len() {
        add_kept_line(buffer, picture, line, writer)?;
    }
    Ok(())
}

/// Adds what is written above the lines of a text.
fn add_text_head<W: Sink>(
    buffer: &mut TextBuffer,
    picture: Picture<'_>,
    writer: &mut W,
) -> Result<(), WriteFault>
    ensures { Sends (W.log writer.old) (W.log writer.new) buffer.old buffer.new result (head_line picture.entry.program.now picture.entry.after.now) }
{
    add_above(
        buffer,
        picture,
        b"(* at ",
        b" *)\n(* ",
        b" *)\n(* === live  [ ] closed, or Q is ON  { } ON after its rung  ... passed over *)\n",
        writer,
    )
}

/// Adds what is written below the lines of a text, up to `end`.
fn add_text_tail<W: Sink>(
    buffer: &mut TextBuffer,
    picture: Picture<'_>,
    end: &[u8],
    writer: &mut W,
) -> Result<(), WriteFault>
    ensures { Sends (W.log writer.old) (W.log writer.new) buffer.old buffer.new result (tail_line picture.entry.program.now picture.entry.after.now end.now) }
{
    add_below(buffer, picture, b"\n(* after it:", b" *)\n(* ", end, writer)
}

/// Adds what is written above the lines, by the style of the drawing.
fn add_head<W: Sink>(
    buffer: &mut TextBuffer,
    picture: Picture<'_>,
    writer: &mut W,
) -> Result<(), WriteFault>
    ensures { Sends (W.log writer.old) (W.log writer.new) buffer.old buffer.new result (head_of picture.entry.style picture.entry.program.now picture.entry.after.now) }
{
    match picture.style {
        Style::Marked | Style::MarkedFrame => add_text_head(buffer, picture, writer),
        Style::Page => add_page_head(buffer, picture, writer),
        Style::PageFrame => add_frame_head(buffer, picture, writer),
    }
}

/// Adds why the coils of the variable that is explained have power, or none, after an empty line.
fn add_why_on<W: Sink>(
    buffer: &mut TextBuffer,
    picture: Picture<'_>,
    var: usize,
    writer: &mut W,
) -> Result<(), WriteFault>
    ensures { Sends (W.log writer.old) (W.log writer.new) buffer.old buffer.new result (why_on picture.entry.program.now picture.entry.marks.now var) }
{
    buffer.add(b"\n", writer)?;
    add_why(buffer, picture.program, picture.marks, var, writer)
}

/// Adds why the coils of a variable have power, or none, where one is asked for.
fn add_why_of<W: Sink>(
    buffer: &mut TextBuffer,
    picture: Picture<'_>,
    writer: &mut W,
) -> Result<(), WriteFault>
    ensures { Sends (W.log writer.old) (W.log writer.new) buffer.old buffer.new result (why_of picture.entry.coil picture.entry.program.now picture.entry.marks.now) }
{
    match picture.coil {
        Some(var) => add_why_on(buffer, picture, var, writer),
        None => buffer.add(b"", writer),
    }
}

/// Adds what a drawing ends with, by its style: the values of the variables, and the end of a page.
fn add_tail_of<W: Sink>(
    buffer: &mut TextBuffer,
    picture: Picture<'_>,
    writer: &mut W,
) -> Result<(), WriteFault>
    ensures { Sends (W.log writer.old) (W.log writer.new) buffer.old buffer.new result (tail_of picture.entry.style picture.entry.program.now picture.entry.after.now) }
{
    match picture.style {
        Style::Marked => add_text_tail(buffer, picture, b" *)\n", writer),
        Style::MarkedFrame => add_text_tail(buffer, picture, b" *)\n\n", writer),
        Style::Page => add_page_below(buffer, picture, b"\n</pre>\n</html>\n", writer),
        Style::PageFrame => add_page_below(buffer, picture, b"\n</pre>\n", writer),
    }
}

/// Adds what is written below the lines: why coils have power, if that is asked for, and the values of the variables.
fn add_end<W: Sink>(
    buffer: &mut TextBuffer,
    picture: Picture<'_>,
    writer: &mut W,
) -> Result<(), WriteFault>
    ensures { Sends (W.log writer.old) (W.log writer.new) buffer.old buffer.new result (end_of picture.entry.style picture.entry.coil picture.entry.program.now picture.entry.after.now picture.entry.marks.now) }
{
    add_why_of(buffer, picture, writer)?;
    add_tail_of(buffer, picture, writer)
}

/// Adds the whole text of one scan: its head, the lines with their notes, and its end.
fn add_noted<W: Sink>(
    buffer: &mut TextBuffer,
    picture: Picture<'_>,
    writer: &mut W,
) -> Result<(), WriteFault>
    requires { Fits picture }
    ensures { Sends (W.log writer.old) (W.log writer.new) buffer.old buffer.new result (of_picture (whole_of picture.entry.style picture.entry.coil) picture.entry) }
{
    add_head(buffer, picture, writer)?;
    add_noted_lines(buffer, picture, writer)?;
    add_end(buffer, picture, writer)
}

/// Writes the whole text of one scan, and empties the buffer.
///
/// # Errors
///
/// The writer failed. What was written is a prefix of the text.
pub(crate) fn write_noted<W: Sink>(picture: Picture<'_>, writer: &mut W) -> Result<(), WriteFault>
    requires { Fits picture }
    ensures { Puts (W.log writer.old) (W.log writer.new) result (of_picture (whole_of picture.entry.style picture.entry.coil) picture.entry) }
{
    let mut buffer = TextBuffer::new();
    add_noted(&mut buffer, picture, writer)?;
    buffer.flush(writer)
}

/// Adds what a film begins with: a page of HTML has a head with its title, a text has none.
fn add_film_start<W: Sink>(
    buffer: &mut TextBuffer,
    style: Style,
    title: &[u8],
    writer: &mut W,
) -> Result<(), WriteFault>
    ensures { Sends (W.log writer.old) (W.log writer.new) buffer.old buffer.new result (film_start style title.now) }
{
    match style {
        Style::Marked | Style::MarkedFrame | Style::Page => buffer.add(b"", writer),
        Style::PageFrame => add_frames_start(buffer, title, writer),
    }
}

/// Writes what a film begins with, before its drawings. A page has this title, also as its heading.
///
/// # Errors
///
/// The writer failed. What was written is a prefix of it.
pub fn write_film_start<W: Sink>(
    style: Style,
    title: &[u8],
    writer: &mut W,
) -> Result<(), WriteFault>
    ensures { Puts (W.log writer.old) (W.log writer.new) result (film_start style title.now) }
{
    let mut buffer = TextBuffer::new();
    add_film_start(&mut buffer, style, title, writer)?;
    buffer.flush(writer)
}
