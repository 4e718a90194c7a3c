//! A drawing on a page of HTML: its lines with tags, and what a page begins with.

ghost use Rattle.std.specs.Prelude.{◌≡◌, ◌<◌, ◌^◌, length, position, slice_index_or};
ghost use Rattle.diagram_program.specs.declared.geometry.TheConstants.{RUNGS};
ghost use Rattle.diagram_program.specs.Bytes.{space};
ghost use Rattle.io_text.specs.Buffer.{Sends};
ghost use Rattle.text_drawing.specs.Page.{button, drawn_in, drawn_line, drawn_place, drawn_whole, escaped, escaped_line, frame_head, frames_start, heading, page_above, page_begun, page_below, page_head, page_start, turn};
ghost use Rattle.text_drawing.specs.Pictures.{Fits, lines_of, looks_of};
ghost use Rattle.text_power.specs.Show.{each};
ghost use Rattle.text_drawing.specs.Marked.{is_line_of};

use crate::look::{Look, RungLine, look_at, look_before, tags_of};
use crate::marked::rung_of;
use crate::notes::{add_above, add_below};
use crate::picture::Picture;
use io_text::{Piece, Sink, TextBuffer, WriteFault, add_pieces};
use scan_cycle::State;

/// What begins a page, up to its title.
const PAGE_OPENING: &[u8] = b"<!DOCTYPE html>
<html lang=en>
<meta charset=utf-8>
<meta name=viewport content=\"width=device-width,initial-scale=1\">
<title>";

/// The end of its title, and its style. Lines are drawn over the characters, so that those can be copied. A wire reaches into the middle
/// of the characters beside it, and a vertical link into those above and below. On paper the whole width of a drawing fits, upright or
/// across.
const PAGE_STYLE: &[u8] = b"</title>
<style>
:root{color-scheme:light dark;--back:#fff;--text:#1b1f24;--on:#0a6b2d;--tint:#d8f5e2;--off:#6b737c}
@media screen and (prefers-color-scheme:dark){:root{--back:#14171a;--text:#e6e8ea;--on:#3fdc7a;--tint:#123d24;--off:#8d959e}}
body{margin:1.5em;background:var(--back);color:var(--text)}
pre{margin:0;font:1em/1.4 ui-monospace,\"DejaVu Sans Mono\",Consolas,monospace;overflow-x:auto}
b,i{font:inherit;color:transparent;background:linear-gradient(var(--c),var(--c)) no-repeat 50%;-webkit-print-color-adjust:exact;print-color-adjust:exact}
i{--c:var(--off);--t:1px}
b{--c:var(--on);--t:3px}
.w,.p{padding:.1em .5ch;margin:0 -.5ch;background-size:100% var(--t)}
.p{background-image:repeating-linear-gradient(90deg,var(--c) 0 2px,transparent 2px 6px)}
.v{padding:.8em 0;background-size:var(--t) 100%}
.r{--c:var(--text);padding:.2em 0;background-size:2px 100%}
.j{background-image:radial-gradient(circle,var(--c) calc(1.5px + var(--t)/2),transparent calc(2px + var(--t)/2))}
.s{position:relative;color:var(--on);background:var(--tint);font-weight:bold}
@page{margin:1cm}
@media print{body{margin:0}pre{font-size:min(10pt,1.35vw);white-space:pre-wrap;overflow:visible;orphans:9;widows:9}}
";

/// The rest of the style of a page of many pictures. The heading has a row of its own. The buttons are in rows above the picture that is
/// chosen, or the first one while none is. On paper all pictures stand one after the other, none cut in two that fits on a sheet, and the
/// heading before the first one on its sheet; so they do in a browser that can't ask which one is chosen.
const FRAMES_STYLE: &[u8] = b"body{display:flex;flex-wrap:wrap;align-items:center}
h1{flex-basis:100%;margin:0 0 .5em;font:600 1.2em/1.3 system-ui,sans-serif;overflow-wrap:anywhere}
label{order:0;margin:0 .5em .5em 0;padding:.1em .6em;border:1px solid var(--off);border-radius:.3em;font:.9em/1.5 system-ui,sans-serif;cursor:pointer}
label:has(:checked),body:not(:has(:checked))>label:first-of-type{color:var(--on);background:var(--tint);border-color:var(--on);box-shadow:0 0 0 1px var(--on)}
label:has(:focus-visible){outline:2px solid var(--on);outline-offset:3px}
input{position:absolute;margin:0;opacity:0}
pre{order:1;flex-basis:100%;display:none;margin-top:.5em}
label:has(:checked)+pre,body:not(:has(:checked))>pre:first-of-type{display:block}
@supports not selector(:has(a)){body,pre{display:block}}
@media print{body{display:block}h1{break-after:avoid}label{display:none}pre{display:block;break-inside:avoid;margin:0 0 1em;padding-top:.5em;border-top:1px solid var(--off)}}
</style>
";

/// What begins the button of a picture, up to its words.
const BUTTON_START: &[u8] = b"<label><input type=radio name=record>";

/// What the looks mean, after the end of the line above it.
const PAGE_LEGEND: &[u8] = b"
<b class=w>----</b> has power  <i class=w>----</i> has none  <i class=p>----</i> was passed over
<b class=s>| |</b> is closed, or Q is ON  <b class=s>( )</b> is ON after its rung
";

/// The character of a line at a column.
fn char_at(text: &[u8], at: usize) -> u8
    requires { at < length text.now }
    ensures { result ≡ slice_index_or text.now at space }
{
    text[at]
}

/// Adds a character, as HTML escapes it.
fn add_escaped<W: Sink>(buffer: &mut TextBuffer, b: u8, writer: &mut W) -> Result<(), WriteFault>
    ensures { Sends (W.log writer.old) (W.log writer.new) buffer.old buffer.new result (escaped b) }
{
    match b {
        b'&' => buffer.add(b"&amp;", writer),
        b'<' => buffer.add(b"&lt;", writer),
        b'>' => buffer.add(b"&gt;", writer),
        b'"' => buffer.add(b"&quot;", writer),
        _ => {
            let one = [b];
            buffer.add(one.as_slice(), writer)
        }
    }
}

/// Adds the tags between two characters, where they look different.
fn add_turn<W: Sink>(
    buffer: &mut TextBuffer,
    from: Look,
    to: Look,
    writer: &mut W,
) -> Result<(), WriteFault>
    ensures { Sends (W.log writer.old) (W.log writer.new) buffer.old buffer.new result (turn from to) }
{
    let (before, after) = (tags_of(from), tags_of(to));
    if before.opening == after.opening {
        return buffer.add(b"", writer);
    }
    let tags = [Piece::Text(before.closing), Piece::Text(after.opening)];
    add_pieces(buffer, tags.as_slice(), writer)
}

/// Adds a character of a rung, after the tags where its look differs from that before it.
fn add_place<W: Sink>(
    buffer: &mut TextBuffer,
    line: RungLine<'_>,
    at: usize,
    writer: &mut W,
) -> Result<(), WriteFault>
    requires rung { line.rung < RUNGS }
    requires line { line.line < 2 ^ 59 }
    requires within { at < length line.text.now }
    ensures { Sends (W.log writer.old) (W.log writer.new) buffer.old buffer.new result (drawn_place (looks_of line.entry) line.entry.text.now at) }
{
    add_turn(buffer, look_before(line, at), look_at(line, at), writer)?;
    add_escaped(buffer, char_at(line.text, at), writer)
}

/// Adds the characters of a line of a rung, one after the other.
fn add_places<W: Sink>(
    buffer: &mut TextBuffer,
    line: RungLine<'_>,
    writer: &mut W,
) -> Result<(), WriteFault>
    requires rung { line.rung < RUNGS }
    requires line { line.line < 2 ^ 59 }
    ensures { Sends (W.log writer.old) (W.log writer.new) buffer.old buffer.new result (each (drawn_place (looks_of line.entry) line.entry.text.now) (length line.entry.text.now)) }
{
    for at in 0..line.text.len() {
        add_place(buffer, line, at, writer)?;
    }
    Ok(())
}

/// Adds a line of a rung with its tags.
fn add_rung_line<W: Sink>(
    buffer: &mut TextBuffer,
    line: RungLine<'_>,
    writer: &mut W,
) -> Result<(), WriteFault>
    requires rung { line.rung < RUNGS }
    requires line { line.line < 2 ^ 59 }
    ensures { Sends (W.log writer.old) (W.log writer.new) buffer.old buffer.new result (drawn_line line.entry.marks.now line.entry.rung line.entry.line line.entry.text.now) }
{
    add_places(buffer, line, writer)?;
    buffer.add(tags_of(look_before(line, line.text.len())).closing, writer)
}

/// Adds a line that belongs to no rung, without tags.
fn add_escaped_line<W: Sink>(
    buffer: &mut TextBuffer,
    text: &[u8],
    writer: &mut W,
) -> Result<(), WriteFault>
    ensures { Sends (W.log writer.old) (W.log writer.new) buffer.old buffer.new result (escaped_line text.now) }
{
    for at in 0..text.len() {
        add_escaped(buffer, char_at(text, at), writer)?;
    }
    Ok(())
}

/// Adds a line of the drawing, with tags if it belongs to a rung.
fn add_drawn_in<W: Sink>(
    buffer: &mut TextBuffer,
    picture: Picture<'_>,
    line: usize,
    writer: &mut W,
) -> Result<(), WriteFault>
    requires fits { Fits picture }
    requires line { line < length picture.lines.now }
    ensures { Sends (W.log writer.old) (W.log writer.new) buffer.old buffer.new result (drawn_in picture.entry.parts.now picture.entry.marks.now (lines_of picture.entry) line (position (is_line_of line) picture.entry.parts.now)) }
{
    match rung_of(picture.parts, line) {
        Some(rung) => {
            let line = RungLine {
                marks: picture.marks,
                rung,
                line: line - picture.parts[rung].start,
                text: picture.lines[line],
            };
            add_rung_line(buffer, line, writer)
        }
        None => add_escaped_line(buffer, picture.lines[line], writer),
    }
}

/// Adds a line of the drawing and its end.
pub(crate) fn add_drawn_line<W: Sink>(
    buffer: &mut TextBuffer,
    picture: Picture<'_>,
    line: usize,
    writer: &mut W,
) -> Result<(), WriteFault>
    requires fits { Fits picture }
    requires line { line < length picture.lines.now }
    ensures { Sends (W.log writer.old) (W.log writer.new) buffer.old buffer.new result (drawn_whole picture.entry.parts.now picture.entry.marks.now (lines_of picture.entry) line) }
{
    add_drawn_in(buffer, picture, line, writer)?;
    buffer.add(b"\n", writer)
}

/// Adds what a page of HTML begins with: its title, and the style of any page.
#[tactic(auto, unfolding(crate::specs::Page::page_opening, crate::specs::Page::page_style))]
fn add_page_begun<W: Sink>(
    buffer: &mut TextBuffer,
    title: &[u8],
    writer: &mut W,
) -> Result<(), WriteFault>
    ensures { Sends (W.log writer.old) (W.log writer.new) buffer.old buffer.new result (page_begun title.now) }
{
    buffer.add(PAGE_OPENING, writer)?;
    add_escaped_line(buffer, title, writer)?;
    buffer.add(PAGE_STYLE, writer)
}

/// Adds what a page with one picture begins with.
#[tactic(auto, unfolding(crate::specs::Page::page_start))]
fn add_page_start<W: Sink>(buffer: &mut TextBuffer, writer: &mut W) -> Result<(), WriteFault>
    ensures { Sends (W.log writer.old) (W.log writer.new) buffer.old buffer.new result page_start }
{
    add_page_begun(buffer, b"Ladder diagram", writer)?;
    buffer.add(b"</style>\n<pre>\n", writer)
}

/// Adds the heading of a page.
fn add_heading<W: Sink>(
    buffer: &mut TextBuffer,
    title: &[u8],
    writer: &mut W,
) -> Result<(), WriteFault>
    ensures { Sends (W.log writer.old) (W.log writer.new) buffer.old buffer.new result (heading title.now) }
{
    buffer.add(b"<h1>", writer)?;
    add_escaped_line(buffer, title, writer)?;
    buffer.add(b"</h1>\n", writer)
}

/// Adds what the page of a film, with many pictures, begins with: the film's name is its title, and its heading.
#[tactic(auto, unfolding(crate::specs::Page::frames_style))]
pub(crate) fn add_frames_start<W: Sink>(
    buffer: &mut TextBuffer,
    title: &[u8],
    writer: &mut W,
) -> Result<(), WriteFault>
    ensures { Sends (W.log writer.old) (W.log writer.new) buffer.old buffer.new result (frames_start title.now) }
{
    add_page_begun(buffer, title, writer)?;
    buffer.add(FRAMES_STYLE, writer)?;
    add_heading(buffer, title, writer)
}

/// Adds what is written above the lines of a picture: the moment and the inputs, and what the looks mean.
#[tactic(auto, unfolding(crate::specs::Page::page_legend))]
fn add_page_above<W: Sink>(
    buffer: &mut TextBuffer,
    picture: Picture<'_>,
    writer: &mut W,
) -> Result<(), WriteFault>
    ensures { Sends (W.log writer.old) (W.log writer.new) buffer.old buffer.new result (page_above picture.entry.program.now picture.entry.after.now) }
{
    add_above(buffer, picture, b"At ", b"\n    ", PAGE_LEGEND, writer)
}

/// Adds what is written below the lines of a picture: the values of the other variables, and `end`.
pub(crate) fn add_page_below<W: Sink>(
    buffer: &mut TextBuffer,
    picture: Picture<'_>,
    end: &[u8],
    writer: &mut W,
) -> Result<(), WriteFault>
    ensures { Sends (W.log writer.old) (W.log writer.new) buffer.old buffer.new result (page_below picture.entry.program.now picture.entry.after.now end.now) }
{
    add_below(buffer, picture, b"\nAfter it:", b"\n    ", end, writer)
}

/// Adds what is written above the lines of a page with one picture.
pub(crate) fn add_page_head<W: Sink>(
    buffer: &mut TextBuffer,
    picture: Picture<'_>,
    writer: &mut W,
) -> Result<(), WriteFault>
    ensures { Sends (W.log writer.old) (W.log writer.new) buffer.old buffer.new result (page_head picture.entry.program.now picture.entry.after.now) }
{
    add_page_start(buffer, writer)?;
    add_page_above(buffer, picture, writer)
}

/// Adds the button by which a picture of a film is chosen: the moment of its scan, in ms.
fn add_button<W: Sink>(
    buffer: &mut TextBuffer,
    after: &State,
    writer: &mut W,
) -> Result<(), WriteFault>
    ensures { Sends (W.log writer.old) (W.log writer.new) buffer.old buffer.new result (button after.now) }
{
    let pieces = [
        Piece::Text(BUTTON_START),
        Piece::Number(after.moment()),
        Piece::Text(b" ms</label>\n<pre>\n"),
    ];
    add_pieces(buffer, pieces.as_slice(), writer)
}

/// Adds what is written above the lines of one picture of a film.
pub(crate) fn add_frame_head<W: Sink>(
    buffer: &mut TextBuffer,
    picture: Picture<'_>,
    writer: &mut W,
) -> Result<(), WriteFault>
    ensures { Sends (W.log writer.old) (W.log writer.new) buffer.old buffer.new result (frame_head picture.entry.program.now picture.entry.after.now) }
{
    add_button(buffer, picture.after, writer)?;
    add_page_above(buffer, picture, writer)
}
