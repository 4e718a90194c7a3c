//! How a character of the drawing looks on a page.

ghost use Rattle.std.specs.Prelude.{◌≡◌, ◌<◌, ◌^◌, ◌≤◌, ◌==◌, ◌+◌, ◌*◌, ◌/◌, length, slice_range};
ghost use Rattle.std.specs.List.{list_all};
ghost use Rattle.diagram_program.specs.declared.geometry.TheConstants.{PITCH, RUNGS};
ghost use Rattle.diagram_program.specs.Bytes.{space};
ghost use Rattle.text_drawing.specs.Page.{before, closing, opening, wire_look};
ghost use Rattle.text_drawing.specs.Pictures.{looks_of};

use diagram_program::geometry::{PITCH, RAIL};
use scan_cycle::Mark;
use text_power::{are_dashes, mark_in};

/// What a character of a drawing is, and where it is one of a wire, a link or a joint, whether that has power.
#[derive(Clone, Copy)]
pub(crate) enum Look {
    /// A name, a blank, or a symbol that is not on.
    Plain,
    Rail,
    /// A wire of a rung that was passed over.
    Passed,
    Wire(bool),
    Link(bool),
    Joint(bool),
    /// A symbol that is on.
    On,
}

/// A line of a rung with what was seen, by the number of the rung and the place of the line in it.
#[derive(Clone, Copy)]
pub(crate) struct RungLine<'a> {
    pub marks: &'a [Mark],
    pub rung: usize,
    pub line: usize,
    pub text: &'a [u8],
}

/// The tags before and after characters.
#[derive(Clone, Copy)]
pub(crate) struct Tags {
    pub opening: &'static [u8],
    pub closing: &'static [u8],
}

/// An opening tag and the closing tag that ends it.
fn tag_pair(opening: &'static [u8], closing: &'static [u8]) -> Tags
    ensures { (result.opening.now ≡ opening.now) × (result.closing.now ≡ closing.now) }
{
    Tags { opening, closing }
}

/// The tags around characters with this look; what a style sheet makes of them is in the head of the page.
pub(crate) fn tags_of(look: Look) -> Tags
    ensures opening { result.opening.now ≡ opening look }
    ensures closing { result.closing.now ≡ closing look }
{
    match look {
        Look::Plain => tag_pair(b"", b""),
        Look::Rail => tag_pair(b"<i class=r>", b"</i>"),
        Look::Passed => tag_pair(b"<i class=p>", b"</i>"),
        Look::Wire(false) => tag_pair(b"<i class=w>", b"</i>"),
        Look::Wire(true) => tag_pair(b"<b class=w>", b"</b>"),
        Look::Link(false) => tag_pair(b"<i class=v>", b"</i>"),
        Look::Link(true) => tag_pair(b"<b class=v>", b"</b>"),
        Look::Joint(false) => tag_pair(b"<i class=j>", b"</i>"),
        Look::Joint(true) => tag_pair(b"<b class=j>", b"</b>"),
        Look::On => tag_pair(b"<b class=s>", b"</b>"),
    }
}

/// How a `-` looks: by its power, or as passed over if its rung was.
fn wire_look(evaluated: bool, power: bool) -> Look
    ensures { result ≡ wire_look evaluated power }
{
    if evaluated {
        Look::Wire(power)
    } else {
        Look::Passed
    }
}

/// Whether a text is spaces alone.
fn are_blank(text: &[u8]) -> bool
    ensures { result ≡ list_all (λ c. c == space) text.now }
{
    text.iter().all(|b| *b == b' ')
}

/// Whether the rest of a cell, from a character on, is blank.
fn is_blank_from(text: &[u8], at: usize) -> bool
    requires { at < length text.now }
    ensures { result ≡ list_all (λ c. c == space) (slice_range text.now at (PITCH * (at / PITCH) + PITCH)) }
{
    let end = PITCH * (at / PITCH) + PITCH;
    are_blank(&text[at..end.min(text.len())])
}

/// How the character at a place looks.
pub(crate) fn look_at(line: RungLine<'_>, at: usize) -> Look
    requires rung { line.rung < RUNGS }
    requires line { line.line < 2 ^ 59 }
    requires within { at < length line.text.now }
    ensures { result ≡ looks_of line.entry at }
{
    let b = line.text[at];
    if at == 0 || at == RAIL {
        return if b == b'|' { Look::Rail } else { Look::Plain };
    }
    if RAIL < at {
        return Look::Plain;
    }
    let mark = mark_in(line.marks, line.rung, line.line / 2, at / PITCH);
    if at % PITCH == 0 {
        return match b {
            b'-' => wire_look(mark.evaluated, mark.left),
            b'+' => Look::Joint(mark.left),
            b'|' => Look::Link(mark.left),
            _ => Look::Plain,
        };
    }
    if line.line % 2 == 0 {
        return Look::Plain;
    }
    if b == b'-' {
        let front = are_dashes(&line.text[PITCH * (at / PITCH) + 1..at]);
        return wire_look(mark.evaluated, if front { mark.left } else { mark.right });
    }
    if mark.on && !is_blank_from(line.text, at) {
        Look::On
    } else {
        Look::Plain
    }
}

/// How the character before a place looks; one at the begin of a line follows a plain one.
pub(crate) fn look_before(line: RungLine<'_>, at: usize) -> Look
    requires rung { line.rung < RUNGS }
    requires line { line.line < 2 ^ 59 }
    requires within { at ≤ length line.text.now }
    ensures { result ≡ before (looks_of line.entry) at }
{
    if at == 0 {
        Look::Plain
    } else {
        look_at(line, at - 1)
    }
}
