//! The marks of a line of a rung.

ghost use Rattle.std.specs.Prelude.{◌≡◌, ◌<◌, ◌==◌, ◌^◌, length};
ghost use Rattle.std.specs.List.{list_all};
ghost use Rattle.diagram_program.specs.declared.geometry.TheConstants.{RUNGS};
ghost use Rattle.diagram_program.specs.Bytes.{dash};
ghost use Rattle.io_text.specs.Buffer.{Sends};
ghost use Rattle.scan_cycle.specs.Cells.{place_at};
ghost use Rattle.scan_cycle.specs.Seen.{mark_at};
ghost use Rattle.text_power.specs.Show.{cell_char, joint_char, shown_at, shown_line, wire_char};

use diagram_program::geometry::{PITCH, PLACES, RAIL, ROWS};
use io_text::{Sink, TextBuffer, WriteFault};
use scan_cycle::Mark;

/// What a scan saw at a place: nothing where there is no mark for it.
pub fn mark_in(marks: &[Mark], rung: usize, row: usize, column: usize) -> Mark
    requires rung { rung < RUNGS }
    requires row { row < 2 ^ 59 }
    requires column { column < 2 ^ 32 }
    ensures { result ≡ mark_at marks.now rung (place_at row column) }
{
    match marks.get(PLACES * rung + (ROWS * column + row)) {
        Some(mark) => *mark,
        None => Mark {
            evaluated: false,
            left: false,
            right: false,
            on: false,
        },
    }
}

/// The character that a `-` becomes: `=` with power, `.` in a rung that was passed over.
fn wire_char(evaluated: bool, power: bool) -> u8
    ensures { result ≡ wire_char evaluated power }
{
    if evaluated {
        if power { b'=' } else { b'-' }
    } else {
        b'.'
    }
}

/// The character that a joint becomes: `#` for `+` and `!` for `|` where power is.
fn joint_char(mark: Mark, b: u8) -> u8
    ensures { result ≡ joint_char mark b }
{
    if b == b'-' {
        return wire_char(mark.evaluated, mark.left);
    }
    if !mark.left {
        return b;
    }
    match b {
        b'+' => b'#',
        b'|' => b'!',
        _ => b,
    }
}

/// The character that one of a cell becomes: its wires by their power, and `[ ]` or `{ }` around a contact, block or coil that is
/// ON.
fn cell_char(mark: Mark, front: bool, b: u8) -> u8
    ensures { result ≡ cell_char mark front b }
{
    if b == b'-' {
        return wire_char(mark.evaluated, if front { mark.left } else { mark.right });
    }
    if !mark.on {
        return b;
    }
    match b {
        b'|' => { if front { b'[' } else { b']' } }
        b'(' => b'{',
        b')' => b'}',
        _ => b,
    }
}

/// Whether all of the text is dashes.
pub fn are_dashes(text: &[u8]) -> bool
    ensures { result ≡ list_all (λ c. c == dash) text.now }
{
    text.iter().all(|b| *b == b'-')
}

/// The character that one of a rung's line becomes by the marks of its place.
fn shown_at(marks: &[Mark], rung: usize, line: usize, text: &[u8], at: usize) -> u8
    requires rung { rung < RUNGS }
    requires line { line < 2 ^ 59 }
    requires within { at < length text.now }
    ensures { result ≡ shown_at marks.now rung line text.now at }
{
    let b = text[at];
    if at == 0 || RAIL <= at {
        return b;
    }
    let mark = mark_in(marks, rung, line / 2, at / PITCH);
    if line % 2 == 0 {
        return if at % PITCH == 0 && mark.left && b == b'|' {
            b'!'
        } else {
            b
        };
    }
    if at % PITCH == 0 {
        return joint_char(mark, b);
    }
    let front = are_dashes(&text[PITCH * (at / PITCH) + 1..at]);
    cell_char(mark, front, b)
}

/// Adds a line of a rung, with its characters changed by the marks.
///
/// # Errors
///
/// `WriteFault` where the writer fails.
pub fn add_shown_line<W: Sink>(
    buffer: &mut TextBuffer,
    marks: &[Mark],
    rung: usize,
    line: usize,
    text: &[u8],
    writer: &mut W,
) -> Result<(), WriteFault>
    requires rung { rung < RUNGS }
    requires line { line < 2 ^ 59 }
    ensures { Sends (W.log writer.old) (W.log writer.new) buffer.old buffer.new result (shown_line marks.now rung line text.now) }
{
    for at in 0..text.len() {
        let shown = [shown_at(marks, rung, line, text, at)];
        buffer.add(shown.as_slice(), writer)?;
    }
    Ok(())
}
