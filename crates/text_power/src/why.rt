//! Why the coils of a variable have power, or none.

ghost use Rattle.std.specs.Prelude.{◌≡◌, ◌<◌, ◌≤◌, ◌%◌, ◌/◌, if◌then◌else◌};
ghost use Rattle.diagram_program.specs.declared.geometry.TheConstants.{PLACES, ROWS, RUNGS};
ghost use Rattle.diagram_program.specs.Program.{cell_of};
ghost use Rattle.io_text.specs.Buffer.{Sends};
ghost use Rattle.text_power.specs.Ends.{AreAnswers, is_live, of_rung};
ghost use Rattle.text_power.specs.Why.{coil_head, coil_notes, dead_notes, end_line, end_note, end_notes, evaluated_above, open_name, open_output, open_reason, passed_note, place_notes, power_notes, rung_why, why};

use crate::ends::{Rung, ended_places, live_places};
use crate::show::mark_in;
use diagram_declarations::Decls;
use diagram_program::geometry::{PLACES, ROWS};
use diagram_program::{Cell, Mode, Operand, Program};
use io_text::{Piece, Sink, TextBuffer, WriteFault, add_pieces};
use scan_cycle::Mark;

/// The name of what ends power at a cell, and its output.
#[derive(Clone, Copy)]
struct Open<'a> {
    name: &'a [u8],
    output: &'static [u8],
}

/// The name of what ends power at a cell, and the output of it where it is an instance.
fn open_at(decls: &Decls, cell: Cell) -> Open<'_>
    ensures name { result.name.now ≡ open_name decls.now cell }
    ensures output { result.output.now ≡ open_output decls.now cell }
{
    match cell {
        Cell::Contact {
            operand: Operand::Var(var),
            ..
        } => Open {
            name: decls.var_name(var),
            output: b"",
        },
        Cell::Contact {
            operand: Operand::Output(inst),
            ..
        }
        | Cell::Block { inst } => Open {
            name: decls.instance_name(inst),
            output: decls.output_suffix(inst),
        },
        Cell::Empty
        | Cell::Wire
        | Cell::Coil { .. }
        | Cell::Lower { .. }
        | Cell::Jump { .. }
        | Cell::Return => Open {
            name: b"",
            output: b"",
        },
    }
}

/// What is said after the name of what ends power: the value that keeps it open.
fn open_reason(cell: Cell) -> &'static [u8]
    ensures { result.now ≡ open_reason cell }
{
    match cell {
        Cell::Contact {
            mode: Mode::Plain,
            ..
        }
        | Cell::Block { .. } => b" is OFF",
        Cell::Contact {
            mode: Mode::Negated,
            ..
        } => b" is ON",
        Cell::Contact {
            mode: Mode::Rising,
            ..
        } => b" has not become ON",
        Cell::Contact {
            mode: Mode::Falling,
            ..
        } => b" has not become OFF",
        Cell::Empty
        | Cell::Wire
        | Cell::Coil { .. }
        | Cell::Lower { .. }
        | Cell::Jump { .. }
        | Cell::Return => b"",
    }
}

/// What is at a place of the rung.
fn cell_at(rung: Rung<'_>, at: usize) -> Cell
    requires number { rung.number < rung.program.now.rungs }
    requires at { at < PLACES }
    ensures { result ≡ cell_of rung.entry.program.now rung.entry.number at }
{
    rung.program.cell(rung.number, at % ROWS, at / ROWS)
}

/// Adds the line of one place where power ends: its row, its column, its name and the reason.
fn add_end_line<W: Sink>(
    buffer: &mut TextBuffer,
    rung: Rung<'_>,
    end: usize,
    writer: &mut W,
) -> Result<(), WriteFault>
    requires number { rung.number < rung.program.now.rungs }
    requires end { end < PLACES }
    ensures { Sends (W.log writer.old) (W.log writer.new) buffer.old buffer.new result (end_line rung.entry.program.now rung.entry.number end) }
{
    let cell = cell_at(rung, end);
    let open = open_at(rung.program.decls(), cell);
    let pieces = [
        Piece::Text(b"(* row "),
        Piece::Number((end % ROWS + 1) as u64),
        Piece::Text(b", column "),
        Piece::Number((end / ROWS + 1) as u64),
        Piece::Text(b": "),
        Piece::Text(open.name),
        Piece::Text(open.output),
        Piece::Text(open_reason(cell)),
        Piece::Text(b" *)\n"),
    ];
    add_pieces(buffer, pieces.as_slice(), writer)
}

/// Adds the line of a place, where power on the routes to a dead coil ends there.
fn add_end_note<W: Sink>(
    buffer: &mut TextBuffer,
    rung: Rung<'_>,
    live: &[bool],
    at: usize,
    end: usize,
    writer: &mut W,
) -> Result<(), WriteFault>
    requires number { rung.number < rung.program.now.rungs }
    requires live { AreAnswers (of_rung is_live rung) rung.program.now rung.number PLACES live.now }
    requires at { at < PLACES }
    requires end { end < PLACES }
    ensures { Sends (W.log writer.old) (W.log writer.new) buffer.old buffer.new result (end_note rung.entry.program.now rung.entry.marks.now rung.entry.number at end) }
{
    if ended_places(rung, live, end)[at] {
        add_end_line(buffer, rung, end, writer)
    } else {
        buffer.add(b"", writer)
    }
}

/// Adds each place where power ends on the routes to a place.
fn add_end_notes<W: Sink>(
    buffer: &mut TextBuffer,
    rung: Rung<'_>,
    at: usize,
    writer: &mut W,
) -> Result<(), WriteFault>
    requires number { rung.number < rung.program.now.rungs }
    requires at { at < PLACES }
    ensures { Sends (W.log writer.old) (W.log writer.new) buffer.old buffer.new result (end_notes rung.entry.program.now rung.entry.marks.now rung.entry.number at) }
{
    let live = live_places(rung);
    for end in 0..PLACES {
        add_end_note(buffer, rung, &live, at, end, writer)?;
    }
    Ok(())
}

/// The rung of a mark if it was evaluated, and otherwise the rung `before`: the last evaluated one so far.
fn later(mark: Mark, rung: usize, before: usize) -> usize
    ensures { result ≡ (if mark.evaluated then rung else before) }
{
    if mark.evaluated { rung } else { before }
}

/// The last rung above this one that was evaluated.
fn evaluated_above(marks: &[Mark], rung: usize) -> usize
    requires { rung ≤ RUNGS }
    ensures value { result ≡ evaluated_above marks.now rung }
    ensures few { result ≤ rung }
{
    let mut last = 0;
    for above in 0..rung {
        last = later(mark_in(marks, above, 0, 0), above, last);
    }
    last
}

/// Adds that a coil has no power, and each place where power ends on the routes to it.
fn add_dead_notes<W: Sink>(
    buffer: &mut TextBuffer,
    rung: Rung<'_>,
    at: usize,
    writer: &mut W,
) -> Result<(), WriteFault>
    requires number { rung.number < rung.program.now.rungs }
    requires at { at < PLACES }
    ensures { Sends (W.log writer.old) (W.log writer.new) buffer.old buffer.new result (dead_notes rung.entry.program.now rung.entry.marks.now rung.entry.number at) }
{
    buffer.add(b": no power, which ends at *)\n", writer)?;
    add_end_notes(buffer, rung, at, writer)
}

/// Adds that the rung is passed over by the one with this number.
fn add_passed_note<W: Sink>(
    buffer: &mut TextBuffer,
    above: usize,
    writer: &mut W,
) -> Result<(), WriteFault>
    requires { above < RUNGS }
    ensures { Sends (W.log writer.old) (W.log writer.new) buffer.old buffer.new result (passed_note above) }
{
    let pieces = [
        Piece::Text(b": passed over"),
        Piece::Text(b" by rung "),
        Piece::Number((above + 1) as u64),
        Piece::Text(b" *)\n"),
    ];
    add_pieces(buffer, pieces.as_slice(), writer)
}

/// Adds whether a coil has power; without power where it ends, and of a rung that was passed over which jump did so.
fn add_power_notes<W: Sink>(
    buffer: &mut TextBuffer,
    rung: Rung<'_>,
    at: usize,
    mark: Mark,
    writer: &mut W,
) -> Result<(), WriteFault>
    requires number { rung.number < rung.program.now.rungs }
    requires few { rung.program.now.rungs ≤ RUNGS }
    requires at { at < PLACES }
    ensures { Sends (W.log writer.old) (W.log writer.new) buffer.old buffer.new result (power_notes rung.entry.program.now rung.entry.marks.now rung.entry.number at mark) }
{
    if mark.evaluated {
        if mark.left {
            buffer.add(b": power *)\n", writer)
        } else {
            add_dead_notes(buffer, rung, at, writer)
        }
    } else {
        let above = evaluated_above(rung.marks, rung.number);
        add_passed_note(buffer, above, writer)
    }
}

/// Adds the begin of the note on a coil: its variable and its place.
fn add_coil_head<W: Sink>(
    buffer: &mut TextBuffer,
    rung: Rung<'_>,
    var: usize,
    at: usize,
    writer: &mut W,
) -> Result<(), WriteFault>
    requires number { rung.number < RUNGS }
    requires at { at < PLACES }
    ensures { Sends (W.log writer.old) (W.log writer.new) buffer.old buffer.new result (coil_head rung.entry.program.now var rung.entry.number at) }
{
    let pieces = [
        Piece::Text(b"(* "),
        Piece::Text(rung.program.decls().var_name(var)),
        Piece::Text(b" in rung "),
        Piece::Number((rung.number + 1) as u64),
        Piece::Text(b", row "),
        Piece::Number((at % ROWS + 1) as u64),
        Piece::Text(b", column "),
        Piece::Number((at / ROWS + 1) as u64),
    ];
    add_pieces(buffer, pieces.as_slice(), writer)
}

/// Adds the note on one coil: its place, and whether it has power.
fn add_coil_notes<W: Sink>(
    buffer: &mut TextBuffer,
    rung: Rung<'_>,
    var: usize,
    at: usize,
    writer: &mut W,
) -> Result<(), WriteFault>
    requires number { rung.number < rung.program.now.rungs }
    requires few { rung.program.now.rungs ≤ RUNGS }
    requires at { at < PLACES }
    ensures { Sends (W.log writer.old) (W.log writer.new) buffer.old buffer.new result (coil_notes rung.entry.program.now rung.entry.marks.now var rung.entry.number at) }
{
    add_coil_head(buffer, rung, var, at, writer)?;
    let mark = mark_in(rung.marks, rung.number, at % ROWS, at / ROWS);
    add_power_notes(buffer, rung, at, mark, writer)
}

/// Adds the note on the cell at a place, where it is a coil of the variable.
fn add_place_notes<W: Sink>(
    buffer: &mut TextBuffer,
    rung: Rung<'_>,
    var: usize,
    at: usize,
    writer: &mut W,
) -> Result<(), WriteFault>
    requires number { rung.number < rung.program.now.rungs }
    requires at { at < PLACES }
    ensures { Sends (W.log writer.old) (W.log writer.new) buffer.old buffer.new result (place_notes rung.entry.program.now rung.entry.marks.now var rung.entry.number at) }
{
    let _rungs = rung.program.rungs();
    if cell_at(rung, at).is_coil_of(var) {
        add_coil_notes(buffer, rung, var, at, writer)
    } else {
        buffer.add(b"", writer)
    }
}

/// Adds the notes on all coils of the variable in one rung.
fn add_rung_why<W: Sink>(
    buffer: &mut TextBuffer,
    rung: Rung<'_>,
    var: usize,
    writer: &mut W,
) -> Result<(), WriteFault>
    requires { rung.number < rung.program.now.rungs }
    ensures { Sends (W.log writer.old) (W.log writer.new) buffer.old buffer.new result (rung_why rung.entry.program.now rung.entry.marks.now var rung.entry.number) }
{
    for at in 0..PLACES {
        add_place_notes(buffer, rung, var, at, writer)?;
    }
    Ok(())
}

/// Adds why the coils of a variable have power, or none.
///
/// # Errors
///
/// `WriteFault` where the writer fails.
pub fn add_why<W: Sink>(
    buffer: &mut TextBuffer,
    program: &Program,
    marks: &[Mark],
    var: usize,
    writer: &mut W,
) -> Result<(), WriteFault>
    ensures { Sends (W.log writer.old) (W.log writer.new) buffer.old buffer.new result (why program.now marks.now var) }
{
    for number in 0..program.rungs() {
        let rung = Rung {
            program,
            marks,
            number,
        };
        add_rung_why(buffer, rung, var, writer)?;
    }
    Ok(())
}
