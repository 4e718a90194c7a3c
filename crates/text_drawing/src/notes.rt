//! What is written beside the drawing.

ghost use Rattle.std.specs.Prelude.{◌≡◌, ◌<◌, ◌≤◌, ◌+◌, length, option_map};
ghost use Rattle.diagram_program.specs.declared.geometry.TheConstants.{PLACES};
ghost use Rattle.io_text.specs.Buffer.{Sends};
ghost use Rattle.text_drawing.specs.Notes.{above, below, cell_note, instance_note, is_among, moment_text, noted_before, numbered_note, place_note, rung_notes, stored_note, value_text, var_notes};
ghost use Rattle.text_drawing.specs.Pictures.{counter_note, timer_note};

use crate::picture::Picture;
use diagram_declarations::{Instance, Var};
use diagram_program::Cell;
use diagram_program::geometry::{PLACES, ROWS};
use io_text::{Piece, Sink, TextBuffer, WriteFault, add_pieces};
use scan_cycle::State;
use scan_signals::Stored;
use text_power::mark_in;

/// Adds how long a timer has run of its preset, in ms.
fn add_timer_note<W: Sink>(
    buffer: &mut TextBuffer,
    name: &[u8],
    preset: u32,
    elapsed: u64,
    writer: &mut W,
) -> Result<(), WriteFault>
    ensures { Sends (W.log writer.old) (W.log writer.new) buffer.old buffer.new result (timer_note name.now preset elapsed) }
{
    let pieces = [
        Piece::Text(b"(* "),
        Piece::Text(name),
        Piece::Text(b".ET "),
        Piece::Number(elapsed),
        Piece::Text(b" of "),
        Piece::Number(preset as u64),
        Piece::Text(b" ms *)\n"),
    ];
    add_pieces(buffer, pieces.as_slice(), writer)
}

/// Adds the count of a counter and its preset.
fn add_counter_note<W: Sink>(
    buffer: &mut TextBuffer,
    name: &[u8],
    preset: u32,
    value: i16,
    writer: &mut W,
) -> Result<(), WriteFault>
    ensures { Sends (W.log writer.old) (W.log writer.new) buffer.old buffer.new result (counter_note name.now preset value) }
{
    let pieces = [
        Piece::Text(b"(* "),
        Piece::Text(name),
        Piece::Text(b".CV "),
        Piece::Signed(value),
        Piece::Text(b" of "),
        Piece::Number(preset as u64),
        Piece::Text(b" *)\n"),
    ];
    add_pieces(buffer, pieces.as_slice(), writer)
}

/// Adds what an instance stores: of a timer that runs the time elapsed, of a counter its count; of anything else the marks show
/// all.
fn add_stored_note<W: Sink>(
    buffer: &mut TextBuffer,
    name: &[u8],
    preset: u32,
    now: u64,
    stored: Stored,
    writer: &mut W,
) -> Result<(), WriteFault>
    ensures { Sends (W.log writer.old) (W.log writer.new) buffer.old buffer.new result (stored_note name.now preset now stored) }
{
    match stored {
        Stored::Timer { running: true, .. } => {
            add_timer_note(buffer, name, preset, stored.elapsed(preset, now), writer)
        }
        Stored::Counter { cv, .. } => add_counter_note(buffer, name, preset, cv, writer),
        Stored::Timer { running: false, .. } | Stored::Bistable { .. } => buffer.add(b"", writer),
    }
}

/// Adds the note on an instance.
fn add_instance_note<W: Sink>(
    buffer: &mut TextBuffer,
    after: &State,
    inst: usize,
    instance: Option<&Instance>,
    writer: &mut W,
) -> Result<(), WriteFault>
    ensures { Sends (W.log writer.old) (W.log writer.new) buffer.old buffer.new result (instance_note after.now inst (option_map (λ i. i.now) instance.entry)) }
{
    match instance {
        Some(instance) => add_stored_note(
            buffer,
            instance.title.bytes(),
            instance.preset,
            after.moment(),
            after.stored(inst),
            writer,
        ),
        None => buffer.add(b"", writer),
    }
}

/// Adds the note on a cell: a block has one.
fn add_cell_note<W: Sink>(
    buffer: &mut TextBuffer,
    picture: Picture<'_>,
    cell: Cell,
    writer: &mut W,
) -> Result<(), WriteFault>
    ensures { Sends (W.log writer.old) (W.log writer.new) buffer.old buffer.new result (cell_note picture.entry.program.now picture.entry.after.now cell) }
{
    match cell {
        Cell::Block { inst } => {
            add_instance_note(
                buffer,
                picture.after,
                inst,
                picture.program.decls().instances().get(inst),
                writer,
            )
        }
        Cell::Empty
        | Cell::Wire
        | Cell::Contact { .. }
        | Cell::Coil { .. }
        | Cell::Lower { .. }
        | Cell::Jump { .. }
        | Cell::Return => buffer.add(b"", writer),
    }
}

/// Adds the note on the cell at a place, where its rung was evaluated.
fn add_place_note<W: Sink>(
    buffer: &mut TextBuffer,
    picture: Picture<'_>,
    rung: usize,
    at: usize,
    writer: &mut W,
) -> Result<(), WriteFault>
    requires rung { rung < picture.program.now.rungs }
    requires at { at < PLACES }
    ensures { Sends (W.log writer.old) (W.log writer.new) buffer.old buffer.new result (place_note picture.entry.program.now picture.entry.after.now picture.entry.marks.now rung at) }
{
    let _rungs = picture.program.rungs();
    if mark_in(picture.marks, rung, at % ROWS, at / ROWS).evaluated {
        let cell = picture.program.cell(rung, at % ROWS, at / ROWS);
        add_cell_note(buffer, picture, cell, writer)
    } else {
        buffer.add(b"", writer)
    }
}

/// Adds the notes on the blocks of a rung.
pub(crate) fn add_rung_notes<W: Sink>(
    buffer: &mut TextBuffer,
    picture: Picture<'_>,
    rung: usize,
    writer: &mut W,
) -> Result<(), WriteFault>
    requires { rung < picture.program.now.rungs }
    ensures { Sends (W.log writer.old) (W.log writer.new) buffer.old buffer.new result (rung_notes picture.entry.program.now picture.entry.after.now picture.entry.marks.now rung) }
{
    for at in 0..PLACES {
        add_place_note(buffer, picture, rung, at, writer)?;
    }
    Ok(())
}

/// Whether a variable belongs to the list of values that is written: that of the inputs, or that of the others.
fn is_among(inputs: bool, var: &Var) -> bool
    ensures { result ≡ is_among inputs var.now }
{
    if inputs {
        var.is_input()
    } else {
        !var.is_input()
    }
}

/// Adds one variable with its value; after every eighth one there is a gap.
fn add_value<'a, W: Sink>(
    buffer: &mut TextBuffer,
    gap: &'a [u8],
    many: usize,
    name: &'a [u8],
    value: bool,
    writer: &mut W,
) -> Result<(), WriteFault>
    ensures { Sends (W.log writer.old) (W.log writer.new) buffer.old buffer.new result (value_text gap.now many name.now value) }
{
    let lead = if 0 < many && many % 8 == 0 {
        Piece::Text(gap)
    } else {
        Piece::Text(b" ")
    };
    let end = if value {
        Piece::Text(b"=1")
    } else {
        Piece::Text(b"=0")
    };
    let pieces = [lead, Piece::Text(name), end];
    add_pieces(buffer, pieces.as_slice(), writer)
}

/// Adds the variable of this number with its value, where it belongs to the list that is written.
fn add_numbered_note<W: Sink>(
    buffer: &mut TextBuffer,
    picture: Picture<'_>,
    inputs: bool,
    gap: &[u8],
    many: usize,
    number: usize,
    writer: &mut W,
) -> Result<(), WriteFault>
    requires { many ≡ noted_before inputs picture.program.now.decls.vars number }
    ensures { Sends (W.log writer.old) (W.log writer.new) buffer.old buffer.new result (numbered_note gap.now inputs picture.entry.program.now.decls picture.entry.after.now number) }
{
    match picture.program.decls().vars().get(number) {
        Some(var) => {
            if is_among(inputs, var) {
                let value = picture.after.value_or_off(number);
                add_value(buffer, gap, many, var.title.bytes(), value, writer)
            } else {
                buffer.add(b"", writer)
            }
        }
        None => buffer.add(b"", writer),
    }
}

/// How many variables of the list are declared up to this one, `many` of them before it.
fn noted_with(inputs: bool, vars: &[Var], number: usize, many: usize) -> usize
    requires within { number < length vars.now }
    requires many { many ≡ noted_before inputs vars.now number }
    requires few { many ≤ number }
    ensures value { result ≡ noted_before inputs vars.now (number + 1) }
    ensures few { result ≤ number + 1 }
{
    if is_among(inputs, &vars[number]) {
        many + 1
    } else {
        many
    }
}

/// Adds the values of the inputs, or of all other variables.
fn add_var_notes<W: Sink>(
    buffer: &mut TextBuffer,
    picture: Picture<'_>,
    inputs: bool,
    gap: &[u8],
    writer: &mut W,
) -> Result<(), WriteFault>
    ensures { Sends (W.log writer.old) (W.log writer.new) buffer.old buffer.new result (var_notes gap.now inputs picture.entry.program.now.decls picture.entry.after.now) }
{
    let vars = picture.program.decls().vars();
    let mut many = 0;
    for number in 0..vars.len() {
        add_numbered_note(buffer, picture, inputs, gap, many, number, writer)?;
        many = noted_with(inputs, vars, number, many);
    }
    Ok(())
}

/// Adds what is first above a drawing: `begin`, and the moment of its scan, in ms.
fn add_moment<W: Sink>(
    buffer: &mut TextBuffer,
    begin: &[u8],
    after: &State,
    writer: &mut W,
) -> Result<(), WriteFault>
    ensures { Sends (W.log writer.old) (W.log writer.new) buffer.old buffer.new result (moment_text begin.now after.now) }
{
    let pieces = [
        Piece::Text(begin),
        Piece::Number(after.moment()),
        Piece::Text(b" ms:"),
    ];
    add_pieces(buffer, pieces.as_slice(), writer)
}

/// Adds what is written above the drawing: the moment behind `begin`, the inputs with their values, with `gap` after every eighth
/// one, and `meaning`, which explains the marks.
pub(crate) fn add_above<W: Sink>(
    buffer: &mut TextBuffer,
    picture: Picture<'_>,
    begin: &[u8],
    gap: &[u8],
    meaning: &[u8],
    writer: &mut W,
) -> Result<(), WriteFault>
    ensures { Sends (W.log writer.old) (W.log writer.new) buffer.old buffer.new result (above begin.now gap.now picture.entry.program.now picture.entry.after.now meaning.now) }
{
    add_moment(buffer, begin, picture.after, writer)?;
    add_var_notes(buffer, picture, true, gap, writer)?;
    buffer.add(meaning, writer)
}

/// Adds what is written below the drawing: `begin`, the values of all other variables after the scan, with `gap` after every eighth
/// one, and `end`.
pub(crate) fn add_below<W: Sink>(
    buffer: &mut TextBuffer,
    picture: Picture<'_>,
    begin: &[u8],
    gap: &[u8],
    end: &[u8],
    writer: &mut W,
) -> Result<(), WriteFault>
    ensures { Sends (W.log writer.old) (W.log writer.new) buffer.old buffer.new result (below begin.now gap.now picture.entry.program.now picture.entry.after.now end.now) }
{
    buffer.add(begin, writer)?;
    add_var_notes(buffer, picture, false, gap, writer)?;
    buffer.add(end, writer)
}
