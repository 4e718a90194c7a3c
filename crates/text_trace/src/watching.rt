//! The writing of a trace with columns beside its outputs.

ghost use Rattle.std.specs.Prelude.{◌≡◌, ◌<◌, ◌++◌, ◌*◌, ◌^◌, [], FitsSigned, OnOk, codes, length, map};
ghost use Rattle.std.specs.Int.{w16};
ghost use Rattle.scan_signals.specs.Blocks.{elapsed};
ghost use Rattle.scan_signals.specs.Histories.{cv_of};
ghost use Rattle.io_text.specs.Text.{after_commas, bit_text};
ghost use Rattle.scan_cycle.specs.Standing.{Fits};
ghost use Rattle.io_text.specs.Buffer.{Sends};
ghost use Rattle.io_text.specs.Log.{Puts};
ghost use Rattle.io_text.specs.Pieces.{piece_text};
ghost use Rattle.text_trace.specs.Room.{ArePicked};
ghost use Rattle.text_trace.specs.Trace.{is_output, watched_header, watched_row};
ghost use Rattle.text_trace.specs.Watching.{column_name, column_text, preset_of, stored_of};

use crate::column::Column;
use crate::trace::{add_bits, add_moment, add_names};
use diagram_declarations::Decls;
use diagram_program::Program;
use io_text::{Piece, Sink, TextBuffer, WriteFault, add_field, add_pieces};
use scan_cycle::State;
use scan_signals::Stored;

/// Adds the name of a column after a comma: the title of a variable or instance, and what of it is watched.
fn add_name<'a, W: Sink>(
    buffer: &mut TextBuffer,
    name: &'a [u8],
    end: &'a [u8],
    writer: &mut W,
) -> Result<(), WriteFault>
    ensures { Sends (W.log writer.old) (W.log writer.new) buffer.old buffer.new result (codes "," ++ (name.now ++ end.now)) }
{
    let pieces = [Piece::Text(b","), Piece::Text(name), Piece::Text(end)];
    add_pieces(buffer, pieces.as_slice(), writer)
}

/// Adds the name of a column, after a comma.
fn add_column_name<W: Sink>(
    buffer: &mut TextBuffer,
    decls: &Decls,
    column: Column,
    writer: &mut W,
) -> Result<(), WriteFault>
    ensures { Sends (W.log writer.old) (W.log writer.new) buffer.old buffer.new result (codes "," ++ column_name decls.now column) }
{
    match column {
        Column::Value(var) => add_field(buffer, decls.var_name(var), writer),
        Column::Output(inst) => {
            let name = decls.instance_name(inst);
            add_name(buffer, name, decls.output_suffix(inst), writer)
        }
        Column::Elapsed(inst) => add_name(buffer, decls.instance_name(inst), b".ET", writer),
        Column::Count(inst) => add_name(buffer, decls.instance_name(inst), b".CV", writer),
    }
}

/// Adds the names of all watched columns, a comma before each.
fn add_column_names<W: Sink>(
    buffer: &mut TextBuffer,
    decls: &Decls,
    watched: &[Column],
    writer: &mut W,
) -> Result<(), WriteFault>
    ensures { Sends (W.log writer.old) (W.log writer.new) buffer.old buffer.new result (after_commas (map (column_name decls.now) watched.now)) }
{
    for column in watched {
        add_column_name(buffer, decls, *column, writer)?;
    }
    Ok(())
}

/// Adds the header of a trace with watched columns after the outputs.
fn add_watched_header<W: Sink>(
    buffer: &mut TextBuffer,
    program: &Program,
    watched: &[Column],
    writer: &mut W,
) -> Result<(), WriteFault>
    ensures { Sends (W.log writer.old) (W.log writer.new) buffer.old buffer.new result (watched_header program.now watched.now) }
{
    buffer.add(b"moment", writer)?;
    add_names(buffer, program.decls().vars(), writer)?;
    add_column_names(buffer, program.decls(), watched, writer)?;
    buffer.add(b"\n", writer)
}

/// Writes the header of the trace with these columns, as one piece.
pub(crate) fn write_watched_header<W: Sink>(
    program: &Program,
    watched: &[Column],
    buffer: &mut TextBuffer,
    writer: &mut W,
) -> Result<(), WriteFault>
    requires { buffer.old ≡ [] }
    ensures wrote { Puts (W.log writer.old) (W.log writer.new) result (watched_header program.now watched.now) }
    ensures empty { OnOk result (buffer.new ≡ []) }
{
    add_watched_header(buffer, program, watched, writer)?;
    buffer.flush(writer)?;
    Ok(())
}

/// How long a timer has run, at most its preset; 0 where it doesn't run.
pub(crate) fn elapsed(decls: &Decls, state: &State, inst: usize) -> u64
    ensures value { result ≡ elapsed (preset_of decls.now inst) state.now.moment (stored_of state.now inst) }
    ensures small { result < 2 ^ 64 }
{
    match decls.instances().get(inst) {
        Some(instance) => state.stored(inst).elapsed(instance.preset, state.moment()),
        None => 0,
    }
}

/// The count of a counter, and 0 for any other instance.
pub(crate) fn count_of(stored: Stored) -> i16
    ensures value { result ≡ cv_of stored }
    ensures small { FitsSigned w16 result }
{
    match stored {
        Stored::Counter { cv, .. } => cv,
        Stored::Timer { .. } | Stored::Bistable { .. } => 0,
    }
}

/// Adds a number, after a comma.
fn add_number<'a, W: Sink>(
    buffer: &mut TextBuffer,
    number: Piece<'a>,
    writer: &mut W,
) -> Result<(), WriteFault>
    ensures { Sends (W.log writer.old) (W.log writer.new) buffer.old buffer.new result (codes "," ++ piece_text number.entry) }
{
    let pieces = [Piece::Text(b","), number];
    add_pieces(buffer, pieces.as_slice(), writer)
}

/// A bit as a field after a comma: `,1` or `,0`.
fn bit_after_comma(value: bool) -> &'static [u8]
    ensures { result.now ≡ codes "," ++ bit_text value }
{
    if value { b",1" } else { b",0" }
}

/// Adds the value of a column, after a comma.
fn add_column_value<W: Sink>(
    buffer: &mut TextBuffer,
    decls: &Decls,
    state: &State,
    column: Column,
    writer: &mut W,
) -> Result<(), WriteFault>
    ensures { Sends (W.log writer.old) (W.log writer.new) buffer.old buffer.new result (codes "," ++ column_text decls.now state.now column) }
{
    match column {
        Column::Value(var) => buffer.add(bit_after_comma(state.value_or_off(var)), writer),
        Column::Output(inst) => buffer.add(bit_after_comma(state.stored(inst).q()), writer),
        Column::Elapsed(inst) => {
            add_number(buffer, Piece::Number(elapsed(decls, state, inst)), writer)
        }
        Column::Count(inst) => {
            let count = count_of(state.stored(inst));
            add_number(buffer, Piece::Signed(count), writer)
        }
    }
}

/// Adds what all watched columns have in a state, a comma before each.
fn add_column_values<W: Sink>(
    buffer: &mut TextBuffer,
    decls: &Decls,
    state: &State,
    watched: &[Column],
    writer: &mut W,
) -> Result<(), WriteFault>
    ensures { Sends (W.log writer.old) (W.log writer.new) buffer.old buffer.new result (after_commas (map (column_text decls.now state.now) watched.now)) }
{
    for column in watched {
        add_column_value(buffer, decls, state, *column, writer)?;
    }
    Ok(())
}

/// Adds the row of a scan: its moment, the values of the outputs and what the watched columns have.
fn add_watched_row<W: Sink>(
    buffer: &mut TextBuffer,
    program: &Program,
    outputs: &[usize],
    line: &mut [u8],
    state: &State,
    watched: &[Column],
    writer: &mut W,
) -> Result<(), WriteFault>
    requires fits { Fits program.now state.now }
    requires picked { ArePicked is_output program.now.decls.vars outputs.now }
    requires room { length line.old ≡ 2 * length outputs.now }
    ensures sends { Sends (W.log writer.old) (W.log writer.new) buffer.old buffer.new result (watched_row program.now watched.now state.now) }
    ensures long { length line.new ≡ length line.old }
{
    add_moment(buffer, state.moment(), writer)?;
    add_bits(buffer, program, outputs, line, state, writer)?;
    add_column_values(buffer, program.decls(), state, watched, writer)?;
    buffer.add(b"\n", writer)
}

/// Writes the row of a state that a scan has left, with these columns, as one piece.
pub(crate) fn write_watched_row<W: Sink>(
    program: &Program,
    outputs: &[usize],
    line: &mut [u8],
    state: &State,
    watched: &[Column],
    buffer: &mut TextBuffer,
    writer: &mut W,
) -> Result<(), WriteFault>
    requires fits { Fits program.now state.now }
    requires picked { ArePicked is_output program.now.decls.vars outputs.now }
    requires room { length line.old ≡ 2 * length outputs.now }
    requires empty { buffer.old ≡ [] }
    ensures wrote { Puts (W.log writer.old) (W.log writer.new) result (watched_row program.now watched.now state.now) }
    ensures empty { OnOk result (buffer.new ≡ []) }
    ensures long { length line.new ≡ length line.old }
{
    add_watched_row(buffer, program, outputs, line, state, watched, writer)?;
    buffer.flush(writer)?;
    Ok(())
}
