//! The writing of a waveform: its start, and what changes in a scan.

ghost use Rattle.std.specs.Prelude.{◌≡◌, [], OnOk};
ghost use Rattle.io_text.specs.Buffer.{Sends};
ghost use Rattle.io_text.specs.Log.{Puts};
ghost use Rattle.text_vcd.specs.Waves.{change_text, declarations, dumped, moved_line, start_text, time_line};

use crate::lines::{Lines, add_lines, add_number};
use diagram_declarations::Decls;
use diagram_program::Program;
use io_text::{Sink, TextBuffer, WriteFault};
use scan_cycle::State;

/// Adds the head of a waveform: the unit of time, ms, and the declarations in one scope.
fn add_declarations<W: Sink>(
    buffer: &mut TextBuffer,
    decls: &Decls,
    writer: &mut W,
) -> Result<(), WriteFault>
    ensures { Sends (W.log writer.old) (W.log writer.new) buffer.old buffer.new result (declarations decls.now) }
{
    buffer.add(b"$timescale 1 ms $end\n$scope module ladder $end\n", writer)?;
    add_lines(buffer, decls, Lines::Declarations, writer)?;
    buffer.add(b"$upscope $end\n$enddefinitions $end\n", writer)
}

/// Adds the line of a moment, in ms.
fn add_time<W: Sink>(buffer: &mut TextBuffer, moment: u64, writer: &mut W) -> Result<(), WriteFault>
    ensures { Sends (W.log writer.old) (W.log writer.new) buffer.old buffer.new result (time_line moment) }
{
    add_number(buffer, b"#", moment, writer)
}

/// Adds the values of all variables and outputs in a state.
fn add_dump<W: Sink>(
    buffer: &mut TextBuffer,
    decls: &Decls,
    state: &State,
    writer: &mut W,
) -> Result<(), WriteFault>
    ensures { Sends (W.log writer.old) (W.log writer.new) buffer.old buffer.new result (dumped decls.now state.now) }
{
    buffer.add(b"$dumpvars\n", writer)?;
    add_lines(buffer, decls, Lines::Values(state), writer)?;
    buffer.add(b"$end\n", writer)
}

/// Adds what a waveform begins with: its declarations, and all values before the first scan.
fn add_start<W: Sink>(
    buffer: &mut TextBuffer,
    program: &Program,
    state: &State,
    writer: &mut W,
) -> Result<(), WriteFault>
    ensures { Sends (W.log writer.old) (W.log writer.new) buffer.old buffer.new result (start_text program.now state.now) }
{
    add_declarations(buffer, program.decls(), writer)?;
    add_time(buffer, state.moment(), writer)?;
    add_dump(buffer, program.decls(), state, writer)
}

/// Writes what a waveform begins with, as one piece: the declarations, and all values of the state from which the scans begin.
///
/// # Errors
///
/// The writer failed. What was written is a prefix of it.
pub fn write_start<W: Sink>(
    program: &Program,
    state: &State,
    buffer: &mut TextBuffer,
    writer: &mut W,
) -> Result<(), WriteFault>
    requires { buffer.old ≡ [] }
    ensures wrote { Puts (W.log writer.old) (W.log writer.new) result (start_text program.now state.now) }
    ensures empty { OnOk result (buffer.new ≡ []) }
{
    add_start(buffer, program, state, writer)?;
    buffer.flush(writer)?;
    Ok(())
}

/// Adds the moment of a scan, where it is another one than before.
fn add_moved<W: Sink>(
    buffer: &mut TextBuffer,
    before: &State,
    after: &State,
    writer: &mut W,
) -> Result<(), WriteFault>
    ensures { Sends (W.log writer.old) (W.log writer.new) buffer.old buffer.new result (moved_line before.now after.now) }
{
    if before.moment() == after.moment() {
        return buffer.add(b"", writer);
    }
    add_time(buffer, after.moment(), writer)
}

/// Adds what a scan changed, after its moment where it is later than the one before.
fn add_changes<W: Sink>(
    buffer: &mut TextBuffer,
    program: &Program,
    before: &State,
    after: &State,
    writer: &mut W,
) -> Result<(), WriteFault>
    ensures { Sends (W.log writer.old) (W.log writer.new) buffer.old buffer.new result (change_text program.now before.now after.now) }
{
    add_moved(buffer, before, after, writer)?;
    add_lines(
        buffer,
        program.decls(),
        Lines::Changes(before, after),
        writer,
    )
}

/// Writes what a scan has changed, as one piece: its moment and the new values.
///
/// # Errors
///
/// The writer failed. What was written is a prefix of it.
pub fn write_changes<W: Sink>(
    program: &Program,
    before: &State,
    after: &State,
    buffer: &mut TextBuffer,
    writer: &mut W,
) -> Result<(), WriteFault>
    requires { buffer.old ≡ [] }
    ensures wrote { Puts (W.log writer.old) (W.log writer.new) result (change_text program.now before.now after.now) }
    ensures empty { OnOk result (buffer.new ≡ []) }
{
    add_changes(buffer, program, before, after, writer)?;
    buffer.flush(writer)?;
    Ok(())
}
