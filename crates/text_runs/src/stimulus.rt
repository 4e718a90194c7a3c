//! The writing of a run as a stimulus.

ghost use Rattle.std.specs.Prelude.{◌∷◌, decimal, filter, map};
ghost use Rattle.diagram_declarations.specs.Decls.{is_input};
ghost use Rattle.io_text.specs.Buffer.{Sends};
ghost use Rattle.io_text.specs.Log.{Puts};
ghost use Rattle.io_text.specs.Text.{after_commas, bit_text, line_text, lines_text};
ghost use Rattle.text_runs.specs.RunText.{run_header, run_text, scan_row};

use diagram_declarations::Var;
use diagram_program::Program;
use io_text::{Sink, TextBuffer, WriteFault, add_field, bit_field};
use itoa::Buffer;
use reach_runs::RunScan;

/// Adds the names of the inputs, each after a comma.
fn add_names<W: Sink>(
    buffer: &mut TextBuffer,
    vars: &[Var],
    writer: &mut W,
) -> Result<(), WriteFault>
    ensures { Sends (W.log writer.old) (W.log writer.new) buffer.old buffer.new result (after_commas (map (λ v. v.name) (filter is_input vars.now))) }
{
    for number in 0..vars.len() {
        let var = &vars[number];
        if !var.is_input() {
            continue;
        }
        add_field(buffer, var.name.bytes(), writer)?;
    }
    Ok(())
}

/// Adds the header: the word for the moment, and the names of the inputs.
pub(crate) fn add_header<W: Sink>(
    buffer: &mut TextBuffer,
    program: &Program,
    writer: &mut W,
) -> Result<(), WriteFault>
    ensures { Sends (W.log writer.old) (W.log writer.new) buffer.old buffer.new result (line_text (run_header program.now)) }
{
    buffer.add(b"moment", writer)?;
    add_names(buffer, program.decls().vars(), writer)?;
    buffer.add(b"\n", writer)
}

/// Adds the moment that a row begins with, in ms.
fn add_moment<W: Sink>(
    buffer: &mut TextBuffer,
    moment: u64,
    writer: &mut W,
) -> Result<(), WriteFault>
    ensures { Sends (W.log writer.old) (W.log writer.new) buffer.old buffer.new result (decimal moment) }
{
    let mut digits = Buffer::new();
    buffer.add(digits.format(moment).as_bytes(), writer)
}

/// Adds the values of the inputs, each after a comma.
fn add_bits<W: Sink>(
    buffer: &mut TextBuffer,
    inputs: &[bool],
    writer: &mut W,
) -> Result<(), WriteFault>
    ensures { Sends (W.log writer.old) (W.log writer.new) buffer.old buffer.new result (after_commas (map bit_text inputs.now)) }
{
    for value in inputs {
        add_field(buffer, bit_field(*value), writer)?;
    }
    Ok(())
}

/// Adds a row: its moment, and a value for each input.
fn add_row<W: Sink>(
    buffer: &mut TextBuffer,
    moment: u64,
    inputs: &[bool],
    writer: &mut W,
) -> Result<(), WriteFault>
    ensures { Sends (W.log writer.old) (W.log writer.new) buffer.old buffer.new result (line_text (decimal moment ∷ map bit_text inputs.now)) }
{
    add_moment(buffer, moment, writer)?;
    add_bits(buffer, inputs, writer)?;
    buffer.add(b"\n", writer)
}

/// Adds the row of a scan.
pub(crate) fn add_scan<W: Sink>(
    buffer: &mut TextBuffer,
    scan: &RunScan,
    writer: &mut W,
) -> Result<(), WriteFault>
    ensures { Sends (W.log writer.old) (W.log writer.new) buffer.old buffer.new result (line_text (scan_row scan.now)) }
{
    add_row(buffer, scan.moment, &scan.inputs, writer)
}

/// Adds a row for each scan.
fn add_scans<W: Sink>(
    buffer: &mut TextBuffer,
    run: &[RunScan],
    writer: &mut W,
) -> Result<(), WriteFault>
    ensures { Sends (W.log writer.old) (W.log writer.new) buffer.old buffer.new result (lines_text (map scan_row run.now)) }
{
    for number in 0..run.len() {
        add_scan(buffer, &run[number], writer)?;
    }
    Ok(())
}

/// Adds the header and all rows.
fn add_all<W: Sink>(
    buffer: &mut TextBuffer,
    program: &Program,
    run: &[RunScan],
    writer: &mut W,
) -> Result<(), WriteFault>
    ensures { Sends (W.log writer.old) (W.log writer.new) buffer.old buffer.new result (run_text program.now run.now) }
{
    add_header(buffer, program, writer)?;
    add_scans(buffer, run, writer)
}

/// Writes a run as a stimulus: a header with the names of all inputs, and for each scan a row with its moment and the values that it
/// gives them. It needs no memory.
///
/// # Errors
///
/// X6: the writer failed. What was written is a prefix of the text.
pub fn write_run<W: Sink>(
    program: &Program,
    run: &[RunScan],
    writer: &mut W,
) -> Result<(), WriteFault>
    ensures wrote { Puts (W.log writer.old) (W.log writer.new) result (run_text program.now run.now) }
{
    let mut buffer = TextBuffer::new();
    add_all(&mut buffer, program, run, writer)?;
    buffer.flush(writer)?;
    Ok(())
}
