//! The writing of the stimulus of a witness.

ghost use Rattle.std.specs.Prelude.{◌≡◌, decimal, false, map, slice_index_or};
ghost use Rattle.io_text.specs.Buffer.{Sends};
ghost use Rattle.io_text.specs.Log.{Puts};
ghost use Rattle.io_text.specs.Text.{after_commas, bit_text, line_text};
ghost use Rattle.diff_meaning.specs.declared.verdict.TheConstants.{MOMENT};
ghost use Rattle.cli_witnesses.specs.Stimulus.{declared_name, header, scan_record, stimulus_text};

use diagram_program::Program;
use diff_matching::{Matching, Pair};
use diff_meaning::MOMENT;
use io_text::{Sink, TextBuffer, WriteFault, add_field, bit_field};
use itoa::Buffer;
use scan_cycle::State;

/// The name of a variable, whatever it is printed as: stimuli are read by names.
fn declared_name(program: &Program, var: usize) -> &[u8]
    ensures { result.now ≡ declared_name program.now var }
{
    match program.decls().vars().get(var) {
        Some(var) => var.name.bytes(),
        None => b"",
    }
}

/// Adds the names of inputs, each after a comma.
fn add_names<W: Sink>(
    buffer: &mut TextBuffer,
    program: &Program,
    inputs: &[Pair],
    writer: &mut W,
) -> Result<(), WriteFault>
    ensures { Sends (W.log writer.old) (W.log writer.new) buffer.old buffer.new result (after_commas (map (λ x. declared_name program.now x.old) inputs.now)) }
{
    for pair in inputs {
        add_field(buffer, declared_name(program, pair.old), writer)?;
    }
    Ok(())
}

/// Adds the values of inputs, each after a comma.
fn add_values<W: Sink>(
    buffer: &mut TextBuffer,
    state: &State,
    inputs: &[Pair],
    writer: &mut W,
) -> Result<(), WriteFault>
    ensures { Sends (W.log writer.old) (W.log writer.new) buffer.old buffer.new result (after_commas (map (λ x. bit_text (slice_index_or state.now.held.values x.old false)) inputs.now)) }
{
    for pair in inputs {
        add_field(buffer, bit_field(state.value_or_off(pair.old)), writer)?;
    }
    Ok(())
}

/// Adds the header: the word for the moment, and the names of the inputs that belong together.
fn add_header<W: Sink>(
    buffer: &mut TextBuffer,
    program: &Program,
    matching: &Matching,
    writer: &mut W,
) -> Result<(), WriteFault>
    ensures { Sends (W.log writer.old) (W.log writer.new) buffer.old buffer.new result (line_text (header program.now matching.now)) }
{
    buffer.add(b"moment", writer)?;
    add_names(buffer, program, matching.inputs(), writer)?;
    buffer.add(b"\n", writer)
}

/// Adds the moment at which states are tried.
fn add_moment<W: Sink>(buffer: &mut TextBuffer, writer: &mut W) -> Result<(), WriteFault>
    ensures { Sends (W.log writer.old) (W.log writer.new) buffer.old buffer.new result (decimal MOMENT) }
{
    let mut digits = Buffer::new();
    buffer.add(digits.format(MOMENT).as_bytes(), writer)
}

/// Adds the record: the moment, and the values of these inputs.
fn add_scan<W: Sink>(
    buffer: &mut TextBuffer,
    matching: &Matching,
    state: &State,
    writer: &mut W,
) -> Result<(), WriteFault>
    ensures { Sends (W.log writer.old) (W.log writer.new) buffer.old buffer.new result (line_text (scan_record matching.now state.now)) }
{
    add_moment(buffer, writer)?;
    add_values(buffer, state, matching.inputs(), writer)?;
    buffer.add(b"\n", writer)
}

/// Adds the header and the record.
fn add_all<W: Sink>(
    buffer: &mut TextBuffer,
    program: &Program,
    matching: &Matching,
    state: &State,
    writer: &mut W,
) -> Result<(), WriteFault>
    ensures { Sends (W.log writer.old) (W.log writer.new) buffer.old buffer.new result (stimulus_text program.now matching.now state.now) }
{
    add_header(buffer, program, matching, writer)?;
    add_scan(buffer, matching, state, writer)
}

/// Writes the stimulus of a witness, by its state of the old program. It needs no memory.
///
/// # Errors
///
/// X6: the writer failed. What was written is a prefix of the text.
pub(crate) fn write_stimulus<W: Sink>(
    program: &Program,
    matching: &Matching,
    state: &State,
    writer: &mut W,
) -> Result<(), WriteFault>
    ensures { Puts (W.log writer.old) (W.log writer.new) result (stimulus_text program.now matching.now state.now) }
{
    let mut buffer = TextBuffer::new();
    add_all(&mut buffer, program, matching, state, writer)?;
    buffer.flush(writer)
}
