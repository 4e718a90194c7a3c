//! The writing of a trace: its header, and a row for each scan.

ghost use Rattle.std.specs.Prelude.{◌≡◌, ◌∷◌, ◌*◌, [], IfOk, OnOk, decimal, false, filter, map, length, slice_index_or};
ghost use Rattle.io_text.specs.Text.{after_commas, bit_text};
ghost use Rattle.scan_cycle.specs.Standing.{Fits};
ghost use Rattle.io_text.specs.Buffer.{Sends};
ghost use Rattle.io_text.specs.Log.{Puts};
ghost use Rattle.text_trace.specs.Room.{ArePicked};
ghost use Rattle.text_trace.specs.Trace.{is_output, trace_header, trace_row, values_of};

use diagram_declarations::{Var, VarKind};
use diagram_program::Program;
use io_text::{Sink, TextBuffer, WriteFault, add_field};
use itoa::Buffer;
use scan_cycle::State;
use std::alloc::{AllocError, Global};

/// Whether a variable is an output, which has a column in each trace.
fn is_output(var: &Var) -> bool
    ensures { result ≡ is_output var.now }
{
    match var.kind {
        VarKind::Output => true,
        VarKind::Input | VarKind::Memory => false,
    }
}

/// Adds the names of the outputs, each after a comma.
pub(crate) fn add_names<W: Sink>(
    buffer: &mut TextBuffer,
    vars: &[Var],
    writer: &mut W,
) -> Result<(), WriteFault>
    ensures { Sends (W.log writer.old) (W.log writer.new) buffer.old buffer.new result (after_commas (map (λ v. v.title) (filter is_output vars.now))) }
{
    for number in 0..vars.len() {
        let var = &vars[number];
        if !is_output(var) {
            continue;
        }
        add_field(buffer, var.title.bytes(), writer)?;
    }
    Ok(())
}

/// Adds the header of a trace: the moment and the outputs.
fn add_header<W: Sink>(
    buffer: &mut TextBuffer,
    program: &Program,
    writer: &mut W,
) -> Result<(), WriteFault>
    ensures { Sends (W.log writer.old) (W.log writer.new) buffer.old buffer.new result (trace_header program.now) }
{
    buffer.add(b"moment", writer)?;
    add_names(buffer, program.decls().vars(), writer)?;
    buffer.add(b"\n", writer)
}

/// Writes the header of the trace, as one piece.
pub(crate) fn write_header<W: Sink>(
    program: &Program,
    buffer: &mut TextBuffer,
    writer: &mut W,
) -> Result<(), WriteFault>
    requires { buffer.old ≡ [] }
    ensures wrote { Puts (W.log writer.old) (W.log writer.new) result (trace_header program.now) }
    ensures empty { OnOk result (buffer.new ≡ []) }
{
    add_header(buffer, program, writer)?;
    buffer.flush(writer)?;
    Ok(())
}

/// The numbers of the outputs, in order of declaration.
pub(crate) fn outputs(alloc: Global, vars: &[Var]) -> Result<Vec<usize>, AllocError>
    ensures { IfOk result (λ numbers. ArePicked is_output vars.now numbers.items) }
{
    let mut numbers = Vec::new(alloc);
    for number in 0..vars.len() {
        if !is_output(&vars[number]) {
            continue;
        }
        numbers.push(number)?;
    }
    Ok(numbers)
}

/// A value as the character `0` or `1`.
fn bit_byte(value: bool) -> u8
    ensures { result ∷ [] ≡ bit_text value }
{
    if value { b'1' } else { b'0' }
}

/// Puts the values of the variables with these numbers into a line, each after a comma.
fn fill_line(outputs: &[usize], state: &State, line: &mut [u8])
    requires { length line.old ≡ 2 * length outputs.now }
    ensures text { line.new ≡ after_commas (map (λ n. bit_text (slice_index_or state.now.held.values n false)) outputs.now) }
    ensures long { length line.new ≡ length line.old }
{
    for number in 0..outputs.len() {
        let place = 2 * number;
        line[place] = b',';
        line[place + 1] = bit_byte(state.value_or_off(outputs[number]));
    }
}

/// Adds the values of the outputs, each after a comma, all in one piece.
pub(crate) fn add_bits<W: Sink>(
    buffer: &mut TextBuffer,
    program: &Program,
    outputs: &[usize],
    line: &mut [u8],
    state: &State,
    writer: &mut W,
) -> Result<(), WriteFault>
    requires fits { Fits program.now state.now }
    requires picked { ArePicked is_output program.now.decls.vars outputs.now }
    requires room { length line.old ≡ 2 * length outputs.now }
    ensures sends { Sends (W.log writer.old) (W.log writer.new) buffer.old buffer.new result (after_commas (map bit_text (values_of is_output program.now.decls.vars state.now.held.values))) }
    ensures long { length line.new ≡ length line.old }
{
    fill_line(outputs, state, line);
    buffer.add(line, writer)
}

/// Adds the moment that a row begins with, in ms.
pub(crate) fn add_moment<W: Sink>(
    buffer: &mut TextBuffer,
    moment: u64,
    writer: &mut W,
) -> Result<(), WriteFault>
    ensures { Sends (W.log writer.old) (W.log writer.new) buffer.old buffer.new result (decimal moment) }
{
    let mut digits = Buffer::new();
    buffer.add(digits.format(moment).as_bytes(), writer)
}

/// Adds the row of a scan: its moment and the values of the outputs.
fn add_row<W: Sink>(
    buffer: &mut TextBuffer,
    program: &Program,
    outputs: &[usize],
    line: &mut [u8],
    state: &State,
    writer: &mut W,
) -> Result<(), WriteFault>
    requires fits { Fits program.now state.now }
    requires picked { ArePicked is_output program.now.decls.vars outputs.now }
    requires room { length line.old ≡ 2 * length outputs.now }
    ensures sends { Sends (W.log writer.old) (W.log writer.new) buffer.old buffer.new result (trace_row program.now state.now) }
    ensures long { length line.new ≡ length line.old }
{
    add_moment(buffer, state.moment(), writer)?;
    add_bits(buffer, program, outputs, line, state, writer)?;
    buffer.add(b"\n", writer)
}

/// Writes the row of a state that a scan has left, as one piece.
pub(crate) fn write_row<W: Sink>(
    program: &Program,
    outputs: &[usize],
    line: &mut [u8],
    state: &State,
    buffer: &mut TextBuffer,
    writer: &mut W,
) -> Result<(), WriteFault>
    requires fits { Fits program.now state.now }
    requires picked { ArePicked is_output program.now.decls.vars outputs.now }
    requires room { length line.old ≡ 2 * length outputs.now }
    requires empty { buffer.old ≡ [] }
    ensures wrote { Puts (W.log writer.old) (W.log writer.new) result (trace_row program.now state.now) }
    ensures empty { OnOk result (buffer.new ≡ []) }
    ensures long { length line.new ≡ length line.old }
{
    add_row(buffer, program, outputs, line, state, writer)?;
    buffer.flush(writer)?;
    Ok(())
}
