//! The writing of a state, record by record.

ghost use Rattle.std.specs.Prelude.{◌≡◌, ◌*◌, ◌<◌, ◌∷◌, [], codes, length};
ghost use Rattle.diagram_program.specs.declared.geometry.TheConstants.{PLACES, RUNGS};
ghost use Rattle.diagram_program.specs.Program.{memories_of};
ghost use Rattle.io_text.specs.Text.{line_text, lines_text};
ghost use Rattle.scan_signals.specs.declared.block.Stored.TheVariants.{Bistable, Counter, Timer};
ghost use Rattle.scan_cycle.specs.Standing.{Fits};
ghost use Rattle.text_state.specs.StateText.{block_record, item_records, memory_places, memory_record, state_text, var_record, version_record, IsStateOf};
ghost use Rattle.text_state.specs.Parts.{moment_record};
ghost use Rattle.text_state.specs.Parts.{block_records, each, memory_records, var_records};
ghost use Rattle.text_state.specs.declared.version.Version.TheVariants.{Second};
ghost use Rattle.io_text.specs.Buffer.{Sends};
ghost use Rattle.io_text.specs.Log.{Puts};

use crate::parts::is_memory_place;
use diagram_declarations::{Instance, Var};
use diagram_program::Program;
use diagram_program::geometry::{PLACES, ROWS};
use io_text::{Sink, TextBuffer, WriteFault, add_line, bit_field};
use itoa::Buffer;
use scan_cycle::State;
use scan_signals::Stored;

/// Adds the record of the version that is written.
fn add_version<W: Sink>(buffer: &mut TextBuffer, writer: &mut W) -> Result<(), WriteFault>
    ensures { Sends (W.log writer.old) (W.log writer.new) buffer.old buffer.new result (line_text (version_record Second)) }
{
    add_line(buffer, b"version", [b"2".as_slice()].as_slice(), writer)
}

/// Adds the record of the moment, in ms.
fn add_moment<W: Sink>(
    buffer: &mut TextBuffer,
    moment: u64,
    writer: &mut W,
) -> Result<(), WriteFault>
    ensures { Sends (W.log writer.old) (W.log writer.new) buffer.old buffer.new result (line_text (moment_record moment)) }
{
    let mut digits = Buffer::new();
    let moment = digits.format(moment).as_bytes();
    add_line(buffer, b"moment", [moment].as_slice(), writer)
}

/// Adds the record of a variable by its fields.
fn var_line<W: Sink>(
    buffer: &mut TextBuffer,
    name: &[u8],
    value: &[u8],
    writer: &mut W,
) -> Result<(), WriteFault>
    ensures { Sends (W.log writer.old) (W.log writer.new) buffer.old buffer.new result (line_text (codes "var" ∷ name.now ∷ value.now ∷ [])) }
{
    add_line(buffer, b"var", [name, value].as_slice(), writer)
}

/// Adds the record of a variable.
fn add_var<W: Sink>(
    buffer: &mut TextBuffer,
    var: &Var,
    value: bool,
    writer: &mut W,
) -> Result<(), WriteFault>
    ensures { Sends (W.log writer.old) (W.log writer.new) buffer.old buffer.new result (line_text (var_record var.now value)) }
{
    var_line(buffer, var.name.bytes(), bit_field(value), writer)
}

/// Adds the records of all variables, in order of declaration.
fn add_vars<W: Sink>(
    buffer: &mut TextBuffer,
    vars: &[Var],
    state: &State,
    writer: &mut W,
) -> Result<(), WriteFault>
    requires { length state.now.held.values ≡ length vars.now }
    ensures { Sends (W.log writer.old) (W.log writer.new) buffer.old buffer.new result (lines_text (each var_records vars.now state.now.held.values)) }
{
    for number in 0..vars.len() {
        add_var(buffer, &vars[number], state.value(number), writer)?;
    }
    Ok(())
}

/// Adds the record of an edge's memory, by the rung, row and column of its cell.
fn add_memory<W: Sink>(
    buffer: &mut TextBuffer,
    place: usize,
    value: bool,
    writer: &mut W,
) -> Result<(), WriteFault>
    requires { place < PLACES * RUNGS }
    ensures { Sends (W.log writer.old) (W.log writer.new) buffer.old buffer.new result (line_text (memory_record place value)) }
{
    let (mut first, mut second, mut third) = (Buffer::new(), Buffer::new(), Buffer::new());
    let rung = first.format(place / PLACES + 1).as_bytes();
    let line = second.format(place % PLACES % ROWS + 1).as_bytes();
    let column = third.format(place % PLACES / ROWS + 1).as_bytes();
    add_line(
        buffer,
        b"memory",
        [rung, line, column, bit_field(value)].as_slice(),
        writer,
    )
}

/// Adds the records of all memories, in the order of their cells.
fn add_memories<W: Sink>(
    buffer: &mut TextBuffer,
    program: &Program,
    state: &State,
    writer: &mut W,
) -> Result<(), WriteFault>
    requires { length state.now.held.kept.memories ≡ memories_of program.now }
    ensures { Sends (W.log writer.old) (W.log writer.new) buffer.old buffer.new result (lines_text (each memory_records (memory_places program.now) state.now.held.kept.memories)) }
{
    let mut number = 0;
    for place in 0..PLACES * program.rungs() {
        if !is_memory_place(program, place) {
            continue;
        }
        add_memory(buffer, place, state.memory(number), writer)?;
        number += 1;
    }
    Ok(())
}

/// Adds the record of a timer by its fields.
fn timer_line<W: Sink>(
    buffer: &mut TextBuffer,
    name: &[u8],
    last: &[u8],
    running: &[u8],
    start: &[u8],
    q: &[u8],
    writer: &mut W,
) -> Result<(), WriteFault>
    ensures { Sends (W.log writer.old) (W.log writer.new) buffer.old buffer.new result (line_text (codes "timer" ∷ name.now ∷ last.now ∷ running.now ∷ start.now ∷ q.now ∷ [])) }
{
    add_line(
        buffer,
        b"timer",
        [name, last, running, start, q].as_slice(),
        writer,
    )
}

/// Adds the record of a timer.
fn add_timer<W: Sink>(
    buffer: &mut TextBuffer,
    name: &[u8],
    last: bool,
    running: bool,
    start: u64,
    q: bool,
    writer: &mut W,
) -> Result<(), WriteFault>
    ensures { Sends (W.log writer.old) (W.log writer.new) buffer.old buffer.new result (line_text (block_record name.now (Timer last running start q))) }
{
    let mut digits = Buffer::new();
    let start = digits.format(start).as_bytes();
    let (last, running, q) = (bit_field(last), bit_field(running), bit_field(q));
    timer_line(buffer, name, last, running, start, q, writer)
}

/// Adds the record of a counter by its fields.
fn counter_line<W: Sink>(
    buffer: &mut TextBuffer,
    name: &[u8],
    last: &[u8],
    cv: &[u8],
    q: &[u8],
    writer: &mut W,
) -> Result<(), WriteFault>
    ensures { Sends (W.log writer.old) (W.log writer.new) buffer.old buffer.new result (line_text (codes "counter" ∷ name.now ∷ last.now ∷ cv.now ∷ q.now ∷ [])) }
{
    add_line(buffer, b"counter", [name, last, cv, q].as_slice(), writer)
}

/// Adds the record of a counter.
fn add_counter<W: Sink>(
    buffer: &mut TextBuffer,
    name: &[u8],
    last: bool,
    cv: i16,
    q: bool,
    writer: &mut W,
) -> Result<(), WriteFault>
    ensures { Sends (W.log writer.old) (W.log writer.new) buffer.old buffer.new result (line_text (block_record name.now (Counter last cv q))) }
{
    let mut digits = Buffer::new();
    let cv = digits.format(cv).as_bytes();
    counter_line(buffer, name, bit_field(last), cv, bit_field(q), writer)
}

/// Adds the record of a bistable by its fields.
fn bistable_line<W: Sink>(
    buffer: &mut TextBuffer,
    name: &[u8],
    q: &[u8],
    writer: &mut W,
) -> Result<(), WriteFault>
    ensures { Sends (W.log writer.old) (W.log writer.new) buffer.old buffer.new result (line_text (codes "bistable" ∷ name.now ∷ q.now ∷ [])) }
{
    add_line(buffer, b"bistable", [name, q].as_slice(), writer)
}

/// Adds the record of a bistable.
fn add_bistable<W: Sink>(
    buffer: &mut TextBuffer,
    name: &[u8],
    q: bool,
    writer: &mut W,
) -> Result<(), WriteFault>
    ensures { Sends (W.log writer.old) (W.log writer.new) buffer.old buffer.new result (line_text (block_record name.now (Bistable q))) }
{
    bistable_line(buffer, name, bit_field(q), writer)
}

/// Adds the record of what an instance stores.
fn add_block<W: Sink>(
    buffer: &mut TextBuffer,
    name: &[u8],
    stored: Stored,
    writer: &mut W,
) -> Result<(), WriteFault>
    ensures { Sends (W.log writer.old) (W.log writer.new) buffer.old buffer.new result (line_text (block_record name.now stored)) }
{
    match stored {
        Stored::Timer {
            last,
            running,
            start,
            q,
        } => add_timer(buffer, name, last, running, start, q, writer),
        Stored::Counter { last, cv, q } => add_counter(buffer, name, last, cv, q, writer),
        Stored::Bistable { q } => add_bistable(buffer, name, q, writer),
    }
}

/// Adds the records of all instances, in order of declaration.
fn add_blocks<W: Sink>(
    buffer: &mut TextBuffer,
    instances: &[Instance],
    state: &State,
    writer: &mut W,
) -> Result<(), WriteFault>
    requires { length state.now.held.kept.blocks ≡ length instances.now }
    ensures { Sends (W.log writer.old) (W.log writer.new) buffer.old buffer.new result (lines_text (each (block_records Second) instances.now state.now.held.kept.blocks)) }
{
    for number in 0..instances.len() {
        let name = instances[number].name.bytes();
        add_block(buffer, name, state.block(number), writer)?;
    }
    Ok(())
}

/// Adds the records after the moment: those of the variables, the memories and the instances.
fn add_items<W: Sink>(
    buffer: &mut TextBuffer,
    program: &Program,
    state: &State,
    writer: &mut W,
) -> Result<(), WriteFault>
    requires { IsStateOf program.now state.now }
    ensures { Sends (W.log writer.old) (W.log writer.new) buffer.old buffer.new result (lines_text (item_records Second program.now state.now)) }
{
    add_vars(buffer, program.decls().vars(), state, writer)?;
    add_memories(buffer, program, state, writer)?;
    add_blocks(buffer, program.decls().instances(), state, writer)
}

/// Adds the whole text of a state: version, moment, variables, memories, instances.
fn add_state<W: Sink>(
    buffer: &mut TextBuffer,
    program: &Program,
    state: &State,
    writer: &mut W,
) -> Result<(), WriteFault>
    requires { IsStateOf program.now state.now }
    ensures { Sends (W.log writer.old) (W.log writer.new) buffer.old buffer.new result (state_text program.now state.now) }
{
    add_version(buffer, writer)?;
    add_moment(buffer, state.moment(), writer)?;
    add_items(buffer, program, state, writer)
}

/// Writes the text of a state, in version 2. It needs no memory.
///
/// # Errors
///
/// X6: the writer failed. What was written is a prefix of the text.
pub fn write_state<W: Sink>(
    program: &Program,
    state: &State,
    writer: &mut W,
) -> Result<(), WriteFault>
    requires { Fits program.now state.now }
    ensures { Puts (W.log writer.old) (W.log writer.new) result (state_text program.now state.now) }
{
    state.checked();
    let mut buffer = TextBuffer::new();
    add_state(&mut buffer, program, state, writer)?;
    buffer.flush(writer)?;
    Ok(())
}
