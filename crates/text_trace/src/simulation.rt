//! The simulation of a stimulus, record by record.

ghost use Rattle.std.specs.Prelude.{◌≡◌, ◌<◌, ◌≤◌, ◌+◌, ◌-◌, ◌^◌, [], ℕ, All, IfOk, IfSome, List, OnErr, OnOk, count_by, false, length, true};
ghost use Rattle.csv.specs.Records.{fields_of};
ghost use Rattle.diagram_reader.specs.Reading.{IsProgram};
ghost use Rattle.diagram_reader.specs.Titled.{without_aliases};
ghost use Rattle.io_text.specs.Left.{Fields, Left};
ghost use Rattle.io_text.specs.Text.{records_of};
ghost use Rattle.scan_incremental.specs.Resting.{IsTrueOf};
ghost use Rattle.scan_cycle.specs.Programs.{diagram_of};
ghost use Rattle.scan_cycle.specs.Rung.{Held};
ghost use Rattle.scan_cycle.specs.Standing.{Fits};
ghost use Rattle.io_text.specs.Log.{Puts, WriteLog};
ghost use Rattle.diagram_declarations.specs.Decls.{is_input};
ghost use Rattle.text_trace.specs.Coming.{Gives, IsFresh, IsSound};
ghost use Rattle.text_trace.specs.Filled.{Numbered, filled};
ghost use Rattle.text_trace.specs.Reached.{Reaches, WatchesTold, each_of, reached_piece};
ghost use Rattle.text_trace.specs.Room.{IsReady};
ghost use Rattle.text_trace.specs.Simulation.{Films, FollowsEvery, Simulates, SimulatesEvery, WavesEvery, as_film, as_waves};
ghost use Rattle.text_trace.specs.Steps.{CanRecord, EndsBoth, IsGoing, ScansTo, StepsTo, as_asked, as_lines, as_run};
ghost use Rattle.text_trace.specs.Trace.{as_changes, as_trace, as_watched};

use crate::alike::are_alike;
use crate::column::Column;
use crate::fault::{SimFault, WatchFault};
use crate::filling::{Filling, Taken, filling_from, take};
use crate::header::columns;
use crate::recording::{Film, Recording, Watched};
use crate::row::{fill_inputs, give_columns, inputs};
use crate::trace::{outputs, write_header, write_row};
use crate::watching::{write_watched_header, write_watched_row};
use csv::ByteRecord;
use diagram_program::Program;
use io_text::{CountedWriter, Piece, Sink, TextBuffer, WriteFault, next, put_pieces};
use scan_cycle::State;
use scan_incremental::{Resting, scan};
use std::alloc::{AllocError, Global};
use std::io;
use text_drawing::{Scan, ShowFault, write_drawing, write_film_start};
use text_vcd::{write_changes, write_start};

/// The most records after the header, where there are no scans between them.
const MOST: u64 = 1_000_000;

/// The most with those in between: a scan every 10 ms for three years.
const MOST_FILLED: u64 = 10_000_000_000;

/// The most of a film.
const MOST_DRAWN: u64 = 1_000;

/// After how many scans of a whole trace a line tells how far it is: about a second's work.
const LINES_WHOLE: u64 = 1_000_000;

/// The same of a trace of changes, which has few rows.
const LINES_CHANGES: u64 = 10_000_000;

/// What a simulation allocates before its first write, beside its records: the input image and the bits of a row of the trace, with the
/// numbers of the variables that they are filled from, the buffer for a row, and a state for what a waveform compares with. With it goes
/// what is remembered from scan to scan.
#[derive(Drop)]
struct Room {
    inputs: Vec<usize>,
    image: Vec<bool>,
    outputs: Vec<usize>,
    line: Vec<u8>,
    buffer: TextBuffer,
    before: State,
    resting: Resting,
}

/// A program, and what is written of its scans.
#[derive(Clone, Copy)]
struct Run<'a> {
    alloc: Global,
    program: &'a Program,
    recording: Recording<'a>,
    /// The time between two scans where a record is held, in ms; 0 where each record has one scan.
    every: u64,
    /// After how many scans there is a line that tells how far the simulation is; 0: there is none.
    lines: u64,
    /// How many scans were made.
    done: u64,
}

/// How many scans a stimulus may have: fewer in a film, for each scan is a whole drawing.
fn most(run: Run<'_>) -> u64
    ensures value { result ≡ (as_run run.entry).most }
    ensures small { result ≤ 10000000000 }
{
    if run.every > 0 {
        return MOST_FILLED;
    }
    match run.recording {
        Recording::Trace | Recording::Watched(_) | Recording::Changes(_) | Recording::Waves => MOST,
        Recording::Film(_) => MOST_DRAWN,
    }
}

/// Writes what a recording begins with: the header of a trace, or the start of a film or a waveform.
fn write_head<W: Sink>(
    recording: Recording<'_>,
    program: &Program,
    state: &State,
    buffer: &mut TextBuffer,
    writer: &mut W,
) -> Result<(), WriteFault>
    requires { buffer.old ≡ [] }
    ensures wrote { Puts (W.log writer.old) (W.log writer.new) result ((as_asked recording.entry).head program.now state.now) }
    ensures empty { OnOk result (buffer.new ≡ []) }
{
    match recording {
        Recording::Trace => write_header(program, buffer, writer),
        Recording::Watched(columns) | Recording::Changes(columns) => {
            write_watched_header(program, columns, buffer, writer)
        }
        Recording::Film(film) => write_film_start(film.style, film.title, writer),
        Recording::Waves => write_start(program, state, buffer, writer),
    }
}

/// Makes a scan with the input image, and writes its row of the trace.
fn trace_scan<W: Sink>(
    run: Run<'_>,
    moment: u64,
    number: u64,
    room: &mut Room,
    state: &mut State,
    writer: &mut W,
) -> Result<(), SimFault>
    requires fits { Fits run.program.now state.old }
    requires ready { IsReady run.program.now room.old }
    requires rest { IsTrueOf (diagram_of run.program.now) state.old.moment state.old.held room.old.resting }
    ensures fits { Fits run.entry.program.now state.new }
    ensures ready { OnOk result (IsReady run.entry.program.now room.new) }
    ensures rest { OnOk result (IsTrueOf (diagram_of run.entry.program.now) state.new.moment state.new.held room.new.resting) }
    ensures scans { ScansTo as_trace run.entry.program.now run.entry.done number state.old moment room.old.image.items state.new (W.log writer.old) (W.log writer.new) result }
{
    let Ok(()) = scan(run.program, state, &mut room.resting, &room.image, moment) else {
        return Err(SimFault::MomentBack { row: number });
    };
    let (outputs, line) = (&room.outputs, &mut room.line);
    let Ok(()) = write_row(run.program, outputs, line, state, &mut room.buffer, writer) else {
        return Err(SimFault::Write);
    };
    Ok(())
}

/// Makes a scan with the input image, and writes its row of the trace with the watched columns.
fn watch_scan<W: Sink>(
    run: Run<'_>,
    watched: &[Column],
    moment: u64,
    number: u64,
    room: &mut Room,
    state: &mut State,
    writer: &mut W,
) -> Result<(), SimFault>
    requires fits { Fits run.program.now state.old }
    requires ready { IsReady run.program.now room.old }
    requires rest { IsTrueOf (diagram_of run.program.now) state.old.moment state.old.held room.old.resting }
    ensures fits { Fits run.entry.program.now state.new }
    ensures ready { OnOk result (IsReady run.entry.program.now room.new) }
    ensures rest { OnOk result (IsTrueOf (diagram_of run.entry.program.now) state.new.moment state.new.held room.new.resting) }
    ensures scans { ScansTo (as_watched watched.now) run.entry.program.now run.entry.done number state.old moment room.old.image.items state.new (W.log writer.old) (W.log writer.new) result }
{
    match scan(run.program, state, &mut room.resting, &room.image, moment) {
        Ok(()) => (),
        Err(_) => return Err(SimFault::MomentBack { row: number }),
    }
    let (outputs, line) = (&room.outputs, &mut room.line);
    let (program, buffer) = (run.program, &mut room.buffer);
    let Ok(()) = write_watched_row(program, outputs, line, state, watched, buffer, writer) else {
        return Err(SimFault::Write);
    };
    Ok(())
}

/// Makes a scan with the input image, and writes its drawing for a film.
fn draw_scan<W: Sink>(
    run: Run<'_>,
    film: Film<'_>,
    moment: u64,
    number: u64,
    image: &[bool],
    state: &mut State,
    writer: &mut W,
) -> Result<(), SimFault>
    requires drawn { IsProgram film.text.now (without_aliases run.program.now) }
    requires fits { Fits run.program.now state.old }
    ensures fits { Fits run.entry.program.now state.new }
    ensures scans { ScansTo (as_film film.entry) run.entry.program.now run.entry.done number state.old moment image.now state.new (W.log writer.old) (W.log writer.new) result }
{
    if moment < state.moment() {
        return Err(SimFault::MomentBack { row: number });
    }
    let scan = Scan {
        text: film.text,
        program: run.program,
        inputs: image,
        moment,
        coil: film.coil,
    };
    match write_drawing(run.alloc, film.style, scan, state, writer) {
        Ok(()) => Ok(()),
        Err(ShowFault::Memory) => Err(SimFault::Memory),
        Err(ShowFault::Write) => Err(SimFault::Write),
    }
}

/// Keeps a copy of the state in room that was made before.
fn keep(program: &Program, state: &State, before: &mut State)
    requires fits { Fits program.now state.now }
    requires room { Fits program.now before.old }
    ensures { before.new ≡ state.now }
{
    state.checked();
    before.checked();
    before.copy_from(state);
}

/// Makes a scan with the input image, and writes its row if it is the first one, or not like the row before.
fn change_scan<W: Sink>(
    run: Run<'_>,
    watched: &[Column],
    moment: u64,
    number: u64,
    room: &mut Room,
    state: &mut State,
    writer: &mut W,
) -> Result<(), SimFault>
    requires fits { Fits run.program.now state.old }
    requires ready { IsReady run.program.now room.old }
    requires rest { IsTrueOf (diagram_of run.program.now) state.old.moment state.old.held room.old.resting }
    ensures fits { Fits run.entry.program.now state.new }
    ensures ready { OnOk result (IsReady run.entry.program.now room.new) }
    ensures rest { OnOk result (IsTrueOf (diagram_of run.entry.program.now) state.new.moment state.new.held room.new.resting) }
    ensures scans { ScansTo (as_changes watched.now) run.entry.program.now run.entry.done number state.old moment room.old.image.items state.new (W.log writer.old) (W.log writer.new) result }
{
    keep(run.program, state, &mut room.before);
    let Ok(()) = scan(run.program, state, &mut room.resting, &room.image, moment) else {
        return Err(SimFault::MomentBack { row: number });
    };
    let (program, outputs, line) = (run.program, &room.outputs, &mut room.line);
    if run.done > 0 && are_alike(program, outputs, watched, &room.before, state) {
        return Ok(());
    }
    let buffer = &mut room.buffer;
    let Ok(()) = write_watched_row(program, outputs, line, state, watched, buffer, writer) else {
        return Err(SimFault::Write);
    };
    Ok(())
}

/// Makes a scan with the input image, and writes what it changed for a waveform.
fn wave_scan<W: Sink>(
    run: Run<'_>,
    moment: u64,
    number: u64,
    room: &mut Room,
    state: &mut State,
    writer: &mut W,
) -> Result<(), SimFault>
    requires fits { Fits run.program.now state.old }
    requires ready { IsReady run.program.now room.old }
    requires rest { IsTrueOf (diagram_of run.program.now) state.old.moment state.old.held room.old.resting }
    ensures fits { Fits run.entry.program.now state.new }
    ensures ready { OnOk result (IsReady run.entry.program.now room.new) }
    ensures rest { OnOk result (IsTrueOf (diagram_of run.entry.program.now) state.new.moment state.new.held room.new.resting) }
    ensures scans { ScansTo as_waves run.entry.program.now run.entry.done number state.old moment room.old.image.items state.new (W.log writer.old) (W.log writer.new) result }
{
    keep(run.program, state, &mut room.before);
    let Ok(()) = scan(run.program, state, &mut room.resting, &room.image, moment) else {
        return Err(SimFault::MomentBack { row: number });
    };
    let Ok(()) = write_changes(run.program, &room.before, state, &mut room.buffer, writer) else {
        return Err(SimFault::Write);
    };
    Ok(())
}

/// Makes the scan of one record with the bits of its row, and writes what is recorded of it.
fn step<W: Sink>(
    run: Run<'_>,
    columns: &[usize],
    taken: Taken,
    row: &ByteRecord,
    room: &mut Room,
    state: &mut State,
    writer: &mut W,
) -> Result<(), SimFault>
    requires recorded { CanRecord run.recording run.program.now }
    requires fits { Fits run.program.now state.old }
    requires ready { IsReady run.program.now room.old }
    requires rest { IsTrueOf (diagram_of run.program.now) state.old.moment state.old.held room.old.resting }
    requires below { All (λ c. c < count_by is_input run.program.now.decls.vars) columns.now }
    requires wide { IfSome taken.moment (λ m. length (fields_of row.now) ≡ length columns.now + 1) }
    ensures fits { Fits run.entry.program.now state.new }
    ensures ready { OnOk result (IsReady run.entry.program.now room.new) }
    ensures rest { OnOk result (IsTrueOf (diagram_of run.entry.program.now) state.new.moment state.new.held room.new.resting) }
    ensures steps { (fields : Fields) → Gives columns.now taken.moment (fields_of row.now) fields
        → StepsTo (as_run run.entry) run.entry.program.now columns.now run.entry.done taken.number state.old fields state.new (W.log writer.old) (W.log writer.new) result }
{
    let number = taken.number;
    let Some(moment) = taken.moment else {
        return Err(SimFault::BadRow { row: number });
    };
    fill_inputs(&room.inputs, state, &mut room.image);
    give_columns(columns, row, &mut room.image);
    match run.recording {
        Recording::Trace => trace_scan(run, moment, number, room, state, writer),
        Recording::Watched(watched) => {
            watch_scan(run, watched, moment, number, room, state, writer)
        }
        Recording::Changes(watched) => {
            change_scan(run, watched, moment, number, room, state, writer)
        }
        Recording::Film(film) => {
            room.resting.forget();
            draw_scan(run, film, moment, number, &room.image, state, writer)
        }
        Recording::Waves => wave_scan(run, moment, number, room, state, writer),
    }
}

/// Tells the moment of a scan that `done` others precede, if it is one of each `lines`; 0: none is.
fn tell<E: Sink>(lines: u64, done: u64, moment: u64, err: &mut E) -> Result<(), WriteFault>
    requires { done < 2 ^ 64 - 1 }
    ensures told { Puts (E.log err.old) (E.log err.new) result (reached_piece lines done moment) }
    ensures asked { OnErr result (0 < lines) }
    ensures untold { lines ≡ 0 → E.log err.new ≡ E.log err.old }
{
    if lines == 0 || (done + 1) % lines > 0 {
        return Ok(());
    }
    let pieces = [
        Piece::Text(b"reached "),
        Piece::Number(moment),
        Piece::Text(b"\n"),
    ];
    put_pieces(err, pieces.as_slice())
}

/// Takes all records after the header, one scan each, up to the most that a recording may have. After a scan comes its line.
fn follow_rows<W: Sink, E: Sink>(
    run: Run<'_>,
    columns: &[usize],
    filling: &mut Filling<'_>,
    room: &mut Room,
    state: &mut State,
    writer: &mut W,
    err: &mut E,
) -> Result<u64, WatchFault>
    requires recorded { CanRecord run.recording run.program.now }
    requires sound { IsSound columns.now filling.old }
    requires first { filling.old.number ≡ 2 }
    requires fits { Fits run.program.now state.old }
    requires ready { IsReady run.program.now room.old }
    requires rest { IsTrueOf (diagram_of run.program.now) state.old.moment state.old.held room.old.resting }
    requires below { All (λ c. c < count_by is_input run.program.now.decls.vars) columns.now }
    ensures fits { Fits run.entry.program.now state.new }
    ensures ends { (all : List Numbered) (log told : WriteLog)
        → IsGoing (as_run run.entry) run.entry.program.now columns.now state.old all 0 state.old log (W.log writer.old) filling.old
        → IsGoing (as_lines run.entry) run.entry.program.now columns.now state.old all 0 state.old told (E.log err.old) filling.old
        → EndsBoth (as_run run.entry) run.entry.lines run.entry.program.now state.old all state.new log (W.log writer.new) told (E.log err.new) result }
    ensures untold { run.entry.lines ≡ 0 → E.log err.new ≡ E.log err.old }
{
    let most = most(run);
    for done in 0..u64::MAX {
        let Ok(found) = take(columns, filling) else {
            return Err(WatchFault::Sim(SimFault::Memory));
        };
        let Some(taken) = found else {
            return Ok(done);
        };
        if done == most {
            return Err(WatchFault::Sim(SimFault::TooLong { row: taken.number }));
        }
        let one = Run {
            alloc: run.alloc,
            program: run.program,
            recording: run.recording,
            every: run.every,
            lines: run.lines,
            done,
        };
        if let Err(fault) = step(one, columns, taken, &filling.last, room, state, writer) {
            return Err(WatchFault::Sim(fault));
        }
        let Ok(()) = tell(run.lines, done, state.moment(), err) else {
            return Err(WatchFault::Lines);
        };
    }
    Err(WatchFault::Sim(SimFault::Memory))
}

/// Takes the records of a stimulus one after the other, writes what is recorded of them, and tells how far it is.
fn follow_records<W: Sink, E: Sink>(
    run: Run<'_>,
    filling: &mut Filling<'_>,
    room: &mut Room,
    state: &mut State,
    writer: &mut W,
    err: &mut E,
) -> Result<u64, WatchFault>
    requires recorded { CanRecord run.recording run.program.now }
    requires fresh { IsFresh filling.old }
    requires fits { Fits run.program.now state.old }
    requires ready { IsReady run.program.now room.old }
    requires rest { IsTrueOf (diagram_of run.program.now) state.old.moment state.old.held room.old.resting }
    ensures fits { Fits run.entry.program.now state.new }
    ensures ends { (rows : List Fields) → Left filling.old.records rows
        → EndsBoth (as_run run.entry) run.entry.lines run.entry.program.now state.old (filled filling.old.every rows) state.new (W.log writer.old) (W.log writer.new) (E.log err.old) (E.log err.new) result }
    ensures untold { run.entry.lines ≡ 0 → E.log err.new ≡ E.log err.old }
{
    let Ok(found) = next(&mut filling.records, &mut filling.last) else {
        return Err(WatchFault::Sim(SimFault::Memory));
    };
    if !found {
        return Err(WatchFault::Sim(SimFault::BadRow { row: 1 }));
    }
    let columns = match columns(run.alloc, run.program.decls(), &filling.last) {
        Ok(columns) => columns,
        Err(fault) => return Err(WatchFault::Sim(fault)),
    };
    let Ok(()) = write_head(run.recording, run.program, state, &mut room.buffer, writer) else {
        return Err(WatchFault::Sim(SimFault::Write));
    };
    follow_rows(run, &columns, filling, room, state, writer, err)
}

/// All that a simulation allocates, before its first write: so none of its scans runs out of memory.
fn room_for(alloc: Global, program: &Program, state: &State) -> Result<Room, AllocError>
    requires { Fits program.now state.now }
    ensures ready { IfOk result (λ room. IsReady program.now room) }
    ensures rest { IfOk result (λ room. (moment : ℕ) (h : Held) → IsTrueOf (diagram_of program.now) moment h room.resting) }
{
    let vars = program.decls().vars();
    let inputs = inputs(alloc, vars)?;
    let image = vec![in alloc; false; inputs.len()]?;
    let outputs = outputs(alloc, vars)?;
    let line = vec![in alloc; b','; 2 * outputs.len()]?;
    let Ok(before) = state.copy(alloc) else {
        return Err(AllocError);
    };
    Ok(Room {
        inputs,
        image,
        outputs,
        line,
        buffer: TextBuffer::new(),
        before,
        resting: Resting::new(alloc, program)?,
    })
}

/// Reads a stimulus, makes its scans, writes what is recorded of them, and tells how far it is.
fn follow<W: Sink, E: Sink>(
    run: Run<'_>,
    state: &mut State,
    stimulus: &[u8],
    writer: &mut W,
    err: &mut E,
) -> Result<u64, WatchFault>
    requires recorded { CanRecord run.recording run.program.now }
    requires fits { Fits run.program.now state.old }
    ensures fits { Fits run.entry.program.now state.new }
    ensures ends { Reaches (as_asked run.entry.recording) run.entry.lines run.entry.every run.entry.program.now state.old (records_of stimulus.now) state.new (W.log writer.old) (W.log writer.new) (E.log err.old) (E.log err.new) result }
    ensures untold { run.entry.lines ≡ 0 → E.log err.new ≡ E.log err.old }
{
    let (alloc, program) = (run.alloc, run.program);
    let mut filling = filling_from(alloc, stimulus, run.every);
    let Ok(mut room) = room_for(alloc, program, state) else {
        return Err(WatchFault::Sim(SimFault::Memory));
    };
    follow_records(run, &mut filling, &mut room, state, writer, err)
}

/// Reads a stimulus, makes its scans, and writes what is recorded of them. It has no lines, so their writer is never used.
fn follow_untold<W: Sink>(
    run: Run<'_>,
    state: &mut State,
    stimulus: &[u8],
    writer: &mut W,
) -> Result<u64, SimFault>
    requires untold { run.lines ≡ 0 }
    requires recorded { CanRecord run.recording run.program.now }
    requires fits { Fits run.program.now state.old }
    ensures fits { Fits run.entry.program.now state.new }
    ensures ends { FollowsEvery (as_asked run.entry.recording) run.entry.every run.entry.program.now state.old (records_of stimulus.now) state.new (W.log writer.old) (W.log writer.new) result }
{
    let mut untold = CountedWriter::new(io::sink());
    match follow(run, state, stimulus, writer, &mut untold) {
        Ok(scans) => Ok(scans),
        Err(WatchFault::Sim(fault)) => Err(fault),
        Err(WatchFault::Lines) => Err(SimFault::Write),
    }
}

/// Scans a stimulus record by record from a state, and writes the trace: each row as one piece, before the next record is read. Returns
/// the number of scans.
///
/// # Errors
///
/// The trace of the records before the bad one was written, and the state is the one after them. A fault of the header leaves
/// nothing written and the state as it was. After a failed write the state is the one after the scan whose row was being written.
pub fn simulate<W: Sink>(
    alloc: Global,
    program: &Program,
    state: &mut State,
    stimulus: &[u8],
    writer: &mut W,
) -> Result<u64, SimFault>
    requires { Fits program.now state.old }
    ensures fits { Fits program.now state.new }
    ensures ends { Simulates program.now state.old (records_of stimulus.now) state.new (W.log writer.old) (W.log writer.new) result }
{
    simulate_every(alloc, program, state, stimulus, 0, writer)
}

/// Scans a stimulus as `simulate` does, and holds the inputs of a record until the next one with a scan every `every` ms; 0 holds none.
///
/// # Errors
///
/// As those of `simulate`.
pub fn simulate_every<W: Sink>(
    alloc: Global,
    program: &Program,
    state: &mut State,
    stimulus: &[u8],
    every: u64,
    writer: &mut W,
) -> Result<u64, SimFault>
    requires { Fits program.now state.old }
    ensures fits { Fits program.now state.new }
    ensures ends { SimulatesEvery every program.now state.old (records_of stimulus.now) state.new (W.log writer.old) (W.log writer.new) result }
{
    let run = Run {
        alloc,
        program,
        recording: Recording::Trace,
        every,
        lines: 0,
        done: 0,
    };
    follow_untold(run, state, stimulus, writer)
}

/// After how many scans there is a line; 0: there is none.
fn lines_of(tells: bool, changes: bool) -> u64
    ensures { result ≡ each_of tells changes }
{
    match (tells, changes) {
        (false, _) => 0,
        (true, false) => LINES_WHOLE,
        (true, true) => LINES_CHANGES,
    }
}

/// Scans a stimulus, writes the trace with these columns after the outputs, and tells how far it is.
fn watch_whole<W: Sink, E: Sink>(
    alloc: Global,
    program: &Program,
    watched: Watched<'_>,
    state: &mut State,
    stimulus: &[u8],
    writer: &mut W,
    err: &mut E,
) -> Result<u64, WatchFault>
    requires { Fits program.now state.old }
    ensures fits { Fits program.now state.new }
    ensures ends { Reaches (as_watched watched.entry.columns.now) (each_of watched.entry.tells false) watched.entry.every program.now state.old (records_of stimulus.now) state.new (W.log writer.old) (W.log writer.new) (E.log err.old) (E.log err.new) result }
    ensures untold { watched.entry.tells ≡ false → E.log err.new ≡ E.log err.old }
{
    let run = Run {
        alloc,
        program,
        recording: Recording::Watched(watched.columns),
        every: watched.every,
        lines: lines_of(watched.tells, false),
        done: 0,
    };
    follow(run, state, stimulus, writer, err)
}

/// Scans a stimulus, writes the trace of changes with these columns after the outputs, and tells how far it is.
fn watch_changes<W: Sink, E: Sink>(
    alloc: Global,
    program: &Program,
    watched: Watched<'_>,
    state: &mut State,
    stimulus: &[u8],
    writer: &mut W,
    err: &mut E,
) -> Result<u64, WatchFault>
    requires { Fits program.now state.old }
    ensures fits { Fits program.now state.new }
    ensures ends { Reaches (as_changes watched.entry.columns.now) (each_of watched.entry.tells true) watched.entry.every program.now state.old (records_of stimulus.now) state.new (W.log writer.old) (W.log writer.new) (E.log err.old) (E.log err.new) result }
    ensures untold { watched.entry.tells ≡ false → E.log err.new ≡ E.log err.old }
{
    let run = Run {
        alloc,
        program,
        recording: Recording::Changes(watched.columns),
        every: watched.every,
        lines: lines_of(watched.tells, true),
        done: 0,
    };
    follow(run, state, stimulus, writer, err)
}

/// Scans a stimulus as `simulate_every` does, and writes the trace with these columns after the outputs: each row, or those of changes. Where
/// that is asked for, the line `reached MOMENT` tells on `err` how far it is, after each so many scans. Returns how many scans there were.
///
/// # Errors
///
/// As those of `simulate`. Where a line could not be written, the rows of all scans up to its own were, and the state is the one after that.
pub fn watch<W: Sink, E: Sink>(
    alloc: Global,
    program: &Program,
    watched: Watched<'_>,
    state: &mut State,
    stimulus: &[u8],
    writer: &mut W,
    err: &mut E,
) -> Result<u64, WatchFault>
    requires { Fits program.now state.old }
    ensures fits { Fits program.now state.new }
    ensures ends { WatchesTold watched.entry.tells watched.entry.changes watched.entry.columns.now watched.entry.every program.now state.old (records_of stimulus.now) state.new (W.log writer.old) (W.log writer.new) (E.log err.old) (E.log err.new) result }
    ensures untold { watched.entry.tells ≡ false → E.log err.new ≡ E.log err.old }
{
    match watched.changes {
        true => watch_changes(alloc, program, watched, state, stimulus, writer, err),
        false => watch_whole(alloc, program, watched, state, stimulus, writer, err),
    }
}

/// Scans a stimulus as `simulate` does, and writes a film: the drawings of its scans, at most 1,000. Returns how many there were.
///
/// # Errors
///
/// As those of `simulate`. Out of memory a drawing is not begun, and the state is the one after the scans that were drawn.
pub fn write_film<W: Sink>(
    alloc: Global,
    film: Film<'_>,
    program: &Program,
    state: &mut State,
    stimulus: &[u8],
    writer: &mut W,
) -> Result<u64, SimFault>
    requires drawn { IsProgram film.text.now (without_aliases program.now) }
    requires fits { Fits program.now state.old }
    ensures fits { Fits program.now state.new }
    ensures ends { Films film.entry program.now state.old (records_of stimulus.now) state.new (W.log writer.old) (W.log writer.new) result }
{
    let run = Run {
        alloc,
        program,
        recording: Recording::Film(film),
        every: 0,
        lines: 0,
        done: 0,
    };
    follow_untold(run, state, stimulus, writer)
}

/// Scans a stimulus as `simulate` does, and writes a waveform: a value change dump of the variables and of the instances' outputs, for
/// GTKWave and other viewers. Returns how many scans there were.
///
/// # Errors
///
/// As those of `simulate`.
pub fn write_waves<W: Sink>(
    alloc: Global,
    program: &Program,
    state: &mut State,
    stimulus: &[u8],
    every: u64,
    writer: &mut W,
) -> Result<u64, SimFault>
    requires { Fits program.now state.old }
    ensures fits { Fits program.now state.new }
    ensures ends { WavesEvery every program.now state.old (records_of stimulus.now) state.new (W.log writer.old) (W.log writer.new) result }
{
    let run = Run {
        alloc,
        program,
        recording: Recording::Waves,
        every,
        lines: 0,
        done: 0,
    };
    follow_untold(run, state, stimulus, writer)
}
