//! The records of all variables, memories and instances, one after the other.

ghost use Rattle.std.specs.Prelude.{◌≡◌, ◌<◌, ◌≤◌, ◌+◌, ◌*◌, List, ⊤, length, map, IfOk, IfSome};
ghost use Rattle.diagram_program.specs.declared.geometry.TheConstants.{PLACES, RUNGS};
ghost use Rattle.diagram_program.specs.Program.{cell_in, has_memory, memories_of, IsWhole};
ghost use Rattle.io_text.specs.Left.{Fields, IsPlain, Left};
ghost use Rattle.scan_cycle.specs.Standing.{CanStore, Fits, IsStanding, with_blocks, with_memories, with_values};
ghost use Rattle.text_state.specs.Parts.{CanHold, ReadsItems, ReadsPart, TakesItem, block_item, block_records, each, every, tells};
ghost use Rattle.text_state.specs.StateText.{block_record, memory_places, memory_record, var_record, AreTold};

use crate::fault::StateFault;
use crate::row::{read_block, read_memory, read_var};
use crate::version::Version;
use csv::ByteRecord;
use diagram_declarations::{Instance, Var};
use diagram_program::Program;
use diagram_program::geometry::{PLACES, ROWS};
use io_text::{Records, next};
use scan_cycle::State;
use scan_signals::Stored;
use std::alloc::AllocError;

/// The value in the next record, where that is one of the variable.
fn next_value(
    var: &Var,
    records: &mut Records<'_>,
    row: &mut ByteRecord,
) -> Result<Option<bool>, AllocError>
    requires { IsPlain records.old }
    ensures plain { IfOk result (λ _. IsPlain records.new) }
    ensures takes { (rows : List Fields) → Left records.old rows → IfOk result (λ o. TakesItem (var_record var.now) (λ _. ⊤) rows records.new o) }
{
    let found = next(records, row)?;
    if !found {
        return Ok(None);
    }
    Ok(read_var(var, row))
}

/// Reads the records of the variables, which follow the first `before`.
fn read_values(
    vars: &[Var],
    records: &mut Records<'_>,
    row: &mut ByteRecord,
    before: u64,
    state: &mut State,
) -> Result<(), StateFault>
    requires plain { IsPlain records.old }
    requires few { length vars.now ≤ 256 }
    requires small { before ≤ 10000 }
    requires values { length state.old.held.values ≡ length vars.now }
    ensures plain { IfOk result (λ _. IsPlain records.new) }
    ensures part { (rows : List Fields) → Left records.old rows → ReadsPart every var_record (λ _ _. ⊤) vars.now state.new.held.values rows before records.new result }
    ensures values { length state.new.held.values ≡ length vars.now }
    ensures others { state.new ≡ with_values state.old state.new.held.values }
{
    for number in 0..vars.len() {
        let Ok(value) = next_value(&vars[number], records, row) else {
            return Err(StateFault::Memory);
        };
        let Some(value) = value else {
            return Err(StateFault::BadRow {
                row: before + number as u64 + 1,
            });
        };
        state.set_value(number, value);
    }
    Ok(())
}

/// Whether an edge contact or edge coil is at a place. Places go by rung, column and row.
pub(crate) fn is_memory_place(program: &Program, place: usize) -> bool
    requires { place < PLACES * program.now.rungs }
    ensures { result ≡ has_memory (cell_in program.now place) }
{
    program
        .cell(place / PLACES, place % PLACES % ROWS, place % PLACES / ROWS)
        .has_memory()
}

/// The value in the next record, where that is one of the memory at the place.
fn next_memory(
    place: usize,
    records: &mut Records<'_>,
    row: &mut ByteRecord,
) -> Result<Option<bool>, AllocError>
    requires plain { IsPlain records.old }
    requires place { place < PLACES * RUNGS }
    ensures plain { IfOk result (λ _. IsPlain records.new) }
    ensures takes { (rows : List Fields) → Left records.old rows → IfOk result (λ o. TakesItem (memory_record place) (λ _. ⊤) rows records.new o) }
{
    let found = next(records, row)?;
    if !found {
        return Ok(None);
    }
    Ok(read_memory(place, row))
}

/// Reads the records of the memories, which follow the first `before`.
fn read_memories(
    program: &Program,
    records: &mut Records<'_>,
    row: &mut ByteRecord,
    before: u64,
    state: &mut State,
) -> Result<(), StateFault>
    requires plain { IsPlain records.old }
    requires small { before ≤ 10000 }
    requires memories { length state.old.held.kept.memories ≡ memories_of program.now }
    requires whole { IsWhole program.now }
    ensures plain { IfOk result (λ _. IsPlain records.new) }
    ensures part { (rows : List Fields) → Left records.old rows → ReadsPart every memory_record (λ _ _. ⊤) (memory_places program.now) state.new.held.kept.memories rows before records.new result }
    ensures memories { length state.new.held.kept.memories ≡ memories_of program.now }
    ensures others { state.new ≡ with_memories state.old state.new.held.kept.memories }
{
    let mut number = 0;
    for place in 0..PLACES * program.rungs() {
        if !is_memory_place(program, place) {
            continue;
        }
        let Ok(value) = next_memory(place, records, row) else {
            return Err(StateFault::Memory);
        };
        let Some(value) = value else {
            return Err(StateFault::BadRow {
                row: before + number as u64 + 1,
            });
        };
        state.set_memory(number, value);
        number += 1;
    }
    Ok(())
}

/// What an instance stores by the next record, where that is one of it.
fn next_block(
    instance: &Instance,
    moment: u64,
    records: &mut Records<'_>,
    row: &mut ByteRecord,
) -> Result<Option<Stored>, AllocError>
    requires { IsPlain records.old }
    ensures plain { IfOk result (λ _. IsPlain records.new) }
    ensures can { IfOk result (λ o. IfSome o (CanStore instance.now.kind moment)) }
    ensures takes { (rows : List Fields) → Left records.old rows → IfOk result (λ o. TakesItem (block_record instance.now.name) (CanStore instance.now.kind moment) rows records.new o) }
{
    let found = next(records, row)?;
    if !found {
        return Ok(None);
    }
    Ok(read_block(instance, moment, row))
}

/// Reads the records of the instances, which follow the first `before`, and returns the number of the last one.
fn read_blocks(
    version: Version,
    instances: &[Instance],
    records: &mut Records<'_>,
    row: &mut ByteRecord,
    before: u64,
    state: &mut State,
) -> Result<u64, StateFault>
    requires plain { IsPlain records.old }
    requires few { length instances.now ≤ 64 }
    requires small { before ≤ 10000 }
    requires kinds { state.old.kinds ≡ map (λ i. i.kind) instances.now }
    requires blocks { length state.old.held.kept.blocks ≡ length instances.now }
    requires told { AreTold version instances.now state.old.held.kept.blocks }
    ensures plain { IfOk result (λ _. IsPlain records.new) }
    ensures part { (rows : List Fields) → Left records.old rows → ReadsPart (tells version) block_item (CanHold state.old.moment) instances.now state.new.held.kept.blocks rows before records.new result }
    ensures last { IfOk result (λ last. last ≡ before + length (each (block_records version) instances.now state.new.held.kept.blocks)) }
    ensures few { IfOk result (λ last. last ≤ before + 64) }
    ensures blocks { length state.new.held.kept.blocks ≡ length instances.now }
    ensures others { state.new ≡ with_blocks state.old state.new.held.kept.blocks }
    ensures told { AreTold version instances.now state.new.held.kept.blocks }
{
    let mut last = before;
    for number in 0..instances.len() {
        let instance = &instances[number];
        if !version.has_record(instance.kind) {
            continue;
        }
        let Ok(stored) = next_block(instance, state.moment(), records, row) else {
            return Err(StateFault::Memory);
        };
        let Some(stored) = stored else {
            return Err(StateFault::BadRow { row: last + 1 });
        };
        state.set_block(number, stored);
        last += 1;
    }
    Ok(last)
}

/// Reads the records of all variables, memories and instances, and makes sure that no other record follows.
pub(crate) fn read_parts(
    version: Version,
    program: &Program,
    records: &mut Records<'_>,
    row: &mut ByteRecord,
    state: &mut State,
) -> Result<(), StateFault>
    requires plain { IsPlain records.old }
    requires fits { Fits program.now state.old }
    requires told { AreTold version program.now.decls.instances state.old.held.kept.blocks }
    ensures fits { Fits program.now state.new }
    ensures told { AreTold version program.now.decls.instances state.new.held.kept.blocks }
    ensures moment { state.new.moment ≡ state.old.moment }
    ensures items { IsStanding state.new → (rows : List Fields) → Left records.old rows → ReadsItems version program.now state.new rows result }
{
    let vars = program.decls().vars();
    let instances = program.decls().instances();
    let _rungs = program.rungs();
    if let Err(fault) = read_values(vars, records, row, 2, state) {
        return Err(fault);
    }
    if let Err(fault) = read_memories(program, records, row, 2 + vars.len() as u64, state) {
        return Err(fault);
    }
    let before = 2 + (vars.len() + program.memories()) as u64;
    state.checked();
    let last = match read_blocks(version, instances, records, row, before, state) {
        Ok(last) => last,
        Err(fault) => return Err(fault),
    };
    let Ok(found) = next(records, row) else {
        return Err(StateFault::Memory);
    };
    let beyond = last + 1;
    if found {
        return Err(StateFault::BadRow { row: beyond });
    }
    Ok(())
}
