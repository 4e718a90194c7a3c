//! The reading of a state: its version, its moment, and all other records.

ghost use Rattle.std.specs.Prelude.{◌≡◌, ◌<◌, ◌^◌, List, ⊤, IfOk};
ghost use Rattle.io_text.specs.Left.{Fields, IsPlain, Left};
ghost use Rattle.io_text.specs.Text.{records_of};
ghost use Rattle.scan_cycle.specs.Standing.{fresh, Fits, IsStanding};
ghost use Rattle.text_state.specs.Parts.{ReadsAll, TakesItem};
ghost use Rattle.text_state.specs.ReadState.{Reads};
ghost use Rattle.text_state.specs.StateText.{version_record};
ghost use Rattle.text_state.specs.Parts.{moment_record};

use crate::fault::StateFault;
use crate::parts::read_parts;
use crate::row::read_moment;
use crate::version::{Version, read_version};
use csv::ByteRecord;
use diagram_program::Program;
use io_text::{Records, next, read_from};
use scan_cycle::{Memory, State};
use std::alloc::{AllocError, Global};

/// The version in the next record, if that is a record of one.
fn next_version(
    records: &mut Records<'_>,
    row: &mut ByteRecord,
) -> Result<Option<Version>, AllocError>
    requires { IsPlain records.old }
    ensures plain { IfOk result (λ _. IsPlain records.new) }
    ensures takes { (rows : List Fields) → Left records.old rows → IfOk result (λ o. TakesItem version_record (λ _. ⊤) rows records.new o) }
{
    let found = next(records, row)?;
    if !found {
        return Ok(None);
    }
    Ok(read_version(row))
}

/// The moment in the next record, if that is a record of one.
fn next_moment(records: &mut Records<'_>, row: &mut ByteRecord) -> Result<Option<u64>, AllocError>
    requires { IsPlain records.old }
    ensures plain { IfOk result (λ _. IsPlain records.new) }
    ensures takes { (rows : List Fields) → Left records.old rows → IfOk result (λ o. TakesItem moment_record (λ n. n < 2 ^ 64) rows records.new o) }
{
    let found = next(records, row)?;
    if !found {
        return Ok(None);
    }
    Ok(read_moment(row))
}

/// Reads all records of a text into a fresh state.
fn read_records(
    program: &Program,
    records: &mut Records<'_>,
    row: &mut ByteRecord,
    state: &mut State,
) -> Result<(), StateFault>
    requires plain { IsPlain records.old }
    requires fresh { state.old ≡ fresh program.now }
    requires fits { Fits program.now state.old }
    requires standing { IsStanding state.old }
    ensures fits { Fits program.now state.new }
    ensures reads { (rows : List Fields) → Left records.old rows → IsStanding state.new → ReadsAll program.now state.new rows result }
{
    let Ok(version) = next_version(records, row) else {
        return Err(StateFault::Memory);
    };
    let Some(version) = version else {
        return Err(StateFault::BadRow { row: 1 });
    };
    let Ok(moment) = next_moment(records, row) else {
        return Err(StateFault::Memory);
    };
    let Some(moment) = moment else {
        return Err(StateFault::BadRow { row: 2 });
    };
    state.set_moment(moment);
    read_parts(version, program, records, row, state)
}

/// Reads the state of a text. Records are judged as they come: the next one is read after the last one was found good.
///
/// # Errors
///
/// `BadRow` with the number of the first record that isn't of its form, `Memory` when out of memory.
pub fn read_state(alloc: Global, program: &Program, text: &[u8]) -> Result<State, StateFault>
    ensures { Reads program.now (records_of text.now) result }
{
    let mut state = match State::fresh(alloc, program) {
        Ok(state) => state,
        Err(Memory) => return Err(StateFault::Memory),
    };
    state.checked();
    let mut records = read_from(alloc, text);
    let mut row = ByteRecord::new(alloc);
    let read = read_records(program, &mut records, &mut row, &mut state);
    state.checked();
    match read {
        Ok(()) => Ok(state),
        Err(fault) => Err(fault),
    }
}
