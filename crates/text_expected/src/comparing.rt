//! The first record at which two texts differ.

ghost use Rattle.std.specs.Prelude.{◌≡◌, ◌≢◌, false, true, option_map, List, IfOk};
ghost use Rattle.csv.specs.Records.{fields_of};
ghost use Rattle.io_text.specs.Left.{Fields, Left};
ghost use Rattle.io_text.specs.Text.{records_of};
ghost use Rattle.text_expected.specs.Expected.{Compares};
ghost use Rattle.text_expected.specs.Stepping.{ArePlain, IsStepOf, Steps, taken};

use crate::fault::ExpectFault;
use crate::telling::put_difference;
use csv::ByteRecord;
use io_text::{Records, Sink, next, read_from};
use std::alloc::{AllocError, Global};

/// The records of both texts, and those that were read last.
#[derive(Drop)]
pub(crate) struct Both<'a> {
    expected: Records<'a>,
    found: Records<'a>,
    expected_row: ByteRecord,
    found_row: ByteRecord,
}

/// What the next records of both texts are.
#[derive(Clone, Copy)]
pub(crate) enum Step {
    /// The same.
    Same,
    /// There are none.
    Ended,
    /// Not the same: whether each text has one.
    Differs(bool, bool),
}

/// Whether two records have the same fields.
fn same_record(row: &ByteRecord, other: &ByteRecord) -> bool
    ensures same { result ≡ true → fields_of row.now ≡ fields_of other.now }
    ensures other { result ≡ false → fields_of row.now ≢ fields_of other.now }
{
    if row.len() != other.len() {
        return false;
    }
    for number in 0..row.len() {
        let Some(field) = row.get(number) else {
            return false;
        };
        let Some(wanted) = other.get(number) else {
            return false;
        };
        if field != wanted {
            return false;
        }
    }
    true
}

/// What two records are that both texts have.
fn step_of(row: &ByteRecord, other: &ByteRecord) -> Step
    ensures { IsStepOf result (fields_of row.now) (fields_of other.now) }
{
    if same_record(row, other) {
        Step::Same
    } else {
        Step::Differs(true, true)
    }
}

/// Reads the next record of each text.
fn read_both(both: &mut Both<'_>) -> Result<Step, AllocError>
    requires { ArePlain both.old }
    ensures plain { IfOk result (λ step. ArePlain both.new) }
    ensures steps { (xs ys : List Fields) → Left both.old.expected xs → Left both.old.found ys → IfOk result (λ step. Steps step xs ys both.new) }
{
    let one = next(&mut both.expected, &mut both.expected_row)?;
    let other = next(&mut both.found, &mut both.found_row)?;
    match (one, other) {
        (true, true) => Ok(step_of(&both.expected_row, &both.found_row)),
        (false, false) => Ok(Step::Ended),
        (true, false) | (false, true) => Ok(Step::Differs(one, other)),
    }
}

/// A record, where it was read.
fn record(is_read: bool, row: &ByteRecord) -> Option<&ByteRecord>
    ensures { option_map (λ r. fields_of r.now) result ≡ taken is_read (fields_of row.now) }
{
    if is_read { Some(row) } else { None }
}

/// Compares record after record, and writes the first difference.
fn compare<W: Sink>(both: &mut Both<'_>, writer: &mut W) -> Result<bool, ExpectFault>
    requires plain { ArePlain both.old }
    ensures { (xs ys : List Fields) → Left both.old.expected xs → Left both.old.found ys → Compares xs ys (W.log writer.old) (W.log writer.new) result }
{
    for number in 0..u64::MAX {
        let Ok(step) = read_both(both) else {
            return Err(ExpectFault::Memory);
        };
        match step {
            Step::Same => {}
            Step::Ended => return Ok(true),
            Step::Differs(one, other) => {
                let expected = record(one, &both.expected_row);
                let found = record(other, &both.found_row);
                let Ok(()) = put_difference(number + 1, expected, found, writer) else {
                    return Err(ExpectFault::Write);
                };
                return Ok(false);
            }
        }
    }
    Err(ExpectFault::Memory)
}

/// Whether two texts have the same records, as `csv` reads them. Where they have not, the first difference is written: the number of the
/// record, counted from 1, and what each text has there.
///
/// # Errors
///
/// The writer failed, or there was no memory; then nothing was written.
pub fn write_difference<W: Sink>(
    alloc: Global,
    expected: &[u8],
    found: &[u8],
    writer: &mut W,
) -> Result<bool, ExpectFault>
    ensures { Compares (records_of expected.now) (records_of found.now) (W.log writer.old) (W.log writer.new) result }
{
    let mut both = Both {
        expected: read_from(alloc, expected),
        found: read_from(alloc, found),
        expected_row: ByteRecord::new(alloc),
        found_row: ByteRecord::new(alloc),
    };
    compare(&mut both, writer)
}
