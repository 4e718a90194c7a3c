//! The records of a text in memory.

ghost use Rattle.std.specs.Prelude.{List, IfOk};
ghost use Rattle.csv.specs.Records.{fields_of};
ghost use Rattle.io_text.specs.Left.{Fields, IsPlain, Left, TakesFirst};
ghost use Rattle.io_text.specs.Text.{records_of};

use csv::{ByteRecord, Reader, ReaderBuilder};
use std::alloc::{AllocError, Global};

/// A reader of the records of a text.
pub type Records<'a> = Reader<&'a [u8]>;

/// A reader of all records of a text, with any number of fields. It needs no memory.
pub fn read_from<'a>(alloc: Global, text: &'a [u8]) -> Records<'a>
    ensures plain { IsPlain result }
    ensures all { Left result (records_of text.entry.now) }
{
    ReaderBuilder::new()
        .has_headers(false)
        .flexible(true)
        .from_reader(alloc, text)
}

/// Reads the next record into `row`. Returns whether there was one.
///
/// # Errors
///
/// An error when out of memory, which ends the reading.
pub fn next(records: &mut Records<'_>, row: &mut ByteRecord) -> Result<bool, AllocError>
    requires { IsPlain records.old }
    ensures plain { IfOk result (λ _. IsPlain records.new) }
    ensures takes { (rows : List Fields) → Left records.old rows → IfOk result (λ found. TakesFirst rows found (fields_of row.new) records.new) }
{
    match records.read_byte_record(row) {
        Ok(found) => Ok(found),
        Err(error) => Err(refused(&error)),
    }
}

/// The fault of the reader over a text in memory: a flexible reader of bytes fails there only when out of memory.
fn refused(_error: &csv::Error) -> AllocError {
    AllocError
}
