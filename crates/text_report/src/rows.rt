//! The records of a text, kept.

ghost use Rattle.std.specs.Prelude.{◌≡◌, IfOk, map};
ghost use Rattle.csv.specs.Records.{fields_of};
ghost use Rattle.io_text.specs.Text.{records_of};

use csv::ByteRecord;
use io_text::{next, read_from};
use std::alloc::{AllocError, Global};

/// The records of a CSV text.
///
/// # Errors
///
/// An error when out of memory.
pub fn read_rows(alloc: Global, text: &[u8]) -> Result<Vec<ByteRecord>, AllocError>
    ensures { IfOk result (λ rows. map fields_of rows.items ≡ records_of text.now) }
{
    let mut records = read_from(alloc, text);
    let mut rows = Vec::new(alloc);
    for _ in 0..u64::MAX {
        let mut row = ByteRecord::new(alloc);
        if !next(&mut records, &mut row)? {
            return Ok(rows);
        }
        rows.push(row)?;
    }
    // No text has so many records.
    Err(AllocError)
}
