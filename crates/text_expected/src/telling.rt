//! The text of a difference.

ghost use Rattle.std.specs.Prelude.{◌++◌, ◌≡◌, [], codes, decimal, drop, get_or, option_map};
ghost use Rattle.csv.specs.Records.{fields_of};
ghost use Rattle.io_text.specs.Buffer.{Sends};
ghost use Rattle.io_text.specs.Log.{Puts};
ghost use Rattle.io_text.specs.Text.{after_commas, line_text};
ghost use Rattle.text_expected.specs.Expected.{row_line};

use csv::ByteRecord;
use io_text::{Piece, Sink, TextBuffer, WriteFault, add_field, add_pieces};

/// A field of a record; empty past the last one.
fn field(row: &ByteRecord, number: usize) -> &[u8]
    ensures { result.now ≡ get_or (fields_of row.now) number [] }
{
    match row.get(number) {
        Some(field) => field,
        None => &[],
    }
}

/// Adds all fields but the first of a record, a comma before each.
fn add_others<W: Sink>(
    buffer: &mut TextBuffer,
    row: &ByteRecord,
    writer: &mut W,
) -> Result<(), WriteFault>
    ensures { Sends (W.log writer.old) (W.log writer.new) buffer.old buffer.new result (after_commas (drop 1 (fields_of row.now))) }
{
    for number in 1..row.len() {
        add_field(buffer, field(row, number), writer)?;
    }
    Ok(())
}

/// Adds a record as a line: its fields with commas between them, and a line feed.
fn add_record<W: Sink>(
    buffer: &mut TextBuffer,
    row: &ByteRecord,
    writer: &mut W,
) -> Result<(), WriteFault>
    ensures { Sends (W.log writer.old) (W.log writer.new) buffer.old buffer.new result (line_text (fields_of row.now)) }
{
    buffer.add(field(row, 0), writer)?;
    add_others(buffer, row, writer)?;
    buffer.add(b"\n", writer)
}

/// Adds the line of a record, where there is one.
fn add_row<W: Sink>(
    buffer: &mut TextBuffer,
    row: Option<&ByteRecord>,
    writer: &mut W,
) -> Result<(), WriteFault>
    ensures { Sends (W.log writer.old) (W.log writer.new) buffer.old buffer.new result (row_line (option_map (λ r. fields_of r.now) row.entry)) }
{
    match row {
        Some(row) => add_record(buffer, row, writer),
        None => buffer.add(b"no row\n", writer),
    }
}

/// Adds the number of a record, and the word before what was expected there.
fn add_head<W: Sink>(buffer: &mut TextBuffer, number: u64, writer: &mut W) -> Result<(), WriteFault>
    ensures { Sends (W.log writer.old) (W.log writer.new) buffer.old buffer.new result (codes "row " ++ (decimal number ++ codes "\nexpected ")) }
{
    let pieces = [
        Piece::Text(b"row "),
        Piece::Number(number),
        Piece::Text(b"\nexpected "),
    ];
    add_pieces(buffer, pieces.as_slice(), writer)
}

/// Adds the lines of a difference: the number of the record, and what each text has there.
fn add_difference<W: Sink>(
    buffer: &mut TextBuffer,
    number: u64,
    expected: Option<&ByteRecord>,
    found: Option<&ByteRecord>,
    writer: &mut W,
) -> Result<(), WriteFault>
    ensures { Sends (W.log writer.old) (W.log writer.new) buffer.old buffer.new result
        (codes "row " ++ (decimal number ++ (codes "\nexpected " ++ (row_line (option_map (λ r. fields_of r.now) expected.entry)
        ++ (codes "found " ++ row_line (option_map (λ r. fields_of r.now) found.entry)))))) }
{
    add_head(buffer, number, writer)?;
    add_row(buffer, expected, writer)?;
    buffer.add(b"found ", writer)?;
    add_row(buffer, found, writer)
}

/// Writes the lines of a difference.
pub(crate) fn put_difference<W: Sink>(
    number: u64,
    expected: Option<&ByteRecord>,
    found: Option<&ByteRecord>,
    writer: &mut W,
) -> Result<(), WriteFault>
    ensures { Puts (W.log writer.old) (W.log writer.new) result
        (codes "row " ++ (decimal number ++ (codes "\nexpected " ++ (row_line (option_map (λ r. fields_of r.now) expected.entry)
        ++ (codes "found " ++ row_line (option_map (λ r. fields_of r.now) found.entry)))))) }
{
    let mut buffer = TextBuffer::new();
    add_difference(&mut buffer, number, expected, found, writer)?;
    buffer.flush(writer)
}
