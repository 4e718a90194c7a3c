//! The writing of records without quotes, line by line.

ghost use Rattle.std.specs.Prelude.{◌++◌, ◌∷◌, codes, map};
ghost use Rattle.io_text.specs.Buffer.{Sends};
ghost use Rattle.io_text.specs.Text.{after_commas, line_text};

use crate::buffer::TextBuffer;
use crate::fault::WriteFault;
use crate::sink::Sink;

/// Adds one more field of a record, after a comma.
///
/// # Errors
///
/// `WriteFault` where the writer fails.
pub fn add_field<W: Sink>(
    buffer: &mut TextBuffer,
    field: &[u8],
    writer: &mut W,
) -> Result<(), WriteFault>
    ensures { Sends (W.log writer.old) (W.log writer.new) buffer.old buffer.new result (codes "," ++ field.now) }
{
    buffer.add(b",", writer)?;
    buffer.add(field, writer)
}

/// Adds all fields but the first of a record, a comma before each.
fn add_fields<W: Sink>(
    buffer: &mut TextBuffer,
    fields: &[&[u8]],
    writer: &mut W,
) -> Result<(), WriteFault>
    ensures { Sends (W.log writer.old) (W.log writer.new) buffer.old buffer.new result (after_commas (map (λ f. f.now) fields.now)) }
{
    for field in fields {
        add_field(buffer, field, writer)?;
    }
    Ok(())
}

/// Adds a record as a line: its fields with commas between them, and a line feed.
///
/// # Errors
///
/// `WriteFault` where the writer fails.
pub fn add_line<W: Sink>(
    buffer: &mut TextBuffer,
    first: &[u8],
    others: &[&[u8]],
    writer: &mut W,
) -> Result<(), WriteFault>
    ensures { Sends (W.log writer.old) (W.log writer.new) buffer.old buffer.new result (line_text (first.now ∷ map (λ f. f.now) others.now)) }
{
    buffer.add(first, writer)?;
    add_fields(buffer, others, writer)?;
    buffer.add(b"\n", writer)
}
