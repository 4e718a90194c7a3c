//! The text of a list of causes over several scans.

ghost use Rattle.std.specs.Prelude.{◌≡◌, ◌<◌, ◌≤◌, ◌^◌, IfOk, drop, length, map};
ghost use Rattle.io_text.specs.Buffer.{Sends};
ghost use Rattle.io_text.specs.Log.{Puts};
ghost use Rattle.io_text.specs.Text.{line_text, lines_text};
ghost use Rattle.text_causes.specs.CauseText.{limited};
ghost use Rattle.text_lists.specs.HeldText.{held_record, held_text};

use causes_held::HeldCauses;
use io_text::{Piece, Sink, TextBuffer, WriteFault, add_pieces};
use scan_held::HeldCause;
use text_causes::{DIGITS, ROW, add_header, fill_end, is_reached};

/// How many bytes the bits of a row and its line feed have at most.
const END: usize = ROW - DIGITS;

/// Adds a row: the number, the scan, and the bits of the number.
fn add_row<W: Sink>(
    buffer: &mut TextBuffer,
    cause: HeldCause,
    listed: usize,
    writer: &mut W,
) -> Result<(), WriteFault>
    requires few { listed ≤ 64 }
    ensures { Sends (W.log writer.old) (W.log writer.new) buffer.old buffer.new result (line_text (held_record listed cause)) }
{
    let pieces = [
        Piece::Number(cause.number),
        Piece::Text(b","),
        Piece::Number(cause.scan),
    ];
    let mut end = [0; END];
    fill_end(&mut end, listed, cause.number);
    add_pieces(buffer, pieces.as_slice(), writer)?;
    buffer.add(&end[..2 * listed + 1], writer)
}

/// Adds the rows that are left, or the first of them where there is a limit, and returns how many.
fn add_rows<W: Sink>(
    buffer: &mut TextBuffer,
    causes: &mut HeldCauses<'_>,
    listed: usize,
    limit: Option<u64>,
    writer: &mut W,
) -> Result<u64, WriteFault>
    requires few { listed ≤ 64 }
    requires finite { length causes.old.rest < 2 ^ 64 }
    ensures sends { Sends (W.log writer.old) (W.log writer.new) buffer.old buffer.new result (lines_text (map (held_record listed) (limited limit causes.old.rest))) }
    ensures count { IfOk result (λ n. n ≡ length (limited limit causes.old.rest)) }
    ensures left { IfOk result (λ n. causes.new.rest ≡ drop n causes.old.rest) }
{
    let mut count = 0u64;
    loop {
        if is_reached(limit, count) {
            return Ok(count);
        }
        let Some(cause) = causes.next() else {
            return Ok(count);
        };
        add_row(buffer, cause, listed, writer)?;
        count += 1;
    }
}

/// Writes the text of the causes over several scans that are left, or of the first ones where there is a limit: a header, and a row for
/// each cause, with the first scan after which the coil is ON. Returns how many rows there are. It needs no memory.
///
/// # Errors
///
/// X6: the writer failed. What was written is a prefix of that text.
pub fn write_held_causes<W: Sink>(
    causes: &mut HeldCauses<'_>,
    limit: Option<u64>,
    writer: &mut W,
) -> Result<u64, WriteFault>
    ensures bytes { Puts (W.log writer.old) (W.log writer.new) result (held_text causes.old.program causes.old.listed (limited limit causes.old.rest)) }
    ensures rows { IfOk result (λ n. n ≡ length (limited limit causes.old.rest)) }

    // Where the cursor then is: it has given the rows that were written.
    ensures left { IfOk result (λ n. causes.new.rest ≡ drop n causes.old.rest) }
{
    let mut buffer = TextBuffer::new();
    let listed = causes.listed().len();
    let program = causes.program();
    add_header(
        &mut buffer,
        b"number,scan",
        program,
        causes.listed(),
        writer,
    )?;
    let rows = add_rows(&mut buffer, causes, listed, limit, writer)?;
    buffer.flush(writer)?;
    Ok(rows)
}
