//! The text of a list of differences over several scans.

ghost use Rattle.std.specs.Prelude.{◌≡◌, ◌<◌, ◌≤◌, ◌^◌, IfOk, MatchResult, length, map};
ghost use Rattle.io_text.specs.Buffer.{Sends};
ghost use Rattle.io_text.specs.Log.{Puts};
ghost use Rattle.io_text.specs.Pieces.{piece_text};
ghost use Rattle.io_text.specs.Text.{line_text, lines_text};
ghost use Rattle.text_causes.specs.CauseText.{limited};
ghost use Rattle.text_held_differences.specs.HeldText.{TakesHeld, TakesHeldAtMost, held_difference_record, held_difference_text, scan_field};

use diff_held::{HeldDifference, HeldDifferences};
use io_text::{Piece, Sink, TextBuffer, WriteFault, add_pieces};
use text_causes::{DIGITS, ROW, add_header, fill_end, is_reached};

/// How many bytes the bits of a row and its line feed have at most.
const END: usize = ROW - DIGITS;

/// The field of a first scan: its number, or `-` where there is none.
fn scan_field(scan: Option<u64>) -> Piece<'static>
    ensures { piece_text result ≡ scan_field scan }
{
    match scan {
        Some(scan) => Piece::Number(scan),
        None => Piece::Text(b"-"),
    }
}

/// Adds a row: the number, the first scan of each program, and the bits of the number.
fn add_row<W: Sink>(
    buffer: &mut TextBuffer,
    difference: HeldDifference,
    listed: usize,
    writer: &mut W,
) -> Result<(), WriteFault>
    requires few { listed ≤ 64 }
    ensures { Sends (W.log writer.old) (W.log writer.new) buffer.old buffer.new result (line_text (held_difference_record listed difference)) }
{
    let mut end = [0; END];
    fill_end(&mut end, listed, difference.number);
    let pieces = [
        Piece::Number(difference.number),
        Piece::Text(b","),
        scan_field(difference.of_old),
        Piece::Text(b","),
        scan_field(difference.of_new),
        Piece::Text(&end[..2 * listed + 1]),
    ];
    add_pieces(buffer, pieces.as_slice(), writer)
}

/// Adds the rows that are left, or the first of them where there is a limit, and returns how many.
fn add_rows<W: Sink>(
    buffer: &mut TextBuffer,
    differences: &mut HeldDifferences<'_>,
    listed: usize,
    limit: Option<u64>,
    writer: &mut W,
) -> Result<u64, WriteFault>
    requires few { listed ≤ 64 }
    requires finite { length differences.old.rest < 2 ^ 64 }
    ensures sends { Sends (W.log writer.old) (W.log writer.new) buffer.old buffer.new result
        (lines_text (map (held_difference_record listed) (limited limit differences.old.rest))) }
    ensures rows { IfOk result (λ n. n ≡ length (limited limit differences.old.rest)) }
    ensures taken { MatchResult result (λ n. TakesHeld differences.old differences.new n)
        (λ _. TakesHeldAtMost differences.old differences.new (length (limited limit differences.old.rest))) }
{
    let mut count = 0u64;
    loop {
        if is_reached(limit, count) {
            return Ok(count);
        }
        let Some(difference) = differences.next() else {
            return Ok(count);
        };
        add_row(buffer, difference, listed, writer)?;
        count += 1;
    }
}

/// Writes the text of the differences over several scans that are left, or of the first of them where there is a limit: a header, and a
/// row for each difference, with the first scan of each program, or `-` where there is none. Returns how many rows there are. It needs no
/// memory.
///
/// # Errors
///
/// X6: the writer failed. What was written is a prefix of that text. The cursor may have given differences, within the limit, that were
/// not written in full.
pub fn write_held_differences<W: Sink>(
    differences: &mut HeldDifferences<'_>,
    limit: Option<u64>,
    writer: &mut W,
) -> Result<u64, WriteFault>
    ensures bytes { Puts (W.log writer.old) (W.log writer.new) result
        (held_difference_text differences.old.asked_old.program differences.old.asked_old.listed (limited limit differences.old.rest)) }
    ensures rows { IfOk result (λ n. n ≡ length (limited limit differences.old.rest)) }

    // Where the cursor then is: it has given the rows that were written. After a fault it may have given more, but none past the limit.
    ensures taken { MatchResult result (λ n. TakesHeld differences.old differences.new n)
        (λ _. TakesHeldAtMost differences.old differences.new (length (limited limit differences.old.rest))) }
{
    let mut buffer = TextBuffer::new();
    let listed = differences.free().len();
    let program = differences.old_program();
    add_header(
        &mut buffer,
        b"number,old,new",
        program,
        differences.free(),
        writer,
    )?;
    let count = add_rows(&mut buffer, differences, listed, limit, writer)?;
    buffer.flush(writer)?;
    Ok(count)
}
