//! The text of a list of differences.

ghost use Rattle.std.specs.Prelude.{◌≡◌, ◌<◌, ◌≤◌, ◌^◌, ◌∷◌, [], IfOk, IfSome, MatchOption, MatchResult, None, length, map};
ghost use Rattle.io_text.specs.Buffer.{Sends};
ghost use Rattle.io_text.specs.Log.{Puts};
ghost use Rattle.io_text.specs.Text.{after_commas, line_text, lines_text};
ghost use Rattle.diff_causes.specs.Cursor.{KeepsQuestions};
ghost use Rattle.text_causes.specs.CauseText.{limited};
ghost use Rattle.text_differences.specs.DifferenceText.{TakesDifferences, TakesDifferencesAtMost, columns, difference_record, difference_text, part};

use diff_causes::{Difference, Differences};
use io_text::{Piece, Sink, TextBuffer, WriteFault, add_pieces};
use search_differences::Side;
use text_causes::{DIGITS, ROW, add_header, fill_end, is_reached};

/// How many bytes the bits of a row and its line feed have at most.
const END: usize = ROW - DIGITS;

/// The columns of both programs, each after a comma: `1` for the one that alone leaves the coil ON.
pub(crate) fn columns(side: Side) -> &'static [u8]
    ensures { result.now ≡ after_commas (columns side) }
{
    match side {
        Side::Old => b",1,0",
        Side::New => b",0,1",
    }
}

/// Adds a row: the number, the columns of both programs, and the bits of the number.
fn add_row<W: Sink>(
    buffer: &mut TextBuffer,
    difference: Difference,
    listed: usize,
    writer: &mut W,
) -> Result<(), WriteFault>
    requires few { listed ≤ 64 }
    ensures { Sends (W.log writer.old) (W.log writer.new) buffer.old buffer.new result (line_text (difference_record listed difference)) }
{
    let mut end = [0; END];
    fill_end(&mut end, listed, difference.number);
    let pieces = [
        Piece::Number(difference.number),
        Piece::Text(columns(difference.side)),
        Piece::Text(&end[..2 * listed + 1]),
    ];
    add_pieces(buffer, pieces.as_slice(), writer)
}

/// The next difference of a list, or of the part of it up to a number.
fn next_in(differences: &mut Differences<'_>, upto: Option<u64>) -> Option<Difference>
    ensures gives { IfSome result (λ d. differences.old.rest ≡ d ∷ differences.new.rest) }
    ensures part { MatchOption result (part upto differences.old.rest ≡ [])
        (λ d. part upto differences.old.rest ≡ d ∷ part upto differences.new.rest) }
    ensures questions { KeepsQuestions differences.old differences.new }
    ensures stays { result ≡ None → differences.new.rest ≡ differences.old.rest }
{
    match upto {
        Some(last) => differences.next_to(last),
        None => differences.next(),
    }
}

/// Adds the rows that are left up to a number, or the first of them where there is a limit, and returns how many.
pub(crate) fn add_rows<W: Sink>(
    buffer: &mut TextBuffer,
    differences: &mut Differences<'_>,
    listed: usize,
    upto: Option<u64>,
    limit: Option<u64>,
    writer: &mut W,
) -> Result<u64, WriteFault>
    requires few { listed ≤ 64 }
    requires finite { length differences.old.rest < 2 ^ 64 }
    ensures sends { Sends (W.log writer.old) (W.log writer.new) buffer.old buffer.new result
        (lines_text (map (difference_record listed) (limited limit (part upto differences.old.rest)))) }
    ensures rows { IfOk result (λ n. n ≡ length (limited limit (part upto differences.old.rest))) }
    ensures taken { MatchResult result (λ n. TakesDifferences differences.old differences.new n)
        (λ _. TakesDifferencesAtMost differences.old differences.new (length (limited limit (part upto differences.old.rest)))) }
{
    let mut count = 0u64;
    loop {
        if is_reached(limit, count) {
            return Ok(count);
        }
        let Some(difference) = next_in(differences, upto) else {
            return Ok(count);
        };
        add_row(buffer, difference, listed, writer)?;
        count += 1;
    }
}

/// Writes the text of the differences that are left, of those up to `upto` where it is given, or of the first of them where there is a
/// limit: a header, and a row for each difference. It needs no memory. With a limit of n rows the cursor is asked at most n times, and
/// those above `upto` are still to be given.
///
/// # Errors
///
/// X6: the writer failed. What was written is a prefix of that text. The cursor may have given differences, within the limit, that were
/// not written in full; a new cursor goes on after the last whole row.
pub fn write_differences<W: Sink>(
    differences: &mut Differences<'_>,
    upto: Option<u64>,
    limit: Option<u64>,
    writer: &mut W,
) -> Result<u64, WriteFault>
    ensures bytes { Puts (W.log writer.old) (W.log writer.new) result
        (difference_text differences.old.asked_old.program differences.old.asked_old.listed (limited limit (part upto differences.old.rest))) }
    ensures rows { IfOk result (λ n. n ≡ length (limited limit (part upto differences.old.rest))) }

    // Where the cursor then is: it has given the rows that were written. After a fault it may have given more, but none past the limit.
    ensures taken { MatchResult result (λ n. TakesDifferences differences.old differences.new n)
        (λ _. TakesDifferencesAtMost differences.old differences.new (length (limited limit (part upto differences.old.rest)))) }
{
    let mut buffer = TextBuffer::new();
    let listed = differences.free().len();
    let program = differences.old_program();
    add_header(
        &mut buffer,
        b"number,old,new",
        program,
        differences.free(),
        writer,
    )?;
    let count = add_rows(&mut buffer, differences, listed, upto, limit, writer)?;
    buffer.flush(writer)?;
    Ok(count)
}
