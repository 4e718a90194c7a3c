//! The text of a list of what is possible, or forced.

ghost use Rattle.std.specs.Prelude.{◌≡◌, ◌≤◌, ◌^◌, ◌∷◌, [], IfOk, List, count_by, length, not};
ghost use Rattle.causes_query.specs.declared.limit.TheConstants.{LISTED_LIMIT};
ghost use Rattle.io_text.specs.Text.{line_text};
ghost use Rattle.io_text.specs.Buffer.{Sends};
ghost use Rattle.io_text.specs.Log.{Puts};
ghost use Rattle.causes_any_state.specs.declared.possible.PossibleCause.{PossibleCause};
ghost use Rattle.text_lists.specs.PossibleRows.{AddsRows};
ghost use Rattle.text_lists.specs.PossibleText.{AreAll, AreFew, Gave, IsCount, mark, possible_record, possible_text};

use causes_any_state::{PossibleCause, PossibleCauses};
use io_text::{Piece, Sink, TextBuffer, WriteFault, add_pieces};
use text_causes::{DIGITS, ROW, add_header, fill_end, is_reached};

/// How many bytes the bits of a row and its line feed have at most.
const END: usize = ROW - DIGITS;

/// How many rows there are, and for how many of them it isn't settled what the list claims.
#[derive(Clone, Copy, PartialEq, Eq)]
pub struct PossibleSummary {
    pub rows: u64,
    pub unsettled: u64,
}

/// The field that says whether a row is settled.
fn mark(is_settled: bool) -> &'static [u8]
    ensures { result.now ≡ mark is_settled }
{
    if is_settled { b"1" } else { b"?" }
}

/// Adds a row: the number, whether it is settled, and the bits of the number.
fn add_row<W: Sink>(
    buffer: &mut TextBuffer,
    cause: PossibleCause,
    listed: usize,
    writer: &mut W,
) -> Result<(), WriteFault>
    requires few { listed ≤ 64 }
    ensures { Sends (W.log writer.old) (W.log writer.new) buffer.old buffer.new result (line_text (possible_record listed cause)) }
{
    let pieces = [
        Piece::Number(cause.number),
        Piece::Text(b","),
        Piece::Text(mark(cause.is_settled)),
    ];
    let mut end = [0; END];
    fill_end(&mut end, listed, cause.number);
    add_pieces(buffer, pieces.as_slice(), writer)?;
    buffer.add(&end[..2 * listed + 1], writer)
}

/// One where the row isn't settled.
fn unsettled(cause: PossibleCause) -> u64
    ensures { result ≡ count_by (λ (row : PossibleCause). not row.is_settled) (cause ∷ []) }
{
    if cause.is_settled { 0 } else { 1 }
}

/// Adds the rows that are left, or the first of them where there is a limit.
fn add_rows<W: Sink>(
    buffer: &mut TextBuffer,
    causes: &mut PossibleCauses<'_>,
    listed: usize,
    limit: Option<u64>,
    writer: &mut W,
) -> Result<PossibleSummary, WriteFault>
    requires listed { listed ≡ length causes.old.listed }
    requires few { listed ≤ LISTED_LIMIT }
    requires within { causes.old.from ≤ 2 ^ length causes.old.listed }
    ensures { AddsRows (W.log writer.old) (W.log writer.new) buffer.old buffer.new causes.old causes.new limit result }
{
    let mut count = PossibleSummary {
        rows: 0,
        unsettled: 0,
    };
    loop {
        if is_reached(limit, count.rows) {
            return Ok(count);
        }
        let Some(cause) = causes.next() else {
            return Ok(count);
        };
        add_row(buffer, cause, listed, writer)?;
        count.rows += 1;
        count.unsettled += unsettled(cause);
    }
}

/// Writes the text of what is possible, or forced, from where the cursor is, or of its first rows where there is a limit: a header, and a row
/// for each number of which the contrary isn't settled. It needs no memory.
///
/// # Errors
///
/// X6: the writer failed. What was written is a prefix of the text of the rows that the cursor gave, which are no more than the limit.
pub fn write_possible_causes<W: Sink>(
    causes: &mut PossibleCauses<'_>,
    limit: Option<u64>,
    writer: &mut W,
) -> Result<PossibleSummary, WriteFault>
    ensures { (rows : List PossibleCause) × Gave causes.old rows causes.new × AreFew limit rows
        × Puts (W.log writer.old) (W.log writer.new) result (possible_text causes.old.program causes.old.listed rows)
        × IfOk result (λ s. IsCount s rows × AreAll causes.new rows limit) }
{
    let mut buffer = TextBuffer::new();
    let listed = causes.listed().len();
    let program = causes.program();
    add_header(
        &mut buffer,
        b"number,settled",
        program,
        causes.listed(),
        writer,
    )?;
    let count = add_rows(&mut buffer, causes, listed, limit, writer)?;
    buffer.flush(writer)?;
    Ok(count)
}
