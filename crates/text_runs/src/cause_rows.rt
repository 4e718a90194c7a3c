//! The text of causes that were asked of the runs.

ghost use Rattle.std.specs.Prelude.{◌≡◌, ◌≤◌, ◌^◌, ◌∷◌, [], IfOk, List, count_by, length};
ghost use Rattle.causes_query.specs.declared.limit.TheConstants.{LISTED_LIMIT};
ghost use Rattle.io_text.specs.Text.{line_text};
ghost use Rattle.io_text.specs.Buffer.{Sends};
ghost use Rattle.io_text.specs.Log.{Puts};
ghost use Rattle.causes_in_runs.specs.declared.row.RunCause.{RunCause};
ghost use Rattle.text_runs.specs.AddedRows.{AddsRows};
ghost use Rattle.text_runs.specs.CauseText.{AreAll, AreFew, Gave, IsCount, is_open, mark, run_causes_text, run_record};

use causes_in_runs::{Reached, RunCause, RunCauses};
use io_text::{Piece, Sink, TextBuffer, WriteFault, add_pieces};
use text_causes::{DIGITS, ROW, add_header, fill_end, is_reached};

/// How many bytes the bits of a row and its line feed have at most.
const END: usize = ROW - DIGITS;

/// How many rows there are, and to how many of them no run is known.
#[derive(Clone, Copy, PartialEq, Eq)]
pub struct RunSummary {
    pub rows: u64,
    pub unsettled: u64,
}

/// The field that says what is known of the runs to a number.
fn mark(reached: Reached) -> &'static [u8]
    ensures { result.now ≡ mark reached }
{
    match reached {
        Reached::Run => b"r",
        Reached::Possible => b"1",
        Reached::Unsettled => b"?",
    }
}

/// Adds a row: the number, what is known of the runs to it, and its bits.
fn add_row<W: Sink>(
    buffer: &mut TextBuffer,
    cause: RunCause,
    listed: usize,
    writer: &mut W,
) -> Result<(), WriteFault>
    requires few { listed ≤ 64 }
    ensures { Sends (W.log writer.old) (W.log writer.new) buffer.old buffer.new result (line_text (run_record listed cause)) }
{
    let pieces = [
        Piece::Number(cause.number),
        Piece::Text(b","),
        Piece::Text(mark(cause.reached)),
    ];
    let mut end = [0; END];
    fill_end(&mut end, listed, cause.number);
    add_pieces(buffer, pieces.as_slice(), writer)?;
    buffer.add(&end[..2 * listed + 1], writer)
}

/// One where no run to the row is known.
fn unsettled(cause: RunCause) -> u64
    ensures { result ≡ count_by (λ (row : RunCause). is_open row.reached) (cause ∷ []) }
{
    match cause.reached {
        Reached::Run => 0,
        Reached::Possible | Reached::Unsettled => 1,
    }
}

/// Adds the rows that are left, or the first of them where there is a limit.
fn add_rows<W: Sink>(
    buffer: &mut TextBuffer,
    causes: &mut RunCauses<'_>,
    listed: usize,
    limit: Option<u64>,
    writer: &mut W,
) -> Result<RunSummary, WriteFault>
    requires listed { listed ≡ length causes.old.listed }
    requires few { listed ≤ LISTED_LIMIT }
    requires within { causes.old.from ≤ 2 ^ length causes.old.listed }
    ensures { AddsRows (W.log writer.old) (W.log writer.new) buffer.old buffer.new causes.old causes.new limit result }
{
    let mut count = RunSummary {
        rows: 0,
        unsettled: 0,
    };
    loop {
        if is_reached(limit, count.rows) {
            return Ok(count);
        }
        let Some(cause) = causes.next() else {
            return Ok(count);
        };
        add_row(buffer, cause, listed, writer)?;
        count.rows += 1;
        count.unsettled += unsettled(cause);
    }
}

/// Writes the text of causes that are asked of the runs, from where the cursor is, or of its first rows where there is a limit: a header, and a row
/// for each number of which it isn't settled that no run comes to it.
///
/// # Errors
///
/// X6: the writer failed. What was written is a prefix of the text of the rows that the cursor gave, which are no more than the limit.
pub fn write_run_causes<W: Sink>(
    causes: &mut RunCauses<'_>,
    limit: Option<u64>,
    writer: &mut W,
) -> Result<RunSummary, WriteFault>
    ensures { (rows : List RunCause) × Gave causes.old rows causes.new × AreFew limit rows
        × Puts (W.log writer.old) (W.log writer.new) result (run_causes_text causes.old.program causes.old.listed rows)
        × IfOk result (λ s. IsCount s rows × AreAll causes.new rows limit) }
{
    let mut buffer = TextBuffer::new();
    let listed = causes.listed().len();
    let program = causes.program();
    add_header(
        &mut buffer,
        b"number,settled",
        program,
        causes.listed(),
        writer,
    )?;
    let count = add_rows(&mut buffer, causes, listed, limit, writer)?;
    buffer.flush(writer)?;
    Ok(count)
}
