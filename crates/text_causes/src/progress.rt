//! A list of causes that reports how far it is.

ghost use Rattle.std.specs.Prelude.{ℕ, List, ◌≡◌, ◌-◌, ◌<◌, ◌≤◌, ◌++◌, ◌^◌, [], IfOk, IfSome, MatchResult, None, length};
ghost use Rattle.causes_one_scan.specs.Cursor.{Takes, looks_of, searched};
ghost use Rattle.causes_one_scan.specs.Parts.{numbers_to};
ghost use Rattle.text_causes.specs.CauseText.{TakesAtMost, cause_text, limited};
ghost use Rattle.text_causes.specs.Kept.{IsKept};
ghost use Rattle.text_causes.specs.Limit.{limit_left};
ghost use Rattle.text_causes.specs.Parts.{part, part_looks};
ghost use Rattle.text_causes.specs.Progress.{TellsAll, TellsUntil};
ghost use Rattle.text_causes.specs.Telling.{AreTold, IsTold, IsUntold, TellsEnd, TellsSent};
ghost use Rattle.io_text.specs.Log.{Puts, PutsAll};

use crate::adding::{Extent, buffer_rows};
use crate::kept::Kept;
use crate::row_text::add_header;
use crate::rows::RowBuffer;
use crate::summary::{Summary, is_reached};
use causes_one_scan::Causes;
use diagram_program::Program;
use io_text::{Piece, Sink, TextBuffer, WriteFault, put_pieces};

/// This many numbers after those that are settled are listed before the work is counted again.
const AHEAD: u64 = 4095;

/// The work of a second, in instructions, roughly.
const SECOND: u64 = 3_000_000_000;

/// The work of a row.
const ROW_WORK: u64 = 60;

/// The work of a look, and what each step of the program adds to it. A pass over the steps takes four times as much, but several looks mostly
/// share one.
const LOOK_WORK: u64 = 110;

const STEP_WORK: u64 = 9;

/// Which writer failed of a list that reports how far it is.
#[derive(Clone, Copy, Debug, PartialEq, Eq)]
pub enum ProgressFault {
    /// The one of the rows.
    Rows,
    /// The one of the lines.
    Lines,
}

/// The work of a list.
#[derive(Drop)]
struct Pace {
    /// What a look takes.
    look: u64,
    /// How much was done when this was last asked and it was due.
    done: u64,
}

impl Pace {
    /// No work was done yet. A look is taken for as much work as the program has steps, each by its measured share.
    fn new(program: &Program) -> Pace {
        let steps = program.steps().len() as u64;
        Pace {
            look: steps.saturating_mul(STEP_WORK).saturating_add(LOOK_WORK),
            done: 0,
        }
    }

    /// Whether about a second's work was done since the last time it was; the work is counted in looks and rows, so that no clock
    /// is asked.
    fn is_due(&mut self, looks: u64, rows: u64) -> bool {
        let rows = rows.wrapping_mul(ROW_WORK);
        let work = looks.wrapping_mul(self.look).wrapping_add(rows);
        if work.wrapping_sub(self.done) < SECOND {
            return false;
        }
        self.done = work;
        true
    }
}

/// The last number of a list, or of the part of it that is asked for.
fn end_of(upto: Option<u64>, listed: usize) -> u64
    requires few { listed ≤ 32 }
    ensures part { IfSome upto (λ last. result ≡ last) }
    ensures whole { upto ≡ None → result ≡ 2 ^ listed - 1 }
{
    match upto {
        Some(last) => last,
        None => (1 << listed) - 1,
    }
}

/// How many rows a limit leaves after some were written.
fn left_of(limit: Option<u64>, rows: u64) -> Option<u64>
    requires within { IfSome limit (λ most. rows ≤ most) }
    ensures { result ≡ limit_left limit rows }
{
    match limit {
        Some(most) => Some(most - rows),
        None => None,
    }
}

/// The number up to which rows are added next, before the work is counted again.
fn next_stop(causes: &Causes<'_>, reached: u64) -> u64
    requires last { reached < 2 ^ 64 - 1 }
    ensures more { reached < result }
{
    let soon = causes.settled_below().saturating_add(AHEAD);
    soon.max(reached + 1)
}

/// Writes all rows that wait in both buffers.
fn flush_rows<W: Sink>(
    row_buffer: &mut RowBuffer,
    buffer: &mut TextBuffer,
    writer: &mut W,
) -> Result<(), WriteFault>
    ensures wrote { Puts (W.log writer.old) (W.log writer.new) result (buffer.old ++ row_buffer.old) }
    ensures no_block { IfOk result (λ _. buffer.new ≡ []) }
    ensures no_row { IfOk result (λ _. row_buffer.new ≡ []) }
{
    row_buffer.hand_over(buffer, writer)?;
    buffer.flush(writer)
}

/// Writes all rows that wait, and then, if lines are asked for, the line `reached N`.
fn tell<O: Sink, E: Sink>(
    row_buffer: &mut RowBuffer,
    buffer: &mut TextBuffer,
    lines: bool,
    number: u64,
    out: &mut O,
    err: &mut E,
) -> Result<(), ProgressFault>
    ensures told { MatchResult result
        (λ _. PutsAll (O.log out.old) (O.log out.new) (buffer.old ++ row_buffer.old) × IsTold lines number (E.log err.old) (E.log err.new))
        (λ f. IsUntold lines f (buffer.old ++ row_buffer.old) number (O.log out.old) (O.log out.new) (E.log err.old) (E.log err.new)) }
    ensures no_block { IfOk result (λ _. buffer.new ≡ []) }
    ensures no_row { IfOk result (λ _. row_buffer.new ≡ []) }
{
    let Ok(()) = flush_rows(row_buffer, buffer, out) else {
        return Err(ProgressFault::Rows);
    };
    if !lines {
        return Ok(());
    }
    let pieces = [
        Piece::Text(b"reached "),
        Piece::Number(number),
        Piece::Text(b"\n"),
    ];
    let Ok(()) = put_pieces(err, pieces.as_slice()) else {
        return Err(ProgressFault::Lines);
    };
    Ok(())
}

/// Adds the rows of a list, writes those that wait about once a second, and then reports a number, if numbers are reported.
///
/// It is a part of its caller, as `buffer_rows` is of it, so that what they keep is known not to lie where a row is written.
#[inline(always)]
fn tell_rows<O: Sink, E: Sink>(
    row_buffer: &mut RowBuffer,
    buffer: &mut TextBuffer,
    causes: &mut Causes<'_>,
    extent: Extent,
    lines: bool,
    out: &mut O,
    err: &mut E,
) -> Result<u64, ProgressFault>
    requires no_block { buffer.old ≡ [] }
    requires no_row { row_buffer.old ≡ [] }
    ensures told { MatchResult result
        (λ _. TellsSent lines (λ n. cause_text causes.old.program causes.old.listed (numbers_to n (limited extent.limit (part extent.last causes.old.rest))))
        (cause_text causes.old.program causes.old.listed (limited extent.limit (part extent.last causes.old.rest)))
        (O.log out.old) (O.log out.new) (buffer.new ++ row_buffer.new) (E.log err.old) (E.log err.new))
        (λ f. TellsEnd lines f (λ n. cause_text causes.old.program causes.old.listed (numbers_to n (limited extent.limit (part extent.last causes.old.rest))))
        (cause_text causes.old.program causes.old.listed (limited extent.limit (part extent.last causes.old.rest)))
        (O.log out.old) (O.log out.new) (E.log err.old) (E.log err.new)) }
    ensures count { IfOk result (λ n. n ≡ length (limited extent.limit (part extent.last causes.old.rest))) }
    ensures taken { MatchResult result (λ n. Takes causes.old causes.new n) (λ _. TakesAtMost causes.old causes.new (length (limited extent.limit (part extent.last causes.old.rest)))) }
    ensures looks { IfOk result (λ _. looks_of causes.new ≡ part_looks extent.last (searched causes.old) (looks_of causes.old) extent.limit (part extent.last causes.old.rest)) }
{
    let Ok(()) = add_header(buffer, b"number", causes.program(), causes.free(), out) else {
        return Err(ProgressFault::Rows);
    };
    let end = end_of(extent.last, causes.free().len());
    let mut kept = Kept::new(causes.free().len());
    let mut pace = Pace::new(causes.program());
    let mut rows = 0u64;
    let mut reached = 0u64;
    loop {
        let listed = causes.free().len();
        let stop = next_stop(causes, reached);
        let left = left_of(extent.limit, rows);
        if end <= stop || is_reached(extent.limit, rows) {
            let part = Extent {
                last: extent.last,
                limit: left,
            };
            let Ok(more) = buffer_rows(row_buffer, buffer, &mut kept, causes, listed, part, out)
            else {
                return Err(ProgressFault::Rows);
            };
            return Ok(rows + more);
        }
        let part = Extent {
            last: Some(stop),
            limit: left,
        };
        let Ok(more) = buffer_rows(row_buffer, buffer, &mut kept, causes, listed, part, out) else {
            return Err(ProgressFault::Rows);
        };
        rows += more;
        reached = stop;
        if !is_reached(extent.limit, rows) && pace.is_due(causes.looks(), rows) {
            if let Err(fault) = tell(row_buffer, buffer, lines, reached, out, err) {
                return Err(fault);
            }
        }
    }
}

/// Writes the text of a list, or of the part of it up to `upto`, as `tell_rows` adds its rows.
pub(crate) fn write_paced<O: Sink, E: Sink>(
    causes: &mut Causes<'_>,
    upto: Option<u64>,
    limit: Option<u64>,
    lines: bool,
    out: &mut O,
    err: &mut E,
) -> Result<Summary, ProgressFault>
    ensures told { MatchResult result
        (λ _. PutsAll (O.log out.old) (O.log out.new) (cause_text causes.old.program causes.old.listed (limited limit (part upto causes.old.rest)))
        × ((told : List ℕ) × AreTold lines told (E.log err.old) (E.log err.new)))
        (λ f. TellsEnd lines f (λ n. cause_text causes.old.program causes.old.listed (numbers_to n (limited limit (part upto causes.old.rest))))
        (cause_text causes.old.program causes.old.listed (limited limit (part upto causes.old.rest)))
        (O.log out.old) (O.log out.new) (E.log err.old) (E.log err.new)) }
    ensures rows { IfOk result (λ s. s.rows ≡ length (limited limit (part upto causes.old.rest))) }
    ensures taken { MatchResult result (λ s. Takes causes.old causes.new s.rows) (λ _. TakesAtMost causes.old causes.new (length (limited limit (part upto causes.old.rest)))) }
    ensures looks { IfOk result (λ s. s.looks ≡ looks_of causes.new) }
    ensures counted { IfOk result (λ _. looks_of causes.new ≡ part_looks upto (searched causes.old) (looks_of causes.old) limit (part upto causes.old.rest)) }
{
    let mut buffer = TextBuffer::new();
    let mut row_buffer = RowBuffer::new();
    let extent = Extent { last: upto, limit };
    let told = tell_rows(
        &mut row_buffer,
        &mut buffer,
        causes,
        extent,
        lines,
        out,
        err,
    );
    let rows = match told {
        Ok(rows) => rows,
        Err(fault) => return Err(fault),
    };
    let Ok(()) = flush_rows(&mut row_buffer, &mut buffer, out) else {
        return Err(ProgressFault::Rows);
    };
    Ok(Summary {
        rows,
        looks: causes.looks(),
    })
}

/// Writes the text of the causes up to `upto` that are left, or of all where there is none, as `write_causes` does; and on `err` about once
/// a second the line of a number up to which all rows are written, `reached N`.
///
/// # Errors
///
/// X6, with the writer that failed. What was written of the rows is a prefix of their text, with all of them up to the last number that was reported.
pub fn write_progress<O: Sink, E: Sink>(
    causes: &mut Causes<'_>,
    upto: Option<u64>,
    limit: Option<u64>,
    out: &mut O,
    err: &mut E,
) -> Result<Summary, ProgressFault>
    ensures told { MatchResult result
        (λ _. TellsAll (cause_text causes.old.program causes.old.listed (limited limit (part upto causes.old.rest)))
        (O.log out.old) (O.log out.new) (E.log err.old) (E.log err.new))
        (λ f. TellsUntil f (λ n. cause_text causes.old.program causes.old.listed (numbers_to n (limited limit (part upto causes.old.rest))))
        (cause_text causes.old.program causes.old.listed (limited limit (part upto causes.old.rest)))
        (O.log out.old) (O.log out.new) (E.log err.old) (E.log err.new)) }
    ensures rows { IfOk result (λ s. s.rows ≡ length (limited limit (part upto causes.old.rest))) }
    ensures taken { MatchResult result (λ s. Takes causes.old causes.new s.rows) (λ _. TakesAtMost causes.old causes.new (length (limited limit (part upto causes.old.rest)))) }

    // The looks are the cursor's count, which is that of the search as far as it was gone through.
    ensures looks { IfOk result (λ s. s.looks ≡ looks_of causes.new) }
    ensures counted { IfOk result (λ _. looks_of causes.new ≡ part_looks upto (searched causes.old) (looks_of causes.old) limit (part upto causes.old.rest)) }
{
    write_paced(causes, upto, limit, true, out, err)
}
