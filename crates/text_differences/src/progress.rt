//! A list of differences that reports how far it is.

ghost use Rattle.std.specs.Prelude.{ℕ, List, ◌≡◌, ◌-◌, ◌<◌, ◌≤◌, ◌^◌, [], IfOk, IfSome, MatchResult, None, length, min, true};
ghost use Rattle.diff_causes.specs.Differences.{differences_to};
ghost use Rattle.io_text.specs.Log.{PutsAll};
ghost use Rattle.text_causes.specs.CauseText.{limited};
ghost use Rattle.text_causes.specs.Limit.{limit_left};
ghost use Rattle.text_causes.specs.Progress.{TellsAll, TellsUntil, reached_line, reached_text};
ghost use Rattle.text_causes.specs.Telling.{IsUntold, Telling};
ghost use Rattle.text_differences.specs.DifferenceText.{TakesDifferences, TakesDifferencesAtMost, difference_text, part};

use crate::difference_text::add_rows;
use diagram_program::Program;
use diff_causes::Differences;
use io_text::{Piece, Sink, TextBuffer, put_pieces};
use text_causes::{ProgressFault, add_header, is_reached};

/// How many numbers a stretch has at least. After each stretch the work is counted again.
const STRETCH: u64 = 4096;

/// A list has at most 2 ^ `STRETCHES` stretches, and so at most as many lines: a stretch has this part of all numbers more.
const STRETCHES: u32 = 12;

/// The work of a second, in instructions, roughly.
const SECOND: u64 = 3_000_000_000;

/// The work of a row, and what each step of the old program adds to it, which is scanned for it.
const ROW_WORK: u64 = 600;

const SCAN_WORK: u64 = 20;

/// The work of a look, and what each step of the program adds to it.
const LOOK_WORK: u64 = 110;

const STEP_WORK: u64 = 9;

/// The work of a list.
#[derive(Drop)]
struct Pace {
    /// How many numbers a stretch has.
    stretch: u64,
    /// What the looks of a stretch take at most.
    looks: u64,
    /// What a row takes.
    row: u64,
    /// How much was done since this was last asked and it was due.
    done: u64,
}

impl Pace {
    /// No work was done yet. For 64 numbers there are at most about two looks in each program, each for as much work as the program has
    /// steps. Where prefixes are decided, there are fewer, and a line comes sooner than after a second.
    fn new(old: &Program, new: &Program, listed: usize) -> Pace
        requires few { listed ≤ 32 }
    {
        let old_steps = old.steps().len() as u64;
        let new_steps = new.steps().len() as u64;
        let steps = old_steps.saturating_add(new_steps);
        let look = steps
            .saturating_mul(STEP_WORK)
            .saturating_add(2 * LOOK_WORK);
        let stretch = ((1u64 << listed) >> STRETCHES).saturating_add(STRETCH);
        Pace {
            stretch,
            looks: (stretch / 32).saturating_mul(look),
            row: old_steps.saturating_mul(SCAN_WORK).saturating_add(ROW_WORK),
            done: 0,
        }
    }

    /// The number up to which rows are added next, before the work is counted again.
    fn next_stop(&self, done_below: u64, reached: u64) -> u64
        requires last { reached < 2 ^ 64 - 1 }
        ensures more { reached < result }
    {
        let soon = done_below.saturating_add(self.stretch);
        soon.max(reached + 1)
    }

    /// Whether, with a stretch more and its rows, about a second's work was done since the last time it was, so that no clock is asked.
    fn is_due(&mut self, rows: u64) -> bool {
        let work = rows.saturating_mul(self.row).saturating_add(self.looks);
        self.done = self.done.saturating_add(work);
        if self.done < SECOND {
            return false;
        }
        self.done = 0;
        true
    }
}

/// The last number of a list, or of the part of it that is asked for.
fn end_of(upto: Option<u64>, listed: usize) -> u64
    requires few { listed ≤ 32 }
    ensures part { IfSome upto (λ last. result ≡ min last (2 ^ listed - 1)) }
    ensures whole { upto ≡ None → result ≡ 2 ^ listed - 1 }
{
    let end = (1 << listed) - 1;
    match upto {
        Some(last) => last.min(end),
        None => end,
    }
}

/// How many rows a limit leaves after some were written.
fn left_of(limit: Option<u64>, rows: u64) -> Option<u64>
    requires within { IfSome limit (λ most. rows ≤ most) }
    ensures { result ≡ limit_left limit rows }
{
    match limit {
        Some(most) => Some(most - rows),
        None => None,
    }
}

/// Writes all rows that wait, and then the line `reached N`.
fn tell<O: Sink, E: Sink>(
    buffer: &mut TextBuffer,
    number: u64,
    out: &mut O,
    err: &mut E,
) -> Result<(), ProgressFault>
    ensures told { MatchResult result
        (λ _. PutsAll (O.log out.old) (O.log out.new) buffer.old × PutsAll (E.log err.old) (E.log err.new) (reached_line number))
        (λ f. IsUntold true f buffer.old number (O.log out.old) (O.log out.new) (E.log err.old) (E.log err.new)) }
    ensures empty { IfOk result (λ _. buffer.new ≡ []) }
{
    let Ok(()) = buffer.flush(out) else {
        return Err(ProgressFault::Rows);
    };
    let pieces = [
        Piece::Text(b"reached "),
        Piece::Number(number),
        Piece::Text(b"\n"),
    ];
    let Ok(()) = put_pieces(err, pieces.as_slice()) else {
        return Err(ProgressFault::Lines);
    };
    Ok(())
}

/// Adds the rows of a list, writes those that wait about once a second, and then reports a number.
fn tell_rows<O: Sink, E: Sink>(
    buffer: &mut TextBuffer,
    differences: &mut Differences<'_>,
    upto: Option<u64>,
    limit: Option<u64>,
    out: &mut O,
    err: &mut E,
) -> Result<u64, ProgressFault>
    requires empty { buffer.old ≡ [] }
    ensures told { MatchResult result
        (λ _. (told : List ℕ) × Telling (λ n. difference_text differences.old.asked_old.program differences.old.asked_old.listed (differences_to n (limited limit (part upto differences.old.rest))))
        told (O.log out.old) (O.log out.new) buffer.new
        (difference_text differences.old.asked_old.program differences.old.asked_old.listed (limited limit (part upto differences.old.rest)))
        × PutsAll (E.log err.old) (E.log err.new) (reached_text told))
        (λ f. TellsUntil f (λ n. difference_text differences.old.asked_old.program differences.old.asked_old.listed (differences_to n (limited limit (part upto differences.old.rest))))
        (difference_text differences.old.asked_old.program differences.old.asked_old.listed (limited limit (part upto differences.old.rest)))
        (O.log out.old) (O.log out.new) (E.log err.old) (E.log err.new)) }
    ensures rows { IfOk result (λ n. n ≡ length (limited limit (part upto differences.old.rest))) }
    ensures taken { MatchResult result (λ n. TakesDifferences differences.old differences.new n)
        (λ _. TakesDifferencesAtMost differences.old differences.new (length (limited limit (part upto differences.old.rest)))) }
{
    let (old, new) = (differences.old_program(), differences.new_program());
    let Ok(()) = add_header(buffer, b"number,old,new", old, differences.free(), out) else {
        return Err(ProgressFault::Rows);
    };
    let end = end_of(upto, differences.free().len());
    let mut pace = Pace::new(old, new, differences.free().len());
    let mut rows = 0u64;
    let mut reached = 0u64;
    loop {
        let listed = differences.free().len();
        let stop = pace.next_stop(differences.done_below(), reached);
        let left = left_of(limit, rows);
        if end <= stop || is_reached(limit, rows) {
            let Ok(more) = add_rows(buffer, differences, listed, upto, left, out) else {
                return Err(ProgressFault::Rows);
            };
            return Ok(rows + more);
        }
        let Ok(more) = add_rows(buffer, differences, listed, Some(stop), left, out) else {
            return Err(ProgressFault::Rows);
        };
        rows += more;
        reached = stop;
        if !is_reached(limit, rows) && pace.is_due(more) {
            if let Err(fault) = tell(buffer, reached, out, err) {
                return Err(fault);
            }
        }
    }
}

/// Writes the text of the differences up to `upto` that are left, or of all where there is none, as `write_differences` does; and on `err`
/// about once a second the line of a number up to which all rows are written, `reached N`. It returns how many rows it has written.
///
/// # Errors
///
/// X6, with the writer that failed. What was written of the rows is a prefix of their text, with all of them up to the last number that was
/// reported.
pub fn write_difference_progress<O: Sink, E: Sink>(
    differences: &mut Differences<'_>,
    upto: Option<u64>,
    limit: Option<u64>,
    out: &mut O,
    err: &mut E,
) -> Result<u64, ProgressFault>
    ensures told { MatchResult result
        (λ _. TellsAll (difference_text differences.old.asked_old.program differences.old.asked_old.listed (limited limit (part upto differences.old.rest)))
        (O.log out.old) (O.log out.new) (E.log err.old) (E.log err.new))
        (λ f. TellsUntil f (λ n. difference_text differences.old.asked_old.program differences.old.asked_old.listed (differences_to n (limited limit (part upto differences.old.rest))))
        (difference_text differences.old.asked_old.program differences.old.asked_old.listed (limited limit (part upto differences.old.rest)))
        (O.log out.old) (O.log out.new) (E.log err.old) (E.log err.new)) }
    ensures rows { IfOk result (λ n. n ≡ length (limited limit (part upto differences.old.rest))) }
    ensures taken { MatchResult result (λ n. TakesDifferences differences.old differences.new n)
        (λ _. TakesDifferencesAtMost differences.old differences.new (length (limited limit (part upto differences.old.rest)))) }
{
    let mut buffer = TextBuffer::new();
    let rows = match tell_rows(&mut buffer, differences, upto, limit, out, err) {
        Ok(rows) => rows,
        Err(fault) => return Err(fault),
    };
    let Ok(()) = buffer.flush(out) else {
        return Err(ProgressFault::Rows);
    };
    Ok(rows)
}
