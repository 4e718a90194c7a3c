//! The text of a list of causes.

ghost use Rattle.std.specs.Prelude.{◌≡◌, ◌-◌, ◌<◌, IfOk, MatchResult, Some, None, false, length};
ghost use Rattle.causes_one_scan.specs.Cursor.{Takes, looks_given, looks_of, searched};
ghost use Rattle.causes_one_scan.specs.Parts.{looks_given_to, numbers_to};
ghost use Rattle.text_causes.specs.CauseText.{cause_text, limited, TakesAtMost};
ghost use Rattle.text_causes.specs.Parts.{part, part_looks};
ghost use Rattle.io_text.specs.Log.{Puts};

use crate::progress::write_paced;
use crate::summary::Summary;
use causes_one_scan::Causes;
use io_text::{CountedWriter, Sink, WriteFault};
use std::io;

/// Writes the text of a list, as `write_causes` does, or of the part of it up to `last`, as `write_part` does.
///
/// # Errors
///
/// X6, as `write_causes`.
pub fn write_upto<W: Sink>(
    causes: &mut Causes<'_>,
    last: Option<u64>,
    limit: Option<u64>,
    writer: &mut W,
) -> Result<Summary, WriteFault>
    ensures bytes { Puts (W.log writer.old) (W.log writer.new) result (cause_text causes.old.program causes.old.listed (limited limit (part last causes.old.rest))) }
    ensures rows { IfOk result (λ s. s.rows ≡ length (limited limit (part last causes.old.rest))) }
    ensures taken { MatchResult result (λ s. Takes causes.old causes.new s.rows) (λ _. TakesAtMost causes.old causes.new (length (limited limit (part last causes.old.rest)))) }
    ensures looks { IfOk result (λ s. s.looks ≡ looks_of causes.new) }
    ensures counted { IfOk result (λ _. looks_of causes.new ≡ part_looks last (searched causes.old) (looks_of causes.old) limit (part last causes.old.rest)) }
{
    // Nothing is told, so nothing is written there.
    let mut untold = CountedWriter::new(io::sink());
    match write_paced(causes, last, limit, false, writer, &mut untold) {
        Ok(summary) => Ok(summary),
        Err(_) => Err(WriteFault),
    }
}

/// Writes the text of the causes that are left, or of the first ones where there is a limit: a header, and a row for each cause.
/// It needs no memory. With a limit of n rows the cursor is asked at most n times.
///
/// # Errors
///
/// X6: the writer failed. What was written is a prefix of that text. The cursor may have given causes, within the limit, that were not
/// written in full; a new cursor goes on after the last whole row.
pub fn write_causes<W: Sink>(
    causes: &mut Causes<'_>,
    limit: Option<u64>,
    writer: &mut W,
) -> Result<Summary, WriteFault>
    ensures bytes { Puts (W.log writer.old) (W.log writer.new) result (cause_text causes.old.program causes.old.listed (limited limit causes.old.rest)) }
    ensures rows { IfOk result (λ s. s.rows ≡ length (limited limit causes.old.rest)) }

    // Where the cursor then is: it has given the rows that were written. After a fault it may have given more, but none past the limit.
    ensures taken { MatchResult result (λ s. Takes causes.old causes.new s.rows) (λ _. TakesAtMost causes.old causes.new (length (limited limit causes.old.rest))) }

    // The looks are the cursor's count, which is that of the search as far as it was gone through.
    ensures looks { IfOk result (λ s. s.looks ≡ looks_of causes.new) }
    ensures counted { IfOk result (λ _. looks_of causes.new ≡ looks_given (searched causes.old) (looks_of causes.old) limit causes.old.rest) }
{
    write_upto(causes, None, limit, writer)
}

/// Writes the text of the causes up to `last` that are left, or of the first ones where there is a limit, as `write_causes` does. Those
/// above `last` are still to be given.
///
/// # Errors
///
/// X6, as `write_causes`.
pub fn write_part<W: Sink>(
    causes: &mut Causes<'_>,
    last: u64,
    limit: Option<u64>,
    writer: &mut W,
) -> Result<Summary, WriteFault>
    ensures bytes { Puts (W.log writer.old) (W.log writer.new) result (cause_text causes.old.program causes.old.listed (limited limit (numbers_to last causes.old.rest))) }
    ensures rows { IfOk result (λ s. s.rows ≡ length (limited limit (numbers_to last causes.old.rest))) }
    ensures taken { MatchResult result (λ s. Takes causes.old causes.new s.rows) (λ _. TakesAtMost causes.old causes.new (length (limited limit (numbers_to last causes.old.rest)))) }

    // The looks are the cursor's count, which is that of the search as far as it was gone through.
    ensures looks { IfOk result (λ s. s.looks ≡ looks_of causes.new) }
    ensures counted { IfOk result (λ _. looks_of causes.new
        ≡ looks_given_to (searched causes.old) (looks_of causes.old) last limit (numbers_to last causes.old.rest)) }
{
    write_upto(causes, Some(last), limit, writer)
}
