//! Adds the rows of a cursor to a buffer.

ghost use Rattle.std.specs.Prelude.{◌≡◌, ◌+◌, ◌-◌, ◌<◌, ◌≤◌, ◌++◌, ◌^◌, [], All, IfOk, MatchOption, MatchResult, Some, None, IfSome, length};
ghost use Rattle.causes_one_scan.specs.Cursor.{KeepsQuestion, Takes, looks_of, searched};
ghost use Rattle.search_tree.specs.Looks.{looks_until};
ghost use Rattle.search_tree.specs.Marked.{marked};
ghost use Rattle.io_text.specs.Buffer.{Sends};
ghost use Rattle.text_causes.specs.CauseText.{limited, TakesAtMost};
ghost use Rattle.text_causes.specs.Parts.{part, part_looks, settled};
ghost use Rattle.text_causes.specs.Rows.{rows};
ghost use Rattle.text_causes.specs.Kept.{IsKept};

use crate::kept::Kept;
use crate::rows::RowBuffer;
use crate::runs::add_marked;
use crate::summary::{is_reached, rows_left};
use causes_one_scan::Causes;
use io_text::{Sink, TextBuffer, WriteFault};
use search_tree::Marked;

/// The next numbers of a list, at most `most`, or of the part of it up to `last`.
fn next_numbers(causes: &mut Causes<'_>, last: Option<u64>, most: u64) -> Option<Marked>
    requires most { 0 < most }
    ensures gives { IfSome result (λ m. causes.old.rest ≡ marked m.number m.mask ++ causes.new.rest) }
    ensures part { MatchOption result (part last causes.old.rest ≡ [])
        (λ m. part last causes.old.rest ≡ marked m.number m.mask ++ part last causes.new.rest) }
    ensures some { IfSome result (λ m. 0 < m.mask) }
    ensures few { IfSome result (λ m. length (marked m.number m.mask) ≤ most) }
    ensures range { IfSome result (λ m. m.number < 2 ^ 63) }
    ensures question { KeepsQuestion causes.old causes.new }
    ensures stays { result ≡ None → causes.new.rest ≡ causes.old.rest }
    ensures looks { MatchOption result (looks_of causes.new ≡ settled last (searched causes.old) (looks_of causes.old))
        (λ m. All (λ n. looks_of causes.new ≡ looks_until (searched causes.old) n) (marked m.number m.mask)) }
{
    match last {
        Some(last) => causes.next_to(last, most),
        None => causes.next_many(most),
    }
}

/// Which rows of a list are written: those up to a number, or all where there is none, and the first of them where there is a limit.
#[derive(Clone, Copy)]
pub(crate) struct Extent {
    pub last: Option<u64>,
    pub limit: Option<u64>,
}

/// Adds the rows that are left, as far as the extent goes, to a buffer, and returns how many.
#[inline(always)]
pub(crate) fn buffer_rows<W: Sink>(
    row_buffer: &mut RowBuffer,
    buffer: &mut TextBuffer,
    kept: &mut Kept,
    causes: &mut Causes<'_>,
    listed: usize,
    extent: Extent,
    writer: &mut W,
) -> Result<u64, WriteFault>
    requires listed { listed ≤ 64 }
    requires kept { IsKept listed kept.old }
    requires finite { length causes.old.rest < 2 ^ 64 }
    ensures sends { Sends (W.log writer.old) (W.log writer.new) (buffer.old ++ row_buffer.old) (buffer.new ++ row_buffer.new) result (rows listed (limited extent.limit (part extent.last causes.old.rest))) }
    ensures kept { IfOk result (λ _. IsKept listed kept.new) }
    ensures count { IfOk result (λ n. n ≡ length (limited extent.limit (part extent.last causes.old.rest))) }
    ensures taken { MatchResult result (λ n. Takes causes.old causes.new n) (λ _. TakesAtMost causes.old causes.new (length (limited extent.limit (part extent.last causes.old.rest)))) }
    ensures looks { IfOk result (λ _. looks_of causes.new ≡ part_looks extent.last (searched causes.old) (looks_of causes.old) extent.limit (part extent.last causes.old.rest)) }
{
    let mut count = 0u64;
    loop {
        if is_reached(extent.limit, count) {
            return Ok(count);
        }
        let Some(numbers) = next_numbers(causes, extent.last, rows_left(extent.limit, count)) else {
            return Ok(count);
        };
        add_marked(row_buffer, buffer, kept, listed, numbers, writer)?;
        count += u64::from(numbers.mask.count_ones());
    }
}
