//! The records of a stimulus one after the other, with those that are between them.

ghost use Rattle.std.specs.Prelude.{◌≡◌, ◌<◌, ◌≤◌, ◌+◌, ◌*◌, ◌^◌, IfOk, IfSome, IsSome, List, Some, false, length, true, unwrap_or};
ghost use Rattle.csv.specs.Records.{fields_of};
ghost use Rattle.io_text.specs.Left.{Left};
ghost use Rattle.io_text.specs.Text.{records_of};
ghost use Rattle.text_trace.specs.Coming.{Comes, IsFresh, IsSound, IsWide, StillComes, Takes, count_in};
ghost use Rattle.text_trace.specs.Filled.{Numbered};

use crate::row::read_row;
use csv::ByteRecord;
use io_text::{Records, next, read_from};
use std::alloc::{AllocError, Global};
use std::mem::swap;

/// The records of a stimulus, and what is known of those between two of them.
#[derive(Drop)]
pub(crate) struct Filling<'a> {
    pub(crate) records: Records<'a>,
    /// The time from a record to the next one that is held, in ms; 0 where there is none in between.
    pub(crate) every: u64,
    /// The record of the file that was taken last, initially the header.
    pub(crate) last: ByteRecord,
    /// Its moment, where it is good.
    pub(crate) from: Option<u64>,
    /// The record of the file after it, where that is read.
    pub(crate) ahead: ByteRecord,
    pub(crate) is_ahead: bool,
    /// Its moment, where it is good.
    pub(crate) to: Option<u64>,
    /// The moment of what was taken last, where there are records in between.
    pub(crate) moment: u64,
    /// How many records in between are left.
    pub(crate) left: u64,
    /// The number of the next record of the file, counted from 1, the header included.
    pub(crate) number: u64,
}

/// A record that was taken: its own number or that of the record that it comes before, and its moment where it is good. Its bits are those
/// of the record of the file that was taken last.
#[derive(Clone, Copy)]
pub(crate) struct Taken {
    pub(crate) number: u64,
    pub(crate) moment: Option<u64>,
}

/// The records of a text, before the first is taken.
pub(crate) fn filling_from<'a>(alloc: Global, text: &'a [u8], every: u64) -> Filling<'a>
    ensures fresh { IsFresh result }
    ensures every { result.every ≡ every }
    ensures all { Left result.records (records_of text.entry.now) }
{
    Filling {
        records: read_from(alloc, text),
        every,
        last: ByteRecord::new(alloc),
        from: None,
        ahead: ByteRecord::new(alloc),
        is_ahead: false,
        to: None,
        moment: 0,
        left: 0,
        number: 2,
    }
}

/// How many scans are made between two records of the file, one each `every` ms; none if a moment is missing or goes back.
fn count_between(every: u64, from: Option<u64>, to: Option<u64>) -> u64
    ensures count { result ≡ count_in every from to }
    ensures small { unwrap_or from 0 + every * result < 2 ^ 64 }
    ensures good { 0 < result → IsSome from }
{
    let (Some(from), Some(to)) = (from, to) else {
        return 0;
    };
    if every == 0 || to <= from {
        return 0;
    }
    (to - from - 1) / every
}

/// Reads the next record of the file. Returns whether there was one.
fn read_ahead(columns: &[usize], filling: &mut Filling<'_>) -> Result<bool, AllocError>
    requires sound { IsSound columns.now filling.old }
    requires unread { filling.old.is_ahead ≡ false }
    ensures sound { IfOk result (λ found. IsSound columns.now filling.new) }
    ensures read { IfOk result (λ found. filling.new.is_ahead ≡ found) }
    ensures number { filling.new.number ≡ filling.old.number }
    ensures comes { (all : List Numbered) → Comes columns.now filling.old all → IfOk result (λ found. StillComes columns.now found filling.new all) }
{
    let found = next(&mut filling.records, &mut filling.ahead)?;
    if !found {
        return Ok(false);
    }
    filling.to = read_row(columns, &filling.ahead);
    filling.moment = filling.from.unwrap_or(0);
    filling.left = count_between(filling.every, filling.from, filling.to);
    filling.is_ahead = true;
    Ok(true)
}

/// Takes the record of the file that was read ahead.
fn take_ahead(columns: &[usize], filling: &mut Filling<'_>) -> Taken
    requires sound { IsSound columns.now filling.old }
    requires read { filling.old.is_ahead ≡ true }
    requires last { filling.old.left ≡ 0 }
    requires room { filling.old.number + 1 < 2 ^ 64 }
    ensures sound { IsSound columns.now filling.new }
    ensures number { filling.new.number ≡ filling.old.number + 1 }
    ensures wide { IfSome result.moment (λ m. length (fields_of filling.new.last) ≡ length columns.now + 1) }
    ensures takes { (all : List Numbered) → Comes columns.now filling.old all → Takes columns.now all (Some result) filling.new }
{
    let taken = Taken {
        number: filling.number,
        moment: filling.to,
    };
    swap(&mut filling.last, &mut filling.ahead);
    filling.from = filling.to;
    filling.is_ahead = false;
    filling.number += 1;
    taken
}

/// Takes the next record between two of the file: their inputs are held, at the next moment.
fn take_between(columns: &[usize], filling: &mut Filling<'_>) -> Taken
    requires sound { IsSound columns.now filling.old }
    requires read { filling.old.is_ahead ≡ true }
    requires some { 0 < filling.old.left }
    ensures sound { IsSound columns.now filling.new }
    ensures number { filling.new.number ≡ filling.old.number }
    ensures wide { length (fields_of filling.new.last) ≡ length columns.now + 1 }
    ensures takes { (all : List Numbered) → Comes columns.now filling.old all → Takes columns.now all (Some result) filling.new }
{
    filling.left -= 1;
    filling.moment += filling.every;
    Taken {
        number: filling.number,
        moment: Some(filling.moment),
    }
}

/// Takes the next record, where there is one.
///
/// # Errors
///
/// An error when out of memory, which ends the reading.
pub(crate) fn take(
    columns: &[usize],
    filling: &mut Filling<'_>,
) -> Result<Option<Taken>, AllocError>
    requires sound { IsSound columns.now filling.old }
    requires room { filling.old.number + 1 < 2 ^ 64 }
    ensures sound { IfOk result (λ taken. IsSound columns.now filling.new) }
    ensures number { filling.new.number ≤ filling.old.number + 1 }
    ensures wide { IfOk result (λ taken. IsWide columns.now taken filling.new) }
    ensures takes { (all : List Numbered) → Comes columns.now filling.old all → IfOk result (λ taken. Takes columns.now all taken filling.new) }
{
    if !filling.is_ahead {
        let found = read_ahead(columns, filling)?;
        if !found {
            return Ok(None);
        }
    }
    if filling.left > 0 {
        return Ok(Some(take_between(columns, filling)));
    }
    Ok(Some(take_ahead(columns, filling)))
}
