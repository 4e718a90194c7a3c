//! The rows of a mask, run by run: a run is numbers with the same hundreds and the same sixty-fours.

ghost use Rattle.std.specs.Prelude.{◌≡◌, ◌+◌, ◌-◌, ◌<◌, ◌≤◌, ◌++◌, ◌^◌, ◌/◌, ℕ, IfOk, length};
ghost use Rattle.std.specs.Int.{bit_at};
ghost use Rattle.search_tree.specs.Marked.{marked};
ghost use Rattle.text_causes.specs.Kept.{IsKept};
ghost use Rattle.text_causes.specs.Rows.{rows};
ghost use Rattle.io_text.specs.Buffer.{Sends};

use crate::kept::Kept;
use crate::rows::RowBuffer;
use io_text::{Sink, TextBuffer, WriteFault};
use search_tree::Marked;

/// How many numbers from this one on have its hundreds and its sixty-fours.
fn run_length(number: u64) -> u32
    ensures some { 0 < result }
    ensures few { result ≤ 64 }
    ensures hundreds { (j : ℕ) → j < result → (number + j) / 100 ≡ number / 100 }
    ensures sixties { (j : ℕ) → j < result → (number + j) / 64 ≡ number / 64 }
{
    (100 - number % 100).min(64 - number % 64) as u32
}

/// The part of a mask with the marks of its first `count` numbers.
fn first_bits(mask: u64, count: u32) -> u64
    requires { (0 < count) × (count ≤ 64) }
    ensures first { (j : ℕ) → j < count → bit_at result j ≡ bit_at mask j }
    ensures others { (j : ℕ) → count ≤ j → bit_at result j ≡ 0 }
{
    mask & (u64::MAX >> (64 - count))
}

/// A mask from its number `count` on.
fn later_bits(mask: u64, count: u32) -> u64
    requires { (0 < count) × (count ≤ 64) }
    ensures { result ≡ mask / 2 ^ count }
{
    (mask >> (count - 1)) >> 1
}

/// Adds the rows of the numbers of a mask, one by one.
fn add_singly<W: Sink>(
    row_buffer: &mut RowBuffer,
    buffer: &mut TextBuffer,
    listed: usize,
    run: Marked,
    writer: &mut W,
) -> Result<(), WriteFault>
    requires few { listed ≤ 64 }
    requires range { run.number < 2 ^ 64 - 64 }
    ensures { Sends (W.log writer.old) (W.log writer.new) (buffer.old ++ row_buffer.old) (buffer.new ++ row_buffer.new) result (rows listed (marked run.number run.mask)) }
{
    let mut left = run.mask;
    while left != 0 {
        row_buffer.make_room(buffer, writer)?;
        row_buffer.take_row(listed, run.number + u64::from(left.trailing_zeros()));
        left &= left - 1;
    }
    Ok(())
}

/// Adds the rows of a run: copied from the kept row, where that serves.
#[inline(always)]
fn add_run<W: Sink>(
    row_buffer: &mut RowBuffer,
    buffer: &mut TextBuffer,
    kept: &mut Kept,
    listed: usize,
    run: Marked,
    writer: &mut W,
) -> Result<(), WriteFault>
    requires few { listed ≤ 64 }
    requires kept { IsKept listed kept.old }
    requires hundreds { (j : ℕ) → bit_at run.mask j ≡ 1 → (run.number + j) / 100 ≡ run.number / 100 }
    requires sixties { (j : ℕ) → bit_at run.mask j ≡ 1 → (run.number + j) / 64 ≡ run.number / 64 }
    requires range { run.number < 2 ^ 64 - 64 }
    ensures sends { Sends (W.log writer.old) (W.log writer.new) (buffer.old ++ row_buffer.old) (buffer.new ++ row_buffer.new) result (rows listed (marked run.number run.mask)) }
    ensures kept { IsKept listed kept.new }
{
    kept.keep(listed, run.number);
    if !kept.serves(listed) {
        return add_singly(row_buffer, buffer, listed, run, writer);
    }
    row_buffer.make_room(buffer, writer)?;
    row_buffer.take_run(kept, listed, run);
    Ok(())
}

/// Adds the rows of the numbers that a mask marks, run by run.
#[inline(always)]
pub(crate) fn add_marked<W: Sink>(
    row_buffer: &mut RowBuffer,
    buffer: &mut TextBuffer,
    kept: &mut Kept,
    listed: usize,
    numbers: Marked,
    writer: &mut W,
) -> Result<(), WriteFault>
    requires few { listed ≤ 64 }
    requires kept { IsKept listed kept.old }
    requires range { numbers.number < 2 ^ 63 }
    ensures sends { Sends (W.log writer.old) (W.log writer.new) (buffer.old ++ row_buffer.old) (buffer.new ++ row_buffer.new) result (rows listed (marked numbers.number numbers.mask)) }
    ensures kept { IsKept listed kept.new }
{
    let mut mask = numbers.mask;
    let mut place = 0;
    while mask != 0 {
        let number = numbers.number + u64::from(place);
        let count = run_length(number);
        let run = Marked {
            number,
            mask: first_bits(mask, count),
        };
        add_run(row_buffer, buffer, kept, listed, run, writer)?;
        mask = later_bits(mask, count);
        place += count;
    }
    Ok(())
}
