//! A row that is kept: the rows of the next numbers mostly differ from it in the last digits and bits alone.

ghost use Rattle.std.specs.Prelude.{◌≡◌, ◌+◌, ◌-◌, ◌*◌, ◌<◌, ◌≤◌, ◌^◌, ◌%◌, ℕ, IsTrue, drop, length, take};
ghost use lib.Lanes.{put_chunk};
ghost use Rattle.std.specs.Int.{bit_at};
ghost use Rattle.search_tree.specs.Marked.{marked};
ghost use Rattle.text_causes.specs.Rows.{row, rows};
ghost use Rattle.text_causes.specs.Kept.{ArePairs, AreTails, IsKept, IsNear, Serves};
ghost use Rattle.text_causes.specs.declared.row_text.TheConstants.{DIGITS, ROW};

use crate::row_text::{DIGITS, ROW, fill_end, write_row};
use itoa::write_digits;
use search_tree::Marked;
use std::simd::Simd;

/// How many bytes of a row are copied, whatever its length: a copy of a fixed length needs no test.
const COPIED: usize = 64;

/// How many bytes the longest row has that is made from a kept one: what is copied, and the last six bits with the line feed.
const LONGEST: usize = COPIED + 13;

/// How many bytes a row is made in: the longest one, and three that are written past its end.
const MADE: usize = LONGEST + 3;

/// The room for the rows of a mask, in bytes.
pub(crate) const RUN: usize = 64 * MADE;

/// A row whose number has 0 for its last two digits and whose bits are those of a number with 0 for the last six: the rows of all
/// numbers with the same hundreds and the same sixty-fours differ from it in these alone.
#[derive(Drop)]
pub(crate) struct Kept {
    text: [u8; ROW],
    /// Where the row begins.
    start: usize,
    /// The number whose digits the row has.
    pub hundreds: u64,
    /// The number whose bits it has.
    pub sixties: u64,
    /// The numbers below 100, in two digits each.
    pairs: [u8; 200],
    /// The end of a row for each value of the last six bits, in 16 bytes each.
    tails: [u8; 1024],
}

/// This many bytes of a text, from a place on, read in one piece.
#[inline(always)]
fn load<const N: usize>(text: &[u8], at: usize) -> Simd<u8, N>
    requires { at + N ≤ length text.now }
    ensures { result ≡ take N (drop at text.now) }
{
    Simd::<u8, N>::from_slice(&text[at..])
}

/// Writes bytes over a text from a place on, in one piece.
#[inline(always)]
fn store<const N: usize>(text: &mut [u8], at: usize, bytes: Simd<u8, N>)
    requires { at + N ≤ length text.old }
    ensures { text.new ≡ put_chunk at text.old bytes.entry }
{
    bytes.copy_to_slice(&mut text[at..]);
}

/// Fills the table of the texts of six bits, which end most rows.
fn fill_tails(tails: &mut [u8])
    requires { length tails.old ≡ 1024 }
    ensures { AreTails tails.new 64 }
{
    for bits in 0..64usize {
        fill_end(&mut tails[16 * bits..], 6, bits as u64);
    }
}

/// Fills the table of the texts of two digits.
fn fill_pairs(pairs: &mut [u8])
    requires { length pairs.old ≡ 200 }
    ensures { ArePairs pairs.new 100 }
{
    for low in 0..100u8 {
        let at = 2 * low as usize;
        pairs[at..at + 2].copy_from_slice(&[b'0' + low / 10, b'0' + low % 10]);
    }
}

impl Kept {
    /// The kept row before any other: the row of 0, and the tables of the texts of digits and bits.
    pub(crate) fn new(listed: usize) -> Kept
        requires { listed ≤ 64 }
        ensures { IsKept listed result }
    {
        let mut text = [0; ROW];
        let mut tails = [0; 1024];
        fill_tails(&mut tails);
        let mut pairs = [0; 200];
        fill_pairs(&mut pairs);
        let start = write_row(&mut text, listed, 0);
        Kept {
            text,
            start,
            hundreds: 0,
            sixties: 0,
            pairs,
            tails,
        }
    }

    /// Keeps the row from which the rows of a number and of its neighbours are copied.
    pub(crate) fn keep(&mut self, listed: usize, number: u64)
        requires few { listed ≤ 64 }
        requires kept { IsKept listed self.old }
        ensures kept { IsKept listed self.new }
        ensures near { IsNear self.new number }
    {
        self.keep_digits(number - number % 100);
        self.keep_bits(listed, number - number % 64);
    }

    /// Puts into the kept row the digits of a number whose last two are 0; the copies get their own last two.
    fn keep_digits(&mut self, hundreds: u64)
        requires whole { hundreds % 100 ≡ 0 }
        ensures kept { (k : ℕ) → k ≤ 64 → IsKept k self.old → IsKept k self.new }
        ensures hundreds { self.new.hundreds ≡ hundreds }
        ensures sixties { self.new.sixties ≡ self.old.sixties }
    {
        if self.hundreds != hundreds {
            self.start = write_digits(hundreds, &mut self.text, DIGITS);
            self.hundreds = hundreds;
        }
    }

    /// Puts into the kept row the bits of a number whose last six are 0; the copies get their own last six.
    fn keep_bits(&mut self, listed: usize, sixties: u64)
        requires few { listed ≤ 64 }
        requires kept { IsKept listed self.old }
        requires whole { sixties % 64 ≡ 0 }
        ensures kept { IsKept listed self.new }
        ensures hundreds { self.new.hundreds ≡ self.old.hundreds }
        ensures sixties { self.new.sixties ≡ sixties }
    {
        if self.sixties != sixties {
            fill_end(&mut self.text[DIGITS..], listed, sixties);
            self.sixties = sixties;
        }
    }

    /// Whether rows can be made from this one: not where they have fewer than three digits or six bits, or are too long.
    pub(crate) fn serves(&self, listed: usize) -> bool
        requires few { listed ≤ 64 }
        requires kept { IsKept listed self.now }
        ensures { IsTrue result → Serves listed self.now }
    {
        100 <= self.hundreds && 6 <= listed && DIGITS + 2 * listed + 1 - self.start <= LONGEST
    }

    /// Writes the row of a number near the kept one over the first bytes of a text: the number is `place` places after the first of
    /// its run, and `front` are the first bytes of the kept row.
    ///
    /// The copy is patched and never the kept row: a byte that was just written is slow to read again among its neighbours, and each
    /// row would wait for the one before it.
    #[inline(always)]
    fn write_near(
        &self,
        text: &mut [u8],
        front: Simd<u8, COPIED>,
        listed: usize,
        first: u64,
        place: usize,
    )
        requires few { listed ≤ 64 }
        requires room { length text.old ≡ 80 }
        requires place { place < 64 }
        requires range { first < 2 ^ 64 - 64 }
        requires first { IsNear self.now first }
        requires kept { IsKept listed self.now }
        requires serves { Serves listed self.now }
        requires near { IsNear self.now (first + place) }
        requires front { front ≡ take 64 (drop self.now.start self.now.text) }
        ensures { take (DIGITS + 2 * listed + 1 - self.now.start) text.new ≡ row listed (first + place) }
    {
        let long = DIGITS + 2 * listed + 1 - self.start;
        // as small numbers, so that these two differences are made once for a run
        let pair = 2 * ((first - self.hundreds) as u8 as usize + place);
        let tail = 16 * ((first - self.sixties) as u8 as usize + place);
        store(text, 0, front);
        store(text, 18 - self.start, load::<2>(&self.pairs, pair));

        // of the 16 bytes, 13 are the row's: the buffer and the tails have three more
        store(text, long - 13, load::<16>(&self.tails, tail));
    }

    /// Writes the rows of numbers near the kept one over the first bytes of a text, and returns how many bytes they have.
    #[inline(always)]
    pub(crate) fn write_run(&self, text: &mut [u8], listed: usize, run: Marked) -> usize
        requires few { listed ≤ 64 }
        requires room { length text.old ≡ RUN }
        requires kept { IsKept listed self.now }
        requires serves { Serves listed self.now }
        requires first { IsNear self.now run.number }
        requires near { (j : ℕ) → bit_at run.mask j ≡ 1 → IsNear self.now (run.number + j) }
        requires range { run.number < 2 ^ 64 - 64 }
        ensures short { result ≤ RUN }
        ensures rows { take result text.new ≡ rows listed (marked run.number run.mask) }
    {
        let front = load::<COPIED>(&self.text, self.start);
        let long = DIGITS + 2 * listed + 1 - self.start;
        let mut left = run.mask;
        let mut used = 0;
        while left != 0 {
            let place = left.trailing_zeros() as usize;
            self.write_near(
                &mut text[used..used + MADE],
                front,
                listed,
                run.number,
                place,
            );
            used += long;
            left &= left - 1;
        }
        used
    }
}
