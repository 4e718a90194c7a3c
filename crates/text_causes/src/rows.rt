//! A buffer of rows, which are added to the buffer of the writer many at once.

ghost use Rattle.std.specs.Prelude.{◌≡◌, ◌+◌, ◌-◌, ◌<◌, ◌≤◌, ◌++◌, ◌^◌, ℕ, [], IfOk, length};
ghost use Rattle.std.specs.Int.{bit_at};
ghost use Rattle.search_tree.specs.Marked.{marked};
ghost use Rattle.text_causes.specs.Kept.{IsKept, IsNear, Serves};
ghost use Rattle.text_causes.specs.Rows.{row, rows};
ghost use Rattle.text_causes.specs.declared.rows.TheConstants.{FULL};
ghost use Rattle.io_text.specs.Buffer.{Sends};

use crate::kept::{Kept, RUN};
use crate::row_text::{DIGITS, ROW, write_row};
use io_text::{Sink, TextBuffer, WriteFault};
use search_tree::Marked;
use std::marker::Model;

/// A buffer that holds more bytes is handed over. So many are more than a buffer holds, so they are written as they are.
const FULL: usize = 8192;

/// A buffer of rows: the rows of a mask take one test of its room.
#[derive(Drop)]
pub(crate) struct RowBuffer {
    bytes: [u8; FULL + RUN],
    used: usize,
}

impl Model for RowBuffer {
    ghost use Rattle.std.specs.Prelude.{ℕ, List, ◌+◌, ◌≤◌, take};
    ghost use Rattle.text_causes.specs.declared.rows.TheConstants.{FULL};
    ghost use Rattle.text_causes.specs.declared.kept.TheConstants.{RUN};

    ghost Value = { List ℕ };

    ghost view = { λ b. take b.used b.bytes };

    ghost invariant = { λ b. b.used ≤ FULL + RUN };
}

impl RowBuffer {
    ghost use Rattle.text_causes.specs.declared.rows.TheConstants.{FULL};

    /// A buffer that holds no rows.
    pub(crate) fn new() -> RowBuffer
        ensures { result ≡ [] }
    {
        RowBuffer {
            bytes: [0; FULL + RUN],
            used: 0,
        }
    }

    /// Adds all rows of this buffer to the buffer of the writer, and is empty then.
    pub(crate) fn hand_over<W: Sink>(
        &mut self,
        buffer: &mut TextBuffer,
        writer: &mut W,
    ) -> Result<(), WriteFault>
        ensures sends { Sends (W.log writer.old) (W.log writer.new) (buffer.old ++ self.old) (buffer.new ++ self.new) result [] }
        ensures empty { self.new ≡ [] }
    {
        let used = self.used;
        self.used = 0;
        buffer.add(&self.bytes[..used], writer)
    }

    /// Makes sure that the rows of a whole mask fit, by handing over the rows so far where they might not.
    pub(crate) fn make_room<W: Sink>(
        &mut self,
        buffer: &mut TextBuffer,
        writer: &mut W,
    ) -> Result<(), WriteFault>
        ensures sends { Sends (W.log writer.old) (W.log writer.new) (buffer.old ++ self.old) (buffer.new ++ self.new) result [] }
        ensures room { IfOk result (λ _. length self.new ≤ FULL) }
    {
        if FULL < self.used {
            return self.hand_over(buffer, writer);
        }
        Ok(())
    }

    /// Adds the row of one number to the buffer.
    pub(crate) fn take_row(&mut self, listed: usize, number: u64)
        requires few { listed ≤ 64 }
        requires room { length self.old ≤ FULL }
        ensures { self.new ≡ self.old ++ row listed number }
    {
        let mut text = [0; ROW];
        let start = write_row(&mut text, listed, number);
        let end = DIGITS + 2 * listed + 1;
        let used = self.used + (end - start);
        self.bytes[self.used..used].copy_from_slice(&text[start..end]);
        self.used = used;
    }

    /// Takes the rows of the numbers that a run marks, all of them near the kept row, from which they are copied.
    #[inline(always)]
    pub(crate) fn take_run(&mut self, kept: &Kept, listed: usize, run: Marked)
        requires few { listed ≤ 64 }
        requires room { length self.old ≤ FULL }
        requires kept { IsKept listed kept.now }
        requires serves { Serves listed kept.now }
        requires first { IsNear kept.now run.number }
        requires near { (j : ℕ) → bit_at run.mask j ≡ 1 → IsNear kept.now (run.number + j) }
        requires range { run.number < 2 ^ 64 - 64 }
        ensures { self.new ≡ self.old ++ rows listed (marked run.number run.mask) }
    {
        let used = self.used;
        let long = kept.write_run(&mut self.bytes[used..used + RUN], listed, run);
        self.used = used + long;
    }
}
