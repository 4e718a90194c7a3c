//! Readers that count their calls.

ghost use Rattle.std.specs.Prelude.{◌≡◌, ◌≤◌, length, IfOk, OnOk, OnErr, false};
ghost use Rattle.std.specs.Io.KnownBytes.{ReadConsumes};
ghost use Rattle.io_text.specs.Calls.{Fails, Passes};
ghost use Rattle.io_text.specs.Log.{ReadLog};

use crate::tally::Tally;
use std::io::Read;

/// A call of a reader failed: any error is a failure, an interruption too.
#[derive(Clone, Copy, Debug, PartialEq, Eq)]
pub struct ReadFailed;

/// A reader that counts its calls and failures. A call fails where its count has no next value.
pub trait Source {
    // The bytes that are left, where the reader tells them, and its calls so far.
    ghost log: { Self → ReadLog };

    /// Reads some bytes into the start of `buf`, and returns how many: 0 at the end.
    fn read(&mut self, buf: &mut [u8]) -> Result<usize, ReadFailed>
        ensures bound { IfOk result (λ n. n ≤ length buf.new) }
        ensures bytes { ReadConsumes (log self.old).remaining (log self.new).remaining result buf.new }
        ensures passes { OnOk result (Passes (log self.old).tally (log self.new).tally) }
        ensures fails { OnErr result (Fails (log self.old).tally (log self.new).tally) };
}

/// A reader of std with the count of its calls.
#[derive(Drop)]
pub struct CountedReader<R: Read> {
    inner: R,
    tally: Tally,
}

impl<R: Read> CountedReader<R> {
    ghost use Rattle.io_text.specs.CountedReader.{reading_log};

    /// A counted reader, before its first call.
    pub fn new(inner: R) -> CountedReader<R>
        ensures remaining { (reading_log R.remaining result).remaining ≡ R.remaining inner }
        ensures calls { (reading_log R.remaining result).tally.calls ≡ 0 }
        ensures failures { (reading_log R.remaining result).tally.failures ≡ 0 }
        ensures failed { (reading_log R.remaining result).tally.failed ≡ false }
    {
        CountedReader {
            inner,
            tally: Tally::new(),
        }
    }

    /// The reader of std.
    pub fn into_inner(self) -> R
        ensures { R.remaining result ≡ (reading_log R.remaining self).remaining }
    {
        self.inner
    }
}

impl<R: Read> Source for CountedReader<R> {
    ghost use Rattle.io_text.specs.CountedReader.{reading_log};

    ghost log = { reading_log R.remaining };

    /// Asks the inner reader for bytes and counts the call.
    fn read(&mut self, buf: &mut [u8]) -> Result<usize, ReadFailed> {
        if !self.tally.has_next() {
            self.tally.fail();
            return Err(ReadFailed);
        }
        match self.inner.read(buf) {
            Ok(count) => {
                self.tally.pass();
                Ok(count)
            }
            Err(_) => {
                self.tally.fail();
                Err(ReadFailed)
            }
        }
    }
}
