//! Writers that count their calls, and the writing of a whole text.

ghost use Rattle.std.specs.Prelude.{◌≡◌, ◌<◌, ◌≤◌, length, IfOk, OnOk, OnErr, false};
ghost use Rattle.std.specs.Io.KnownBytes.{WriteAppends};
ghost use Rattle.io_text.specs.Calls.{Fails, Passes};
ghost use Rattle.io_text.specs.Log.{Puts, WriteLog};

use crate::fault::WriteFault;
use crate::tally::Tally;
use std::io::Write;

/// A call of a writer failed, or it took no byte of a piece that has some.
#[derive(Clone, Copy, Debug, PartialEq, Eq)]
pub struct WriteFailed;

/// A writer that counts its calls and failures. A call fails where its count has no next value.
pub trait Sink {
    // The bytes that the writer took, where it tells them, and its calls so far.
    ghost log: { Self → WriteLog };

    /// Writes a prefix of the piece, and returns how many bytes it took: at least one, where the piece has some.
    fn write(&mut self, piece: &[u8]) -> Result<usize, WriteFailed>
        ensures bound { IfOk result (λ n. n ≤ length piece.now) }
        ensures takes { IfOk result (λ n. 0 < length piece.now → 0 < n) }
        ensures bytes { WriteAppends (log self.old).contents (log self.new).contents result piece.now }
        ensures passes { OnOk result (Passes (log self.old).tally (log self.new).tally) }
        ensures fails { OnErr result (Fails (log self.old).tally (log self.new).tally) };
}

/// A writer of std with the count of its calls.
#[derive(Drop)]
pub struct CountedWriter<W: Write> {
    inner: W,
    tally: Tally,
}

impl<W: Write> CountedWriter<W> {
    ghost use Rattle.io_text.specs.CountedWriter.{writing_log};

    /// A counted writer, before its first call.
    pub fn new(inner: W) -> CountedWriter<W>
        ensures contents { (writing_log W.contents result).contents ≡ W.contents inner }
        ensures calls { (writing_log W.contents result).tally.calls ≡ 0 }
        ensures failures { (writing_log W.contents result).tally.failures ≡ 0 }
        ensures failed { (writing_log W.contents result).tally.failed ≡ false }
    {
        CountedWriter {
            inner,
            tally: Tally::new(),
        }
    }

    /// The writer of std.
    pub fn into_inner(self) -> W
        ensures { W.contents result ≡ (writing_log W.contents self).contents }
    {
        self.inner
    }
}

impl<W: Write> Sink for CountedWriter<W> {
    ghost use Rattle.io_text.specs.CountedWriter.{writing_log};

    ghost log = { writing_log W.contents };

    /// Hands a piece to the inner writer and counts the call. A writer that takes none of a piece has failed.
    fn write(&mut self, piece: &[u8]) -> Result<usize, WriteFailed> {
        if !self.tally.has_next() {
            self.tally.fail();
            return Err(WriteFailed);
        }
        match self.inner.write(piece) {
            Ok(count) if 0 < count || piece.is_empty() => {
                self.tally.pass();
                Ok(count)
            }
            _ => {
                self.tally.fail();
                Err(WriteFailed)
            }
        }
    }
}

/// Writes the whole text, call by call.
///
/// # Errors
///
/// `WriteFault` where the writer fails. What was written is then a prefix of the text.
pub fn put<W: Sink>(writer: &mut W, text: &[u8]) -> Result<(), WriteFault>
    ensures { Puts (W.log writer.old) (W.log writer.new) result text.now }
{
    let mut rest = text;
    while !rest.is_empty() {
        let Ok(count) = writer.write(rest) else {
            return Err(WriteFault);
        };
        rest = &rest[count..];
    }
    Ok(())
}
