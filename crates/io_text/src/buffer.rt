//! A buffer of bytes to be written, many in one call.

ghost use Rattle.std.specs.Prelude.{◌≡◌, ◌+◌, ◌≤◌, ◌++◌, [], IfOk, length, take};
ghost use Rattle.io_text.specs.Buffer.{Sends};
ghost use Rattle.io_text.specs.Log.{Puts};

use crate::fault::WriteFault;
use crate::sink::{Sink, put};
use std::marker::Model;

/// How many bytes a buffer holds.
const BLOCK: usize = 8192;

/// A buffer of bytes to be written, so that a long text takes few calls of its writer. A piece is never cut to fill the buffer. After
/// a failed write the buffer is to be dropped: nothing more may be written.
#[derive(Drop)]
pub struct TextBuffer {
    bytes: [u8; BLOCK],
    used: usize,
}

impl Model for TextBuffer {
    ghost use Rattle.std.specs.Prelude.{ℕ, List, ◌≤◌, take};
    ghost use Rattle.io_text.specs.declared.buffer.TheConstants.{BLOCK};

    ghost Value = { List ℕ };

    ghost view = { λ b. take b.used b.bytes };

    ghost invariant = { λ b. b.used ≤ BLOCK };
}

impl TextBuffer {
    ghost use Rattle.io_text.specs.declared.buffer.TheConstants.{BLOCK};

    /// An empty buffer.
    pub fn new() -> TextBuffer
        ensures { result ≡ [] }
    {
        TextBuffer {
            bytes: [0; BLOCK],
            used: 0,
        }
    }

    /// Writes all that the buffer holds, which is empty then.
    ///
    /// # Errors
    ///
    /// `WriteFault` where the writer fails.
    pub fn flush<W: Sink>(&mut self, writer: &mut W) -> Result<(), WriteFault>
        ensures wrote { Puts (W.log writer.old) (W.log writer.new) result self.old }
        ensures empty { self.new ≡ [] }
    {
        let used = self.used;
        self.used = 0;
        put(writer, &self.bytes[..used])
    }

    /// Copies a piece that fits into the buffer.
    fn take(&mut self, piece: &[u8])
        requires { length self.old + length piece.now ≤ BLOCK }
        ensures { self.new ≡ self.old ++ piece.now }
    {
        let end = self.used + piece.len();
        self.bytes[self.used..end].copy_from_slice(piece);
        self.used = end;
    }

    /// Writes what the buffer holds, and then a piece that does not fit.
    fn write_through<W: Sink>(&mut self, piece: &[u8], writer: &mut W) -> Result<(), WriteFault>
        ensures { Sends (W.log writer.old) (W.log writer.new) self.old self.new result piece.now }
    {
        self.flush(writer)?;
        if BLOCK < piece.len() {
            return put(writer, piece);
        }
        self.take(piece);
        Ok(())
    }

    /// Takes a piece; where it does not fit, what the buffer holds is written first.
    ///
    /// # Errors
    ///
    /// `WriteFault` where the writer fails.
    pub fn add<W: Sink>(&mut self, piece: &[u8], writer: &mut W) -> Result<(), WriteFault>
        ensures { Sends (W.log writer.old) (W.log writer.new) self.old self.new result piece.now }
    {
        if BLOCK - self.used < piece.len() {
            return self.write_through(piece, writer);
        }
        self.take(piece);
        Ok(())
    }
}
