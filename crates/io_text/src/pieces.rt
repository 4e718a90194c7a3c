//! Texts in pieces: words, numbers and bits, written without an allocation.

ghost use Rattle.std.specs.Prelude.{decimal};
ghost use Rattle.std.specs.Fmt.{signed_decimal};
ghost use Rattle.io_text.specs.Buffer.{Sends};
ghost use Rattle.io_text.specs.Log.{Puts};
ghost use Rattle.io_text.specs.Pieces.{piece_text, pieces_text};

use crate::buffer::TextBuffer;
use crate::fault::WriteFault;
use crate::sink::Sink;
use itoa::Buffer;

/// A piece of a text.
#[derive(Clone, Copy)]
pub enum Piece<'a> {
    /// These bytes.
    Text(&'a [u8]),
    /// A number in decimal.
    Number(u64),
    /// A number in decimal, with `-` before it where it is negative.
    Signed(i16),
    /// `1` for ON, `0` for OFF.
    Bit(bool),
}

/// Writes the pieces one after the other, in one call of the writer where it takes them at once.
///
/// # Errors
///
/// `WriteFault` where the writer fails. What was written is then a prefix of their text.
pub fn put_pieces<W: Sink>(writer: &mut W, pieces: &[Piece<'_>]) -> Result<(), WriteFault>
    ensures { Puts (W.log writer.old) (W.log writer.new) result (pieces_text pieces.now) }
{
    let mut buffer = TextBuffer::new();
    add_pieces(&mut buffer, pieces, writer)?;
    buffer.flush(writer)
}

/// Adds the texts of the pieces to a buffer, one after the other.
///
/// # Errors
///
/// `WriteFault` where the writer fails.
pub fn add_pieces<W: Sink>(
    buffer: &mut TextBuffer,
    pieces: &[Piece<'_>],
    writer: &mut W,
) -> Result<(), WriteFault>
    ensures { Sends (W.log writer.old) (W.log writer.new) buffer.old buffer.new result (pieces_text pieces.now) }
{
    for piece in pieces {
        add_piece(buffer, *piece, writer)?;
    }
    Ok(())
}

/// Adds the text of one piece to a buffer.
fn add_piece<W: Sink>(
    buffer: &mut TextBuffer,
    piece: Piece<'_>,
    writer: &mut W,
) -> Result<(), WriteFault>
    ensures { Sends (W.log writer.old) (W.log writer.new) buffer.old buffer.new result (piece_text piece.entry) }
{
    match piece {
        Piece::Text(text) => buffer.add(text, writer),
        Piece::Number(number) => add_number(buffer, number, writer),
        Piece::Signed(number) => add_signed(buffer, number, writer),
        Piece::Bit(true) => buffer.add(b"1", writer),
        Piece::Bit(false) => buffer.add(b"0", writer),
    }
}

/// Adds a number in decimal.
fn add_number<W: Sink>(
    buffer: &mut TextBuffer,
    number: u64,
    writer: &mut W,
) -> Result<(), WriteFault>
    ensures { Sends (W.log writer.old) (W.log writer.new) buffer.old buffer.new result (decimal number) }
{
    let mut digits = Buffer::new();
    buffer.add(digits.format(number).as_bytes(), writer)
}

/// Adds a number in decimal, a minus sign before it where it is negative.
fn add_signed<W: Sink>(
    buffer: &mut TextBuffer,
    number: i16,
    writer: &mut W,
) -> Result<(), WriteFault>
    ensures { Sends (W.log writer.old) (W.log writer.new) buffer.old buffer.new result (signed_decimal number) }
{
    let mut digits = Buffer::new();
    buffer.add(digits.format(number).as_bytes(), writer)
}
