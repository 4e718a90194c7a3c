//! What is said of a word that names nothing.

ghost use Rattle.std.specs.Prelude.{◌⊎◌, None, Some};
ghost use Rattle.io_text.specs.Log.{Puts};
ghost use Rattle.text_names.specs.Nearest.{name_at, nearest, no_input_text, other_text, told_name, unknown_text};

use crate::meant::{Wanted, name_at, nearest};
use diagram_declarations::Decls;
use io_text::{Piece, Sink, WriteFault, put_pieces};
use std::alloc::Global;

/// Writes that a word isn't declared, with the name that is nearest to it.
fn write_with<'a, W: Sink>(word: &'a [u8], name: &'a [u8], writer: &mut W) -> Result<(), WriteFault>
    ensures { Puts (W.log writer.old) (W.log writer.new) result (unknown_text word.now (Some name.now)) }
{
    let pieces = [
        Piece::Text(b"\""),
        Piece::Text(word),
        Piece::Text(b"\" isn't declared; did you mean "),
        Piece::Text(name),
        Piece::Text(b"?\n"),
    ];
    put_pieces(writer, pieces.as_slice())
}

/// Writes that a word isn't declared.
fn write_alone<W: Sink>(word: &[u8], writer: &mut W) -> Result<(), WriteFault>
    ensures { Puts (W.log writer.old) (W.log writer.new) result (unknown_text word.now None) }
{
    let pieces = [
        Piece::Text(b"\""),
        Piece::Text(word),
        Piece::Text(b"\" isn't declared\n"),
    ];
    put_pieces(writer, pieces.as_slice())
}

/// Writes that a declared name is that of no input.
///
/// # Errors
///
/// `WriteFault` where the writer fails. What was written is then a prefix of the text.
pub fn write_no_input<W: Sink>(word: &[u8], writer: &mut W) -> Result<(), WriteFault>
    ensures { Puts (W.log writer.old) (W.log writer.new) result (no_input_text word.now) }
{
    let pieces = [
        Piece::Text(b"\""),
        Piece::Text(word),
        Piece::Text(b"\" is no input\n"),
    ];
    put_pieces(writer, pieces.as_slice())
}

/// Writes that a record of a state has another name than the program there.
///
/// # Errors
///
/// `WriteFault` where the writer fails. What was written is then a prefix of the text.
pub fn write_other<'a, W: Sink>(
    number: u64,
    found: &'a [u8],
    name: &'a [u8],
    writer: &mut W,
) -> Result<(), WriteFault>
    ensures { Puts (W.log writer.old) (W.log writer.new) result (other_text number found.now name.now) }
{
    let pieces = [
        Piece::Text(b"the state is of another program: its record "),
        Piece::Number(number),
        Piece::Text(b" is of "),
        Piece::Text(found),
        Piece::Text(b", where this program has "),
        Piece::Text(name),
        Piece::Text(b"\n"),
    ];
    put_pieces(writer, pieces.as_slice())
}

/// Writes that a word isn't declared, and which name it may mean; out of memory no name is told.
///
/// # Errors
///
/// `WriteFault` where the writer fails. What was written is then a prefix of the text.
pub fn write_unknown<W: Sink>(
    alloc: Global,
    decls: &Decls,
    wanted: Wanted,
    word: &[u8],
    writer: &mut W,
) -> Result<(), WriteFault>
    ensures { Puts (W.log writer.old) (W.log writer.new) result (unknown_text word.now (told_name decls.now (nearest decls.now wanted word.now)))
        ⊎ Puts (W.log writer.old) (W.log writer.new) result (unknown_text word.now None) }
{
    match nearest(alloc, decls, wanted, word) {
        Ok(Some(number)) => write_with(word, name_at(decls, number), writer),
        Ok(None) | Err(_) => write_alone(word, writer),
    }
}
