//! The writing of pairs of which never both are ON.

ghost use Rattle.std.specs.Prelude.{◌≡◌, ◌∷◌, [], IfOk, codes, length, map};
ghost use Rattle.text_lists.specs.PairText.{pair_row, pairs_text};
ghost use Rattle.io_text.specs.Text.{line_text, lines_text};
ghost use Rattle.io_text.specs.Buffer.{Sends};
ghost use Rattle.io_text.specs.Log.{Puts};

use diagram_program::Program;
use invariant_cases::Pair;
use invariant_sets::Pairs;
use io_text::{Sink, TextBuffer, WriteFault, add_line};

/// Adds the line of a record with two fields.
fn add_two<W: Sink>(
    buffer: &mut TextBuffer,
    first: &[u8],
    second: &[u8],
    writer: &mut W,
) -> Result<(), WriteFault>
    ensures { Sends (W.log writer.old) (W.log writer.new) buffer.old buffer.new result (line_text (first.now ∷ second.now ∷ [])) }
{
    add_line(buffer, first, [second].as_slice(), writer)
}

/// Adds the row of a pair.
fn add_pair<W: Sink>(
    buffer: &mut TextBuffer,
    program: &Program,
    pair: Pair,
    writer: &mut W,
) -> Result<(), WriteFault>
    ensures { Sends (W.log writer.old) (W.log writer.new) buffer.old buffer.new result (line_text (pair_row program.now pair)) }
{
    let decls = program.decls();
    let first = decls.symbol_name(pair.first);
    let second = decls.symbol_name(pair.second);
    add_two(buffer, first, second, writer)
}

/// Adds a row for each pair.
fn add_pairs<W: Sink>(
    buffer: &mut TextBuffer,
    program: &Program,
    pairs: &[Pair],
    writer: &mut W,
) -> Result<(), WriteFault>
    ensures { Sends (W.log writer.old) (W.log writer.new) buffer.old buffer.new result (lines_text (map (pair_row program.now) pairs.now)) }
{
    for pair in pairs {
        add_pair(buffer, program, *pair, writer)?;
    }
    Ok(())
}

/// Adds the header and all rows.
fn add_all<W: Sink>(
    buffer: &mut TextBuffer,
    program: &Program,
    pairs: &[Pair],
    writer: &mut W,
) -> Result<(), WriteFault>
    ensures { Sends (W.log writer.old) (W.log writer.new) buffer.old buffer.new result (pairs_text program.now pairs.now) }
{
    add_two(buffer, b"first", b"second", writer)?;
    add_pairs(buffer, program, pairs, writer)
}

/// Writes pairs: a header, and for each pair a row with both names. Returns the number of rows after the header. It needs no memory.
///
/// # Errors
///
/// X6: the writer failed. What was written is a prefix of the text.
pub fn write_pairs<W: Sink>(
    program: &Program,
    pairs: &Pairs,
    writer: &mut W,
) -> Result<u64, WriteFault>
    ensures wrote { Puts (W.log writer.old) (W.log writer.new) result (pairs_text program.now pairs.now) }
    ensures rows { IfOk result (λ n. n ≡ length pairs.now) }
{
    let list = pairs.list();
    let mut buffer = TextBuffer::new();
    add_all(&mut buffer, program, list, writer)?;
    buffer.flush(writer)?;
    Ok(list.len() as u64)
}
