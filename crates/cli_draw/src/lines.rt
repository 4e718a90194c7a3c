//! What is said of a text that isn't drawn.

ghost use Rattle.std.specs.Prelude.{◌≡◌, ◌++◌};
ghost use Rattle.io_text.specs.Buffer.{Sends};
ghost use Rattle.io_text.specs.Log.{Puts};
ghost use Rattle.cli_inputs.specs.FaultLine.{numbered};
ghost use Rattle.cli_draw.specs.Lines.{explanation, fault_line, fault_near, fault_text, gap, lined, refusal_line, text_line, worded};
ghost use Rattle.cli_draw.specs.Sentences.{sentence};

use crate::near::add_fault_near;
use crate::place::{line_number, word_at};
use crate::sentences::add_sentence;
use draw_program::DrawFault;
use io_text::{Piece, Sink, TextBuffer, WriteFault, add_pieces};
use st_program::{Refusal, StFault};

/// Adds a text, a number and the end of the line.
fn add_numbered<W: Sink>(
    buffer: &mut TextBuffer,
    lead: &[u8],
    number: usize,
    writer: &mut W,
) -> Result<(), WriteFault>
    ensures { Sends (W.log writer.old) (W.log writer.new) buffer.old buffer.new result (numbered lead.now number) }
{
    let pieces = [
        Piece::Text(lead),
        Piece::Number(number as u64),
        Piece::Text(b"\n"),
    ];
    add_pieces(buffer, pieces.as_slice(), writer)
}

/// Adds a line that ends with the number of the line of a place.
fn add_lined<W: Sink>(
    buffer: &mut TextBuffer,
    lead: &[u8],
    text: &[u8],
    at: Option<usize>,
    writer: &mut W,
) -> Result<(), WriteFault>
    ensures { Sends (W.log writer.old) (W.log writer.new) buffer.old buffer.new result (lined lead.now text.now at) }
{
    add_numbered(buffer, lead, line_number(text, at), writer)
}

/// What stands before a word: a blank, where there is a word.
fn gap(word: &[u8]) -> &'static [u8]
    ensures { result.now ≡ gap word.now }
{
    match word {
        [] => b"",
        _ => b" ",
    }
}

/// Adds a line that ends with the number of the line of a place, and the word that begins there.
fn add_worded<'a, W: Sink>(
    buffer: &mut TextBuffer,
    lead: &'a [u8],
    text: &'a [u8],
    at: Option<usize>,
    writer: &mut W,
) -> Result<(), WriteFault>
    ensures { Sends (W.log writer.old) (W.log writer.new) buffer.old buffer.new result (worded lead.now text.now at) }
{
    let word = word_at(text, at);
    let pieces = [
        Piece::Text(lead),
        Piece::Number(line_number(text, at) as u64),
        Piece::Text(gap(word)),
        Piece::Text(word),
        Piece::Text(b"\n"),
    ];
    add_pieces(buffer, pieces.as_slice(), writer)
}

/// Adds the line on words that are no program.
fn add_refusal_line<W: Sink>(
    buffer: &mut TextBuffer,
    text: &[u8],
    refusal: Refusal,
    writer: &mut W,
) -> Result<(), WriteFault>
    ensures { Sends (W.log writer.old) (W.log writer.new) buffer.old buffer.new result (refusal_line text.now refusal) }
{
    match refusal {
        Refusal::Memory => buffer.add(b"fault X7\n", writer),
        Refusal::Due { at, .. } => add_lined(buffer, b"fault T2 line ", text, at, writer),
        Refusal::Name { at } => add_worded(buffer, b"fault T3 line ", text, at, writer),
        Refusal::Type { at } => add_worded(buffer, b"fault T4 line ", text, at, writer),
        Refusal::Undrawable { at } => add_worded(buffer, b"fault T5 line ", text, at, writer),
        Refusal::Integer { at } => add_worded(buffer, b"fault T5 line ", text, at, writer),
        Refusal::Member { at } => add_worded(buffer, b"fault T6 line ", text, at, writer),
        Refusal::Input { at } => add_worded(buffer, b"fault T7 line ", text, at, writer),
        Refusal::Call { at } => add_worded(buffer, b"fault T8 line ", text, at, writer),
        Refusal::TooMany { at } | Refusal::TooDeep { at } => {
            add_lined(buffer, b"fault T9 line ", text, at, writer)
        }
    }
}

/// Adds the line on a text that is no program.
fn add_text_line<W: Sink>(
    buffer: &mut TextBuffer,
    text: &[u8],
    fault: StFault,
    writer: &mut W,
) -> Result<(), WriteFault>
    ensures { Sends (W.log writer.old) (W.log writer.new) buffer.old buffer.new result (text_line text.now fault) }
{
    match fault {
        StFault::Character { at } => add_lined(buffer, b"fault T1 line ", text, Some(at), writer),
        StFault::Words(refusal) => add_refusal_line(buffer, text, refusal, writer),
    }
}

/// Adds the line on a text that isn't drawn.
fn add_line<W: Sink>(
    buffer: &mut TextBuffer,
    text: &[u8],
    fault: DrawFault,
    writer: &mut W,
) -> Result<(), WriteFault>
    ensures { Sends (W.log writer.old) (W.log writer.new) buffer.old buffer.new result (fault_line text.now fault) }
{
    match fault {
        DrawFault::Memory => buffer.add(b"fault X7\n", writer),
        DrawFault::Text(fault) => add_text_line(buffer, text, fault, writer),
        DrawFault::AlikeNames { at } => {
            add_worded(buffer, b"fault T3 line ", text, Some(at), writer)
        }
        DrawFault::TooManyRungs(count) => {
            add_numbered(buffer, b"fault T9 rungs ", count, writer)
        }
        DrawFault::TooManyVariables(count) => {
            add_numbered(buffer, b"fault T9 variables ", count, writer)
        }
        DrawFault::TooManyBlocks(count) => {
            add_numbered(buffer, b"fault T9 blocks ", count, writer)
        }
        DrawFault::NotFaithful => buffer.add(b"fault T10\n", writer),
    }
}

/// Adds the sentence on a text that isn't drawn, and the lines near the place.
fn add_reason<W: Sink>(
    buffer: &mut TextBuffer,
    text: &[u8],
    fault: DrawFault,
    writer: &mut W,
) -> Result<(), WriteFault>
    ensures { Sends (W.log writer.old) (W.log writer.new) buffer.old buffer.new result (sentence fault ++ fault_near text.now fault) }
{
    add_sentence(buffer, fault, writer)?;
    add_fault_near(buffer, text, fault, writer)
}

/// Adds why a text isn't drawn, where that is asked for.
fn add_explanation<W: Sink>(
    buffer: &mut TextBuffer,
    why: bool,
    text: &[u8],
    fault: DrawFault,
    writer: &mut W,
) -> Result<(), WriteFault>
    ensures { Sends (W.log writer.old) (W.log writer.new) buffer.old buffer.new result (explanation why text.now fault) }
{
    if why {
        add_reason(buffer, text, fault, writer)
    } else {
        Ok(())
    }
}

/// Adds the line on a text that isn't drawn, and why it isn't where that is asked for.
fn add_fault<W: Sink>(
    buffer: &mut TextBuffer,
    why: bool,
    text: &[u8],
    fault: DrawFault,
    writer: &mut W,
) -> Result<(), WriteFault>
    ensures { Sends (W.log writer.old) (W.log writer.new) buffer.old buffer.new result (fault_text why text.now fault) }
{
    add_line(buffer, text, fault, writer)?;
    add_explanation(buffer, why, text, fault, writer)
}

/// Writes what is said of a text that isn't drawn: a line, and why it isn't where that is asked for.
pub(crate) fn write_fault<W: Sink>(
    why: bool,
    text: &[u8],
    fault: DrawFault,
    writer: &mut W,
) -> Result<(), WriteFault>
    ensures { Puts (W.log writer.old) (W.log writer.new) result (fault_text why text.now fault) }
{
    let mut buffer = TextBuffer::new();
    add_fault(&mut buffer, why, text, fault, writer)?;
    buffer.flush(writer)
}
