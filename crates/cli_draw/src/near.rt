//! The lines of a text near a fault, with marks under its place.

ghost use Rattle.io_text.specs.Buffer.{Sends};
ghost use Rattle.cli_draw.specs.Lines.{fault_near, refusal_near, text_near};
ghost use Rattle.cli_draw.specs.Places.{lines_near};

use crate::place::{line_number, marks_at};
use draw_program::DrawFault;
use io_text::{Sink, TextBuffer, WriteFault};
use st_program::{Refusal, StFault};
use text_reasons::add_near;

/// Adds the lines near a place.
fn add_lines_near<W: Sink>(
    buffer: &mut TextBuffer,
    text: &[u8],
    at: Option<usize>,
    writer: &mut W,
) -> Result<(), WriteFault>
    ensures { Sends (W.log writer.old) (W.log writer.new) buffer.old buffer.new result (lines_near text.now at) }
{
    add_near(
        buffer,
        text,
        line_number(text, at),
        marks_at(text, at),
        writer,
    )
}

/// Adds the lines near the place where words are no program.
fn add_refusal_near<W: Sink>(
    buffer: &mut TextBuffer,
    text: &[u8],
    refusal: Refusal,
    writer: &mut W,
) -> Result<(), WriteFault>
    ensures { Sends (W.log writer.old) (W.log writer.new) buffer.old buffer.new result (refusal_near text.now refusal) }
{
    match refusal {
        Refusal::Memory => Ok(()),
        Refusal::Due { at, .. }
        | Refusal::Name { at }
        | Refusal::Type { at }
        | Refusal::Undrawable { at }
        | Refusal::Integer { at }
        | Refusal::Member { at }
        | Refusal::Input { at }
        | Refusal::Call { at }
        | Refusal::TooMany { at }
        | Refusal::TooDeep { at } => add_lines_near(buffer, text, at, writer),
    }
}

/// Adds the lines near the place where a text is no program.
fn add_text_near<W: Sink>(
    buffer: &mut TextBuffer,
    text: &[u8],
    fault: StFault,
    writer: &mut W,
) -> Result<(), WriteFault>
    ensures { Sends (W.log writer.old) (W.log writer.new) buffer.old buffer.new result (text_near text.now fault) }
{
    match fault {
        StFault::Character { at } => add_lines_near(buffer, text, Some(at), writer),
        StFault::Words(refusal) => add_refusal_near(buffer, text, refusal, writer),
    }
}

/// Adds the lines near the place of a fault, if it has one.
pub(crate) fn add_fault_near<W: Sink>(
    buffer: &mut TextBuffer,
    text: &[u8],
    fault: DrawFault,
    writer: &mut W,
) -> Result<(), WriteFault>
    ensures { Sends (W.log writer.old) (W.log writer.new) buffer.old buffer.new result (fault_near text.now fault) }
{
    match fault {
        DrawFault::Text(fault) => add_text_near(buffer, text, fault, writer),
        DrawFault::AlikeNames { at } => add_lines_near(buffer, text, Some(at), writer),
        DrawFault::Memory
        | DrawFault::TooManyRungs(_)
        | DrawFault::TooManyVariables(_)
        | DrawFault::TooManyBlocks(_)
        | DrawFault::NotFaithful => Ok(()),
    }
}
