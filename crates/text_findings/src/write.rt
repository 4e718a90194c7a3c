//! The writing of all findings.

ghost use Rattle.std.specs.Prelude.{◌≡◌, ◌∷◌, [], codes, map};
ghost use Rattle.io_text.specs.Buffer.{Sends};
ghost use Rattle.io_text.specs.Log.{Puts};
ghost use Rattle.io_text.specs.Text.{line_text, lines_text};
ghost use Rattle.text_findings.specs.FindingText.{finding_record, findings_text, header};

use crate::rows::add_record;
use diagram_program::Program;
use diff_findings::Finding;
use io_text::{Sink, TextBuffer, WriteFault};

/// Adds the header.
fn add_header<W: Sink>(buffer: &mut TextBuffer, writer: &mut W) -> Result<(), WriteFault>
    ensures { Sends (W.log writer.old) (W.log writer.new) buffer.old buffer.new result (line_text header) }
{
    buffer.add(b"name,result,old,new\n", writer)
}

/// Adds the records of all findings.
fn add_records<W: Sink>(
    buffer: &mut TextBuffer,
    old: &Program,
    new: &Program,
    list: &[Finding],
    writer: &mut W,
) -> Result<(), WriteFault>
    ensures { Sends (W.log writer.old) (W.log writer.new) buffer.old buffer.new result (lines_text (map (finding_record old.now new.now) list.now)) }
{
    for finding in list {
        add_record(buffer, old, new, *finding, writer)?;
    }
    Ok(())
}

/// Adds the header and all records.
fn add_all<W: Sink>(
    buffer: &mut TextBuffer,
    old: &Program,
    new: &Program,
    list: &[Finding],
    writer: &mut W,
) -> Result<(), WriteFault>
    ensures { Sends (W.log writer.old) (W.log writer.new) buffer.old buffer.new result (findings_text old.now new.now list.now) }
{
    add_header(buffer, writer)?;
    add_records(buffer, old, new, list, writer)
}

/// Writes what is found of two programs: a header, and a record for each finding. It needs no memory.
///
/// # Errors
///
/// X6: the writer failed. What was written is a prefix of the text.
pub fn write_findings<W: Sink>(
    old: &Program,
    new: &Program,
    list: &[Finding],
    writer: &mut W,
) -> Result<(), WriteFault>
    ensures { Puts (W.log writer.old) (W.log writer.new) result (findings_text old.now new.now list.now) }
{
    let mut buffer = TextBuffer::new();
    add_all(&mut buffer, old, new, list, writer)?;
    buffer.flush(writer)
}
