//! The writing of a run in brief: with rows only where the inputs change.

ghost use Rattle.std.specs.Prelude.{◌≡◌, ◌<◌, length, map};
ghost use Rattle.io_text.specs.Buffer.{Sends};
ghost use Rattle.io_text.specs.Log.{Puts};
ghost use Rattle.io_text.specs.Text.{lines_text};
ghost use Rattle.text_runs.specs.Rows.{has_row};
ghost use Rattle.text_runs.specs.RunText.{brief_scans, brief_text, gives_same, scan_row};

use crate::stimulus::{add_header, add_scan};
use diagram_program::Program;
use io_text::{Sink, TextBuffer, WriteFault};
use reach_runs::RunScan;

/// Whether a scan gives the inputs what the one before it gives them.
fn gives_same(before: &RunScan, scan: &RunScan) -> bool
    ensures { result ≡ gives_same before.now scan.now }
{
    before.inputs == scan.inputs
}

/// Whether a scan has a row in brief: the first, each that gives other inputs than the one before it, and the last.
fn has_row(run: &[RunScan], number: usize) -> bool
    requires { number < length run.now }
    ensures { result ≡ has_row run.now number }
{
    number == 0 || number + 1 == run.len() || !gives_same(&run[number - 1], &run[number])
}

/// Adds the rows of the scans that have one in brief.
fn add_brief_scans<W: Sink>(
    buffer: &mut TextBuffer,
    run: &[RunScan],
    writer: &mut W,
) -> Result<(), WriteFault>
    ensures { Sends (W.log writer.old) (W.log writer.new) buffer.old buffer.new result (lines_text (map scan_row (brief_scans run.now))) }
{
    for number in 0..run.len() {
        if !has_row(run, number) {
            continue;
        }
        add_scan(buffer, &run[number], writer)?;
    }
    Ok(())
}

/// Adds the header and the rows of a run in brief.
fn add_brief<W: Sink>(
    buffer: &mut TextBuffer,
    program: &Program,
    run: &[RunScan],
    writer: &mut W,
) -> Result<(), WriteFault>
    ensures { Sends (W.log writer.old) (W.log writer.new) buffer.old buffer.new result (brief_text program.now run.now) }
{
    add_header(buffer, program, writer)?;
    add_brief_scans(buffer, run, writer)
}

/// Writes a run as a stimulus in brief: as `write_run` does, but with rows only for the first scan, for each that gives other inputs than
/// the one before it, and for the last. A simulation with a scan every so many ms, as those of the run are, makes all of its scans. It
/// needs no memory.
///
/// # Errors
///
/// X6: the writer failed. What was written is a prefix of the text.
pub fn write_brief_run<W: Sink>(
    program: &Program,
    run: &[RunScan],
    writer: &mut W,
) -> Result<(), WriteFault>
    ensures wrote { Puts (W.log writer.old) (W.log writer.new) result (brief_text program.now run.now) }
{
    let mut buffer = TextBuffer::new();
    add_brief(&mut buffer, program, run, writer)?;
    buffer.flush(writer)?;
    Ok(())
}
