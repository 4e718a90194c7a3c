//! What is said of a project that has no program text.

ghost use Rattle.std.specs.Prelude.{◌≡◌};
ghost use Rattle.io_text.specs.Buffer.{Sends};
ghost use Rattle.io_text.specs.Log.{Puts};
ghost use Rattle.cli_import.specs.Lines.{explained, import_explanation, import_line, import_text, numbered_text, project_explanation, project_text, refusal_text, refusals_text, table_word};

use crate::reason::{reason_line, reason_word};
use clp_import::{ImportFault, Refusal};
use clp_project::{ClpFault, Table};
use io_text::{Piece, Sink, TextBuffer, WriteFault, add_pieces, put_pieces};

/// A line that explains a fault, if that is asked for, and otherwise nothing.
fn explained(why: bool, line: &'static [u8]) -> &'static [u8]
    ensures { result.now ≡ explained why line.now }
{
    if why { line } else { b"" }
}

/// Adds the lines on one element that can't be carried over.
fn add_refusal<W: Sink>(
    buffer: &mut TextBuffer,
    why: bool,
    refusal: &Refusal,
    writer: &mut W,
) -> Result<(), WriteFault>
    ensures { Sends (W.log writer.old) (W.log writer.new) buffer.old buffer.new result (refusal_text why refusal.now) }
{
    let pieces = [
        Piece::Text(b"fault P6 rung "),
        Piece::Number(u64::from(refusal.rung)),
        Piece::Text(b" row "),
        Piece::Number(refusal.row as u64),
        Piece::Text(b" column "),
        Piece::Number(refusal.column as u64),
        Piece::Text(b" "),
        Piece::Text(reason_word(refusal.reason)),
        Piece::Text(b"\n"),
        Piece::Text(explained(why, reason_line(refusal.reason))),
    ];
    add_pieces(buffer, pieces.as_slice(), writer)
}

/// Adds the lines on all elements that can't be carried over.
fn add_refusals<W: Sink>(
    buffer: &mut TextBuffer,
    why: bool,
    refusals: &[Refusal],
    writer: &mut W,
) -> Result<(), WriteFault>
    ensures { Sends (W.log writer.old) (W.log writer.new) buffer.old buffer.new result (refusals_text why refusals.now) }
{
    for refusal in refusals {
        add_refusal(buffer, why, refusal, writer)?;
    }
    Ok(())
}

/// Writes the lines on all elements that can't be carried over.
pub(crate) fn write_refusals<W: Sink>(
    why: bool,
    refusals: &[Refusal],
    writer: &mut W,
) -> Result<(), WriteFault>
    ensures { Puts (W.log writer.old) (W.log writer.new) result (refusals_text why refusals.now) }
{
    let mut buffer = TextBuffer::new();
    add_refusals(&mut buffer, why, refusals, writer)?;
    buffer.flush(writer)
}

/// What a table of the project is called in a fault line.
fn table_word(table: Table) -> &'static [u8]
    ensures { result.now ≡ table_word table }
{
    match table {
        Table::Timers => b"timers",
        Table::Monostables => b"monostables",
        Table::IecTimers => b"timers_iec",
        Table::Sections => b"sections",
    }
}

/// The sentence on a project that can't be read, by the number of its fault.
fn project_explanation(fault: ClpFault) -> &'static [u8]
    ensures { result.now ≡ project_explanation fault }
{
    match fault {
        ClpFault::NoProject => {
            b"P1: the file is no ClassicLadder project: it doesn't begin with _FILES_CLASSICLADDER\n"
        }
        ClpFault::BadRung { .. } => {
            b"P2: the part of this rung isn't 6 rows of 10 elements with the number of the next rung\n"
        }
        ClpFault::BadTable { .. } => {
            b"P3: a line of this table isn't the numbers that it should be\n"
        }
        ClpFault::NotLadder { .. } => b"P4: the section is no ladder diagram\n",
        ClpFault::BrokenWay { .. } => {
            b"P5: from the first rung of the section the next ones don't lead to its last\n"
        }
        ClpFault::Memory => b"X7: out of memory\n",
    }
}

/// Writes the line of a fault that ends with a number, and what explains it.
fn put_numbered<'a, W: Sink>(
    line: &'a [u8],
    number: u64,
    explained: &'a [u8],
    writer: &mut W,
) -> Result<(), WriteFault>
    ensures { Puts (W.log writer.old) (W.log writer.new) result (numbered_text line.now number explained.now) }
{
    let pieces = [
        Piece::Text(line),
        Piece::Number(number),
        Piece::Text(b"\n"),
        Piece::Text(explained),
    ];
    put_pieces(writer, pieces.as_slice())
}

/// Writes the lines on a text that is no project.
pub(crate) fn write_project_fault<W: Sink>(
    why: bool,
    fault: ClpFault,
    writer: &mut W,
) -> Result<(), WriteFault>
    ensures { Puts (W.log writer.old) (W.log writer.new) result (project_text why fault) }
{
    let said = explained(why, project_explanation(fault));
    match fault {
        ClpFault::NoProject => put_pieces(
            writer,
            [Piece::Text(b"fault P1\n"), Piece::Text(said)].as_slice(),
        ),
        ClpFault::BadRung { rung } => put_numbered(
            b"fault P2 rung ",
            u64::from(rung),
            said,
            writer,
        ),
        ClpFault::BadTable { table } => {
            let pieces = [
                Piece::Text(b"fault P3 "),
                Piece::Text(table_word(table)),
                Piece::Text(b"\n"),
                Piece::Text(said),
            ];
            put_pieces(writer, pieces.as_slice())
        }
        ClpFault::NotLadder { section } => {
            put_numbered(b"fault P4 section ", u64::from(section), said, writer)
        }
        ClpFault::BrokenWay { section } => {
            put_numbered(b"fault P5 section ", u64::from(section), said, writer)
        }
        ClpFault::Memory => put_pieces(
            writer,
            [Piece::Text(b"fault X7\n"), Piece::Text(said)].as_slice(),
        ),
    }
}

/// The line of a fault, and the one that explains it.
#[derive(Clone, Copy)]
struct Said {
    line: &'static [u8],
    explanation: &'static [u8],
}

impl Said {
    /// The line, and its explanation.
    fn new(line: &'static [u8], explanation: &'static [u8]) -> Said
        ensures line { result.line.now ≡ line.now }
        ensures explanation { result.explanation.now ≡ explanation.now }
    {
        Said { line, explanation }
    }
}

/// The line and the sentence on a project that has no program text.
fn import_said(fault: ImportFault) -> Said
    ensures line { result.line.now ≡ import_line fault }
    ensures explanation { result.explanation.now ≡ import_explanation fault }
{
    match fault {
        ImportFault::TooManyRungs => Said::new(
            b"fault P7 rungs\n",
            b"P7: a program has at most 100 rungs\n",
        ),
        ImportFault::TooManyVars => Said::new(
            b"fault P7 variables\n",
            b"P7: a program has at most 256 variables\n",
        ),
        ImportFault::TooManyBlocks => Said::new(
            b"fault P7 blocks\n",
            b"P7: a program has at most 64 instances of blocks\n",
        ),
        ImportFault::Memory => Said::new(b"fault X7\n", b"X7: out of memory\n"),
        ImportFault::Refused | ImportFault::NotFaithful => Said::new(
            b"fault P8\n",
            b"P8: the text that was made of the project doesn't have what the project has\n",
        ),
    }
}

/// Writes the lines on a project that has no program text though all its elements can be carried over.
pub(crate) fn write_import_fault<W: Sink>(
    why: bool,
    fault: ImportFault,
    writer: &mut W,
) -> Result<(), WriteFault>
    ensures { Puts (W.log writer.old) (W.log writer.new) result (import_text why fault) }
{
    let said = import_said(fault);
    let pieces = [
        Piece::Text(said.line),
        Piece::Text(explained(why, said.explanation)),
    ];
    put_pieces(writer, pieces.as_slice())
}
