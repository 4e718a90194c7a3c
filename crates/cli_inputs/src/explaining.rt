//! What is said of a fault after its line.

ghost use Rattle.std.specs.Prelude.{◌≡◌, ◌≤◌, ◌++◌, codes, IfSome};
ghost use Rattle.diagram_program.specs.declared.geometry.TheConstants.{COLUMNS};
ghost use Rattle.io_text.specs.Log.{Puts};
ghost use Rattle.cli_inputs.specs.Explained.{bad_row_sentence, explained, report_by, report_of, sentence};

use crate::fault::{ToolFault, cause_rule, write_line};
use io_text::{Piece, ReadFault, Sink, WriteFault, put_pieces};
use search_differences::Side;
use text_reasons::write_reason;
use text_state::StateFault;
use text_trace::SimFault;

/// The sentence that explains a bad record of a stimulus, of which the header is record 1.
fn bad_row_sentence(row: u64) -> &'static [u8]
    ensures { result.now ≡ bad_row_sentence row }
{
    if row == 1 {
        b"X2: the header isn't the word moment and then names of inputs, none of them twice"
    } else {
        b"X2: the record isn't a moment in ms with a 0 or 1 for each name of the header, which is record 1"
    }
}

/// The sentence that explains a fault; on a program text `write_reason` says more.
fn sentence(fault: ToolFault) -> &'static [u8]
    ensures { result.now ≡ sentence fault }
{
    match fault {
        ToolFault::Title(_) => { b"A1: this alias is the name or the alias of another declaration" }
        ToolFault::Cause(fault) => cause_rule(fault).sentence,
        ToolFault::NoScans => {
            b"C8: there are no such scans: none, too many, or one past the last moment"
        }
        ToolFault::Read(_, ReadFault::Read) => b"X1: the file can't be read",
        ToolFault::Read(_, ReadFault::TooLong) => b"X5: the file is too long",
        ToolFault::State(StateFault::BadRow { .. }) => {
            b"X2: the record is none of a state of this program; records are counted from 1"
        }
        ToolFault::Word { .. } => {
            b"X3: the word names no variable; COIL is word 1, and the first INPUT the next one"
        }
        ToolFault::Watched { .. } => {
            b"X3: the name is that of no variable and no instance; names that are watched are counted from 1"
        }
        ToolFault::Assumed { .. } => {
            b"X2: it is no expression of names of inputs, NOT, AND, OR, XOR, =, <> and parentheses; the expressions of --assumed, then those of --assume, are counted from 1"
        }
        ToolFault::NoInput { .. } => {
            b"X3: the word names no input of this program; the expressions of --assumed, then those of --assume, are counted from 1, and so are the columns of each"
        }
        ToolFault::NeverTrue => b"C9: no combination makes all that is assumed true",
        ToolFault::Both => { b"X3: the name of --both is that of no variable and of no block" }
        ToolFault::Sim(SimFault::BadRow { row }) => bad_row_sentence(row),
        ToolFault::Sim(SimFault::UnknownName { .. }) =>
            b"X3: a name of the header isn't an input of this program",
        ToolFault::Sim(SimFault::MomentBack { .. }) => {
            b"X4: the moment is before that of the record above it, or of the state; the header is record 1"
        }
        ToolFault::Sim(SimFault::TooLong { .. }) => {
            b"X5: too many records or scans up to this record, of which the header is record 1; parts after one another by --save and --state, or a longer --every, will do"
        }
        ToolFault::Write | ToolFault::Sim(SimFault::Write) => b"X6: a write failed",
        ToolFault::Memory
        | ToolFault::Read(_, ReadFault::Memory)
        | ToolFault::State(StateFault::Memory)
        | ToolFault::Sim(SimFault::Memory) => b"X7: out of memory",
        ToolFault::Grid(_) | ToolFault::Usage => b"usage: the words are not those of a request",
    }
}

/// Writes what follows the line of a fault: the place and the rule for a program text, and a sentence for any other fault.
fn explain<W: Sink>(
    text: &[u8],
    fault: &ToolFault,
    column: Option<usize>,
    writer: &mut W,
) -> Result<(), WriteFault>
    requires { IfSome column (λ c. c ≤ COLUMNS) }
    ensures { Puts (W.log writer.old) (W.log writer.new) result (explained text.now fault.now column) }
{
    match *fault {
        ToolFault::Grid(fault) => write_reason(text, &fault, column, writer),
        other => {
            let pieces = [Piece::Text(sentence(other)), Piece::Text(b"\n")];
            put_pieces(writer, pieces.as_slice())
        }
    }
}

/// Writes the line of a fault, and after it, where that is asked for, its explanation by the program text, with marks under the column where one
/// is given. It needs no memory.
///
/// # Errors
///
/// `WriteFault` where the writer fails. What was written is then a prefix of both.
pub fn write_report<W: Sink>(
    why: bool,
    text: &[u8],
    fault: &ToolFault,
    column: Option<usize>,
    writer: &mut W,
) -> Result<(), WriteFault>
    requires { IfSome column (λ c. c ≤ COLUMNS) }
    ensures { Puts (W.log writer.old) (W.log writer.new) result (report_of why text.now fault.now column) }
{
    write_report_by(None, why, text, fault, column, writer)
}

/// The same, with the program that the fault is of, where there are two.
pub(crate) fn write_report_by<W: Sink>(
    side: Option<Side>,
    why: bool,
    text: &[u8],
    fault: &ToolFault,
    column: Option<usize>,
    writer: &mut W,
) -> Result<(), WriteFault>
    requires { IfSome column (λ c. c ≤ COLUMNS) }
    ensures { Puts (W.log writer.old) (W.log writer.new) result (report_by side why text.now fault.now column) }
{
    write_line(side, fault, writer)?;
    if why {
        return explain(text, fault, column, writer);
    }
    Ok(())
}
