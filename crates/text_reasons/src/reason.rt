//! Why a text is no program.

ghost use Rattle.std.specs.Prelude.{◌≡◌, ◌≤◌, ◌++◌, codes, option_map, IfSome};
ghost use Rattle.diagram_program.specs.declared.geometry.TheConstants.{COLUMNS};
ghost use Rattle.io_text.specs.Buffer.{Sends};
ghost use Rattle.io_text.specs.Log.{Puts};
ghost use Rattle.text_reasons.specs.Reasons.{MayStand, byte_marks, marks_in, marks_text, near, reason_text, ruler, shown_text, var_marks};

use crate::advice::{add_advice, start_of};
use crate::bytes::{bad_in, place_in};
use crate::quote::{Marks, WIDEST, add_near};
use crate::rule::{grid_rule, var_rule};
use diagram_declarations::{VarFault, VarRule};
use diagram_program::geometry::{CELL, PITCH};
use diagram_reader::{GridFault, GridRule};
use io_text::{Sink, TextBuffer, WriteFault};

/// The columns of a drawing.
const RULER: &[u8] =
    b"        | |     1     |     2     |     3     |     4     |     5     |     6     |     7     |     8     |     9     |    10     |\n";

/// Adds a sentence as a line of its own.
fn add_sentence<W: Sink>(
    buffer: &mut TextBuffer,
    sentence: &[u8],
    writer: &mut W,
) -> Result<(), WriteFault>
    ensures { Sends (W.log writer.old) (W.log writer.new) buffer.old buffer.new result (sentence.now ++ codes "\n") }
{
    buffer.add(sentence, writer)?;
    buffer.add(b"\n", writer)
}

/// The marks under what breaks a rule of the drawing, if its column is known.
fn marks(rule: GridRule, column: Option<usize>) -> Option<Marks>
    requires { IfSome column (λ c. c ≤ COLUMNS) }
    ensures value { result ≡ option_map (marks_in rule) column }
    ensures stand { IfSome result MayStand }
{
    let Some(column) = column else {
        return None;
    };
    match rule {
        GridRule::BadJoint | GridRule::BrokenVertical => Some(Marks {
            indent: PITCH * column,
            count: 1,
        }),
        GridRule::TooWide
        | GridRule::TooTall
        | GridRule::BadCell
        | GridRule::Unfed
        | GridRule::NameMissing
        | GridRule::NameWithoutSymbol
        | GridRule::Undeclared
        | GridRule::WrongKind
        | GridRule::BlockShape
        | GridRule::DrawnTwice
        | GridRule::LabelFault
        | GridRule::TwoJumps
        | GridRule::TooManyRungs => Some(Marks {
            indent: PITCH * column + 1,
            count: CELL,
        }),
    }
}

/// The mark under the byte that may stand in comments only, if it is within the width of a drawing.
fn byte_marks(start: &[u8], at: Option<&[u8]>) -> Option<Marks>
    ensures value { result ≡ byte_marks start.now (option_map (λ l. l.now) at.entry) }
    ensures stand { IfSome result MayStand }
{
    let Some(at) = at else {
        return None;
    };
    let indent = place_in(start, at);
    if indent <= WIDEST {
        Some(Marks { indent, count: 1 })
    } else {
        None
    }
}

/// The marks under what breaks a rule of the declarations, if it is known.
fn var_marks(text: &[u8], fault: VarFault) -> Option<Marks>
    ensures value { result ≡ var_marks fault.rule text.now fault.line }
    ensures stand { IfSome result MayStand }
{
    match fault.rule {
        VarRule::BadByte => {
            let (within, start) = start_of(text, fault.line);
            byte_marks(start, bad_in(within, start))
        }
        VarRule::BadToken
        | VarRule::BadName
        | VarRule::Duplicate
        | VarRule::DuplicateAddress
        | VarRule::BadPreset
        | VarRule::TooMany
        | VarRule::Unfinished
        | VarRule::Memory => None,
    }
}

/// Adds the columns of a drawing, and under them the line where a fault shows, with marks, between its neighbours.
fn add_place<W: Sink>(
    buffer: &mut TextBuffer,
    text: &[u8],
    line: usize,
    marks: Option<Marks>,
    writer: &mut W,
) -> Result<(), WriteFault>
    requires { IfSome marks MayStand }
    ensures { Sends (W.log writer.old) (W.log writer.new) buffer.old buffer.new result (ruler ++ near text.now line (marks_text marks)) }
{
    buffer.add(RULER, writer)?;
    add_near(buffer, text, line, marks, writer)
}

/// Adds the sentence of the rule, and the lines near the place.
fn add_shown<W: Sink>(
    buffer: &mut TextBuffer,
    text: &[u8],
    fault: &GridFault,
    column: Option<usize>,
    writer: &mut W,
) -> Result<(), WriteFault>
    requires { IfSome column (λ c. c ≤ COLUMNS) }
    ensures { Sends (W.log writer.old) (W.log writer.new) buffer.old buffer.new result (shown_text text.now fault.now column) }
{
    match *fault {
        GridFault::Vars(fault) => {
            add_sentence(buffer, var_rule(fault.rule).sentence, writer)?;
            add_near(buffer, text, fault.line, var_marks(text, fault), writer)
        }
        GridFault::Grid { rule, line, .. } => {
            add_sentence(buffer, grid_rule(rule).sentence, writer)?;
            add_place(buffer, text, line, marks(rule, column), writer)
        }
    }
}

/// Adds why a text is no program: what is shown, and what is to be changed.
fn add_reason<W: Sink>(
    buffer: &mut TextBuffer,
    text: &[u8],
    fault: &GridFault,
    column: Option<usize>,
    writer: &mut W,
) -> Result<(), WriteFault>
    requires { IfSome column (λ c. c ≤ COLUMNS) }
    ensures { Sends (W.log writer.old) (W.log writer.new) buffer.old buffer.new result (reason_text text.now fault.now column) }
{
    add_shown(buffer, text, fault, column, writer)?;
    add_advice(buffer, text, fault, column, writer)
}

/// Writes why a text is no program: the sentence of the rule that it breaks, for a rule of the drawing the numbers of the columns, the
/// line where the fault shows between its neighbours, with marks under the column where it is known, and what is to be changed, where the
/// text shows it. It needs no memory.
///
/// # Errors
///
/// `WriteFault` where the writer fails. What was written is then a prefix of the text.
pub fn write_reason<W: Sink>(
    text: &[u8],
    fault: &GridFault,
    column: Option<usize>,
    writer: &mut W,
) -> Result<(), WriteFault>
    requires { IfSome column (λ c. c ≤ COLUMNS) }
    ensures { Puts (W.log writer.old) (W.log writer.new) result (reason_text text.now fault.now column) }
{
    let mut buffer = TextBuffer::new();
    add_reason(&mut buffer, text, fault, column, writer)?;
    buffer.flush(writer)
}
