//! What stops a request, and the line that says so.

ghost use Rattle.std.specs.Prelude.{◌≡◌};
ghost use Rattle.io_text.specs.Buffer.{Sends};
ghost use Rattle.io_text.specs.Log.{Puts};
ghost use Rattle.cli_inputs.specs.FaultLine.{cause_number, fault_line, fault_words, kind_word, lead, line_by, numbered, var_words};
ghost use Rattle.cli_inputs.specs.Explained.{cause_sentence};
ghost use Rattle.cli_inputs.specs.declared.fault.ToolFault.TheVariants.{NoInput, Read, Sim, State};

use causes_query::CauseFault;
use diagram_declarations::{TitleFault, VarFault, VarRule};
use diagram_reader::GridFault;
use io_text::{Piece, ReadFault, Sink, TextBuffer, WriteFault, add_pieces};
use search_differences::Side;
use text_reasons::{RuleText, grid_rule, rule_text, var_rule};
use text_state::StateFault;
use text_trace::SimFault;
use thiserror::Error;

/// Which of the files a text is from.
#[derive(Clone, Copy, Debug, PartialEq, Eq)]
pub enum TextKind {
    Program,
    State,
    Stimulus,
    Trace,
    Hal,
}

/// What stops a request.
#[derive(Clone, Copy, Debug, PartialEq, Eq, Error)]
pub enum ToolFault {
    /// The program text breaks a rule.
    #[error("{0}")]
    Grid(GridFault),
    /// An alias of the program text is taken.
    #[error("{0}")]
    Title(TitleFault),
    /// There is no list of causes.
    #[error("{0}")]
    Cause(CauseFault),
    /// There is no list over such scans.
    #[error("C8: there are no such scans")]
    NoScans,
    /// A text can't be read.
    #[error("{1}")]
    Read(TextKind, ReadFault),
    /// The state text has a bad record.
    #[error("{0}")]
    State(StateFault),
    /// An argument names no variable; COIL is word 1, the first INPUT word 2.
    #[error("word {number} names no variable")]
    Word { number: usize },
    /// What is watched isn't declared; the names that are watched are counted from 1.
    #[error("name {number} of what is watched is not declared")]
    Watched { number: usize },
    /// What is assumed is no expression over inputs; the expressions are counted from 1.
    #[error("expression {number} of what is assumed is none")]
    Assumed { number: usize },
    /// A word of what is assumed names no input; the expressions are counted from 1, and the bytes of one too.
    #[error("the word at column {column} of expression {number} of what is assumed names no input")]
    NoInput { number: usize, column: usize },
    /// With no combination of the inputs what is assumed is true.
    #[error("C9: what is assumed is never true")]
    NeverTrue,
    /// The second name of a pair that is to be ON names neither a variable nor the output of an instance.
    #[error("the second name names nothing that can be ON")]
    Both,
    /// A simulation ended before the end of its stimulus.
    #[error("{0}")]
    Sim(SimFault),
    #[error("the writer failed")]
    Write,
    #[error("out of memory")]
    Memory,
    #[error("the arguments are no request")]
    Usage,
}

/// Writes the line of a fault. It needs no memory.
///
/// # Errors
///
/// `WriteFault` where the writer fails. What was written is then a prefix of the line.
pub fn write_fault<W: Sink>(fault: &ToolFault, writer: &mut W) -> Result<(), WriteFault>
    ensures { Puts (W.log writer.old) (W.log writer.new) result (fault_line fault.now) }
{
    write_line(None, fault, writer)
}

/// Writes the line of a fault, which tells of which program it is, where there are two.
pub(crate) fn write_line<W: Sink>(
    side: Option<Side>,
    fault: &ToolFault,
    writer: &mut W,
) -> Result<(), WriteFault>
    ensures { Puts (W.log writer.old) (W.log writer.new) result (line_by side fault.now) }
{
    let mut buffer = TextBuffer::new();
    add_line(&mut buffer, side, fault, writer)?;
    buffer.flush(writer)
}

/// Adds the line of a fault.
fn add_line<W: Sink>(
    buffer: &mut TextBuffer,
    side: Option<Side>,
    fault: &ToolFault,
    writer: &mut W,
) -> Result<(), WriteFault>
    ensures { Sends (W.log writer.old) (W.log writer.new) buffer.old buffer.new result (line_by side fault.now) }
{
    buffer.add(lead(side), writer)?;
    add_words(buffer, fault, writer)
}

/// What a fault line begins with.
fn lead(side: Option<Side>) -> &'static [u8]
    ensures { result.now ≡ lead side }
{
    match side {
        None => b"fault ",
        Some(Side::Old) => b"fault old ",
        Some(Side::New) => b"fault new ",
    }
}

/// Adds what follows in the line of a fault: its rule, and where it shows.
fn add_words<W: Sink>(
    buffer: &mut TextBuffer,
    fault: &ToolFault,
    writer: &mut W,
) -> Result<(), WriteFault>
    ensures { Sends (W.log writer.old) (W.log writer.new) buffer.old buffer.new result (fault_words fault.now) }
{
    match *fault {
        ToolFault::Grid(GridFault::Vars(fault)) => add_var_fault(buffer, fault, writer),
        ToolFault::Grid(GridFault::Grid { rule, rung, line }) => {
            let pieces = [
                Piece::Text(b"G"),
                Piece::Number(grid_rule(rule).number),
                Piece::Text(b" rung "),
                Piece::Number(rung as u64),
                Piece::Text(b" line "),
                Piece::Number(line as u64),
                Piece::Text(b"\n"),
            ];
            add_pieces(buffer, pieces.as_slice(), writer)
        }
        ToolFault::Title(fault) => add_numbered(buffer, b"A1 line ", fault.line as u64, writer),
        ToolFault::Cause(fault) => add_numbered(buffer, b"C", cause_rule(fault).number, writer),
        ToolFault::NoScans => buffer.add(b"C8\n", writer),
        ToolFault::Read(kind, fault) => add_read_fault(buffer, kind, fault, writer),
        ToolFault::State(fault) => add_state_fault(buffer, fault, writer),
        ToolFault::Word { number } => add_numbered(buffer, b"X3 word ", number as u64, writer),
        ToolFault::Watched { number } => add_numbered(buffer, b"X3 watch ", number as u64, writer),
        ToolFault::Assumed { number } => add_numbered(buffer, b"X2 assume ", number as u64, writer),
        ToolFault::NoInput { number, column } => add_no_input(buffer, number, column, writer),
        ToolFault::NeverTrue => buffer.add(b"C9\n", writer),
        ToolFault::Both => buffer.add(b"X3 both\n", writer),
        ToolFault::Sim(fault) => add_sim_fault(buffer, fault, writer),
        ToolFault::Write => buffer.add(b"X6\n", writer),
        ToolFault::Memory => buffer.add(b"X7\n", writer),
        ToolFault::Usage => buffer.add(b"usage\n", writer),
    }
}

/// Adds a fault of the declarations: its rule and its line.
fn add_var_fault<W: Sink>(
    buffer: &mut TextBuffer,
    fault: VarFault,
    writer: &mut W,
) -> Result<(), WriteFault>
    ensures { Sends (W.log writer.old) (W.log writer.new) buffer.old buffer.new result (var_words fault.rule fault.line) }
{
    if fault.rule == VarRule::Memory {
        return buffer.add(b"V9\n", writer);
    }
    let pieces = [
        Piece::Text(b"V"),
        Piece::Number(var_rule(fault.rule).number),
        Piece::Text(b" line "),
        Piece::Number(fault.line as u64),
        Piece::Text(b"\n"),
    ];
    add_pieces(buffer, pieces.as_slice(), writer)
}

/// Adds that a word of what is assumed names no input, and where it stands.
fn add_no_input<W: Sink>(
    buffer: &mut TextBuffer,
    number: usize,
    column: usize,
    writer: &mut W,
) -> Result<(), WriteFault>
    ensures { Sends (W.log writer.old) (W.log writer.new) buffer.old buffer.new result (fault_words (NoInput number column)) }
{
    let pieces = [
        Piece::Text(b"X3 assume "),
        Piece::Number(number as u64),
        Piece::Text(b" column "),
        Piece::Number(column as u64),
        Piece::Text(b"\n"),
    ];
    add_pieces(buffer, pieces.as_slice(), writer)
}

/// Adds that a text can't be read: unreadable, too long, or out of memory.
fn add_read_fault<W: Sink>(
    buffer: &mut TextBuffer,
    kind: TextKind,
    fault: ReadFault,
    writer: &mut W,
) -> Result<(), WriteFault>
    ensures { Sends (W.log writer.old) (W.log writer.new) buffer.old buffer.new result (fault_words (Read kind fault)) }
{
    let rule: &[u8] = match fault {
        ReadFault::Read => b"X1 ",
        ReadFault::TooLong => b"X5 ",
        ReadFault::Memory => return buffer.add(b"X7\n", writer),
    };
    let pieces = [
        Piece::Text(rule),
        Piece::Text(kind_word(kind)),
        Piece::Text(b"\n"),
    ];
    add_pieces(buffer, pieces.as_slice(), writer)
}

/// Adds a fault of a state, with its row.
fn add_state_fault<W: Sink>(
    buffer: &mut TextBuffer,
    fault: StateFault,
    writer: &mut W,
) -> Result<(), WriteFault>
    ensures { Sends (W.log writer.old) (W.log writer.new) buffer.old buffer.new result (fault_words (State fault)) }
{
    match fault {
        StateFault::BadRow { row } => add_numbered(buffer, b"X2 state row ", row, writer),
        StateFault::Memory => buffer.add(b"X7\n", writer),
    }
}

/// Adds a fault of a simulation, with the row of the stimulus.
fn add_sim_fault<W: Sink>(
    buffer: &mut TextBuffer,
    fault: SimFault,
    writer: &mut W,
) -> Result<(), WriteFault>
    ensures { Sends (W.log writer.old) (W.log writer.new) buffer.old buffer.new result (fault_words (Sim fault)) }
{
    match fault {
        SimFault::BadRow { row } => add_numbered(buffer, b"X2 stimulus row ", row, writer),
        SimFault::UnknownName { row } => add_numbered(buffer, b"X3 row ", row, writer),
        SimFault::MomentBack { row } => add_numbered(buffer, b"X4 row ", row, writer),
        SimFault::TooLong { row } => add_numbered(buffer, b"X5 row ", row, writer),
        SimFault::Write => buffer.add(b"X6\n", writer),
        SimFault::Memory => buffer.add(b"X7\n", writer),
    }
}

/// Adds a text, a number and the end of the line.
fn add_numbered<W: Sink>(
    buffer: &mut TextBuffer,
    text: &[u8],
    number: u64,
    writer: &mut W,
) -> Result<(), WriteFault>
    ensures { Sends (W.log writer.old) (W.log writer.new) buffer.old buffer.new result (numbered text.now number) }
{
    let pieces = [Piece::Text(text), Piece::Number(number), Piece::Text(b"\n")];
    add_pieces(buffer, pieces.as_slice(), writer)
}

/// What a text is called in a fault line.
fn kind_word(kind: TextKind) -> &'static [u8]
    ensures { result.now ≡ kind_word kind }
{
    match kind {
        TextKind::Program => b"program",
        TextKind::State => b"state",
        TextKind::Stimulus => b"stimulus",
        TextKind::Trace => b"trace",
        TextKind::Hal => b"hal",
    }
}

/// The number of a reason why there is no list of causes, and its sentence.
pub(crate) fn cause_rule(fault: CauseFault) -> RuleText
    ensures number { result.number ≡ cause_number fault }
    ensures sentence { result.sentence.now ≡ cause_sentence fault }
{
    match fault {
        CauseFault::MomentBack => rule_text(
            1,
            b"C1: the moment is before the one that the state stores",
        ),
        CauseFault::NotACoil => rule_text(2, b"C2: no coil writes this variable"),
        CauseFault::TooManyFree => rule_text(3, b"C3: too many inputs are listed"),
        CauseFault::NotAnInput => rule_text(4, b"C4: a listed variable isn't an input"),
        CauseFault::RepeatedInput => rule_text(5, b"C5: an input is listed twice"),
        CauseFault::AfterOutOfRange => rule_text(6, b"C6: the listed inputs have no such number"),
        CauseFault::Memory => rule_text(7, b"C7: out of memory"),
    }
}
