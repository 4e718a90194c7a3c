//! What is said last of a fault of a program text: what is to be changed.

ghost use Rattle.std.specs.Prelude.{◌≡◌, ◌≤◌, IfSome, Some, length};
ghost use Rattle.diagram_program.specs.declared.geometry.TheConstants.{COLUMNS};
ghost use Rattle.io_text.specs.Buffer.{Sends};
ghost use Rattle.diagram_declarations.specs.declared.fault.VarRule.TheVariants as var;
ghost use Rattle.text_reasons.specs.Advice.{advice, begins_in_code, grid_advice, start_of, var_advice};

use crate::blocks::{add_block, cell_in};
use crate::bytes::{add_bad, bad_in};
use crate::forms::add_nearest;
use crate::joints::{add_joint, add_link, line_in};
use crate::names::add_name;
use crate::outside::{Within, behind_lines, is_code};
use diagram_declarations::{VarFault, VarRule};
use diagram_program::geometry::PITCH;
use diagram_reader::{GridFault, GridRule};
use io_text::{Sink, TextBuffer, WriteFault};

/// The text from the start of a line on, and what its first byte belongs to.
pub(crate) fn start_of(text: &[u8], line: usize) -> (Within, &[u8])
    ensures { (result.0, result.1.now) ≡ start_of text.now line }
{
    behind_lines(text, line.saturating_sub(1))
}

/// Whether a line begins in no comment.
fn begins_in_code(text: &[u8], line: usize) -> bool
    ensures { result ≡ begins_in_code text.now line }
{
    is_code(start_of(text, line).0)
}

/// Adds which byte of a line may not stand there.
fn add_byte<W: Sink>(
    buffer: &mut TextBuffer,
    text: &[u8],
    line: usize,
    writer: &mut W,
) -> Result<(), WriteFault>
    ensures { Sends (W.log writer.old) (W.log writer.new) buffer.old buffer.new result (var_advice var.BadByte text.now line) }
{
    let (within, start) = start_of(text, line);
    add_bad(buffer, start, bad_in(within, start), writer)
}

/// Adds why the first word of a line is no name.
fn add_word<W: Sink>(
    buffer: &mut TextBuffer,
    text: &[u8],
    line: usize,
    writer: &mut W,
) -> Result<(), WriteFault>
    ensures { Sends (W.log writer.old) (W.log writer.new) buffer.old buffer.new result (var_advice var.BadName text.now line) }
{
    if begins_in_code(text, line) {
        return add_name(buffer, line_in(text, line), writer);
    }
    Ok(())
}

/// Adds what is to be changed, of a rule of the declarations.
fn add_var<W: Sink>(
    buffer: &mut TextBuffer,
    text: &[u8],
    fault: VarFault,
    writer: &mut W,
) -> Result<(), WriteFault>
    ensures { Sends (W.log writer.old) (W.log writer.new) buffer.old buffer.new result (var_advice fault.rule text.now fault.line) }
{
    match fault.rule {
        VarRule::BadByte => add_byte(buffer, text, fault.line, writer),
        VarRule::BadName => add_word(buffer, text, fault.line, writer),
        VarRule::BadToken
        | VarRule::Duplicate
        | VarRule::DuplicateAddress
        | VarRule::BadPreset
        | VarRule::TooMany
        | VarRule::Unfinished
        | VarRule::Memory => Ok(()),
    }
}

/// Adds what is to be changed, of a rule of the drawing.
fn add_grid<W: Sink>(
    buffer: &mut TextBuffer,
    rule: GridRule,
    text: &[u8],
    line: usize,
    column: usize,
    writer: &mut W,
) -> Result<(), WriteFault>
    requires columns { column ≤ COLUMNS }
    requires lines { line ≤ length text.now }
    ensures { Sends (W.log writer.old) (W.log writer.new) buffer.old buffer.new result (grid_advice rule text.now line column) }
{
    let here = line_in(text, line);
    match rule {
        GridRule::BadCell => add_nearest(buffer, cell_in(here, column), writer),
        GridRule::BadJoint => add_joint(buffer, here, PITCH * column, writer),
        GridRule::BrokenVertical => add_link(buffer, text, line, PITCH * column, writer),
        GridRule::BlockShape => add_block(buffer, cell_in(here, column), line, column, writer),
        GridRule::TooWide
        | GridRule::TooTall
        | GridRule::Unfed
        | GridRule::NameMissing
        | GridRule::NameWithoutSymbol
        | GridRule::Undeclared
        | GridRule::WrongKind
        | GridRule::DrawnTwice
        | GridRule::LabelFault
        | GridRule::TwoJumps
        | GridRule::TooManyRungs => Ok(()),
    }
}

/// Adds what is to be changed, where the text shows it.
pub(crate) fn add_advice<W: Sink>(
    buffer: &mut TextBuffer,
    text: &[u8],
    fault: &GridFault,
    column: Option<usize>,
    writer: &mut W,
) -> Result<(), WriteFault>
    requires { IfSome column (λ c. c ≤ COLUMNS) }
    ensures { Sends (W.log writer.old) (W.log writer.new) buffer.old buffer.new result (advice text.now fault.now column) }
{
    match *fault {
        GridFault::Vars(fault) => add_var(buffer, text, fault, writer),
        GridFault::Grid { rule, line, .. } => match column {
            Some(column) => {
                // A text has at most one line more than it has bytes.
                if text.len() < line {
                    return Ok(());
                }
                add_grid(buffer, rule, text, line, column, writer)
            }
            None => Ok(()),
        },
    }
}
