//! The text of one group.

ghost use Rattle.std.specs.Prelude.{◌≡◌, ◌++◌, ◌*◌, ◌+◌, ◌<◌, ◌≤◌, IfOk, codes, length, map, take};
ghost use Rattle.io_text.specs.Buffer.{Sends};
ghost use Rattle.io_text.specs.Text.{after_commas, line_text};
ghost use Rattle.search_groups.specs.Groups.{cells, size};
ghost use Rattle.text_causes.specs.Forms.{joint};
ghost use Rattle.text_causes.specs.GroupText.{cell_text};
ghost use Rattle.text_causes.specs.TermText.{bracketed, literals, term};
ghost use Rattle.text_differences.specs.Forms.{names_in, row_text};
ghost use Rattle.text_differences.specs.GroupText.{difference_group_record, sign};

use crate::difference_text::columns;
use diagram_program::Program;
use io_text::{Piece, Sink, TextBuffer, WriteFault, add_pieces};
use search_differences::Side;
use search_groups::Group;
use text_causes::{Brackets, GroupForm, add_term, fill_cells, joint, size_of};

/// How many bytes the cells of a row and its line feed have at most.
const END: usize = 65;

/// How the groups of one side are written: in which form, and with the names of which inputs of which program.
#[derive(Clone, Copy)]
pub(crate) struct GroupView<'a> {
    pub form: GroupForm,
    pub side: Side,
    pub program: &'a Program,
    pub listed: &'a [usize],
}

/// A group of a side, which is the first one or isn't.
#[derive(Clone, Copy)]
pub(crate) struct SideGroup {
    pub group: Group,
    pub is_first: bool,
}

/// Writes the end of a group's record over the first bytes of a text: its cells, each after a comma, and a line feed.
fn fill_end(text: &mut [u8], listed: usize, group: Group)
    requires few { listed ≤ 32 }
    requires room { 2 * listed < length text.old }
    ensures { take (2 * listed + 1) text.new ≡ after_commas (map cell_text (cells listed group)) ++ codes "\n" }
{
    fill_cells(text, listed, group);
    text[2 * listed] = b'\n';
}

/// Adds the record of a group that has so many numbers.
fn add_record<W: Sink>(
    buffer: &mut TextBuffer,
    side: Side,
    group: Group,
    numbers: u64,
    listed: usize,
    writer: &mut W,
) -> Result<(), WriteFault>
    requires few { listed ≤ 32 }
    requires numbers { numbers ≡ size (cells listed group) }
    ensures { Sends (W.log writer.old) (W.log writer.new) buffer.old buffer.new result (line_text (difference_group_record side (cells listed group))) }
{
    let mut end = [0; END];
    fill_end(&mut end, listed, group);
    let pieces = [
        Piece::Number(numbers),
        Piece::Text(columns(side)),
        Piece::Text(&end[..2 * listed + 1]),
    ];
    add_pieces(buffer, pieces.as_slice(), writer)
}

/// What stands before the term of a group.
fn sign(side: Side) -> &'static [u8]
    ensures { result.now ≡ sign side }
{
    match side {
        Side::Old => b"- ",
        Side::New => b"+ ",
    }
}

/// Adds a group as a line: the sign of its side, and its term.
fn add_signed_term<W: Sink>(
    buffer: &mut TextBuffer,
    view: GroupView<'_>,
    group: Group,
    writer: &mut W,
) -> Result<(), WriteFault>
    requires few { length view.listed.now ≤ 32 }
    ensures { Sends (W.log writer.old) (W.log writer.new) buffer.old buffer.new result
        (sign view.entry.side ++ (term (literals (names_in view.entry) (cells (length view.entry.listed.now) group)) ++ codes "\n")) }
{
    let decls = view.program.decls();
    buffer.add(sign(view.side), writer)?;
    add_term(buffer, Brackets::Without, decls, view.listed, group, writer)?;
    buffer.add(b"\n", writer)
}

/// Adds a group to a statement, as one of the terms that OR joins.
fn add_alternative<W: Sink>(
    buffer: &mut TextBuffer,
    view: GroupView<'_>,
    next: SideGroup,
    writer: &mut W,
) -> Result<(), WriteFault>
    requires few { length view.listed.now ≤ 32 }
    ensures { Sends (W.log writer.old) (W.log writer.new) buffer.old buffer.new result
        (joint next.is_first ++ bracketed (literals (names_in view.entry) (cells (length view.entry.listed.now) next.group))) }
{
    let decls = view.program.decls();
    buffer.add(joint(next.is_first), writer)?;
    add_term(
        buffer,
        Brackets::Round,
        decls,
        view.listed,
        next.group,
        writer,
    )
}

/// Adds a group of a side, and returns how many differences it stands for.
pub(crate) fn add_group<W: Sink>(
    buffer: &mut TextBuffer,
    view: GroupView<'_>,
    listed: usize,
    next: SideGroup,
    writer: &mut W,
) -> Result<u64, WriteFault>
    requires few { listed ≤ 32 }
    requires named { listed ≡ length view.listed.now }
    ensures sends { Sends (W.log writer.old) (W.log writer.new) buffer.old buffer.new result
        (row_text view.entry.form view.entry.side (names_in view.entry) next.is_first (cells listed next.group)) }
    ensures size { IfOk result (λ n. n ≡ size (cells listed next.group)) }
{
    let size = size_of(next.group, listed);
    match view.form {
        GroupForm::Table => add_record(buffer, view.side, next.group, size, listed, writer)?,
        GroupForm::Terms => add_signed_term(buffer, view, next.group, writer)?,
        GroupForm::Statement { .. } => add_alternative(buffer, view, next, writer)?,
    }
    Ok(size)
}
