//! The text of groups of differences.

ghost use Rattle.std.specs.Prelude.{◌≡◌, ◌+◌, ◌++◌, ◌≤◌, ◌^◌, IfOk, IfSome, MatchResult, codes, length, true};
ghost use Rattle.io_text.specs.Buffer.{Sends};
ghost use Rattle.io_text.specs.Log.{Puts};
ghost use Rattle.search_differences.specs.declared.sought.Sought.TheVariants.{NewAlone, OldAlone};
ghost use Rattle.diff_causes.specs.GroupCursor.{differences_in, group_rows_left};
ghost use Rattle.text_causes.specs.CauseText.{limited, name_of};
ghost use Rattle.text_causes.specs.Limit.{limit_left};
ghost use Rattle.text_differences.specs.Forms.{names_in, rows_text, side_text, start_text, target_text};
ghost use Rattle.text_differences.specs.GroupText.{TakesDifferenceGroups, TakesDifferenceGroupsAtMost, difference_group_text, new_rows_of, old_rows_of, suffix};

use crate::group_rows::{GroupView, SideGroup, add_group};
use diagram_program::Program;
use diff_causes::DifferenceGroups;
use io_text::{Piece, Sink, TextBuffer, WriteFault, add_pieces};
use search_differences::Side;
use text_causes::{GroupForm, add_header, end_of, is_reached, name_bytes};

/// How much of what two programs do differently was written.
#[derive(Clone, Copy, Debug, PartialEq, Eq)]
pub struct DifferenceSummary {
    /// The rows after the header.
    pub rows: u64,
    /// The differences that these rows stand for.
    pub differences: u64,
}

/// What a statement has behind the coil's name.
fn suffix(side: Side) -> &'static [u8]
    ensures { result.now ≡ suffix side }
{
    match side {
        Side::Old => b"_old",
        Side::New => b"_new",
    }
}

/// Adds the name that the statement of a side assigns to.
fn add_name<W: Sink>(
    buffer: &mut TextBuffer,
    program: &Program,
    coil: usize,
    side: Side,
    writer: &mut W,
) -> Result<(), WriteFault>
    ensures { Sends (W.log writer.old) (W.log writer.new) buffer.old buffer.new result (name_of program.now coil ++ (suffix side ++ codes " := ")) }
{
    let pieces = [
        Piece::Text(name_bytes(program.decls(), coil)),
        Piece::Text(suffix(side)),
        Piece::Text(b" := "),
    ];
    add_pieces(buffer, pieces.as_slice(), writer)
}

/// Adds what stands before the groups of a side: what a statement assigns to, and nothing in the other forms.
fn add_target<W: Sink>(
    buffer: &mut TextBuffer,
    view: GroupView<'_>,
    writer: &mut W,
) -> Result<(), WriteFault>
    ensures { Sends (W.log writer.old) (W.log writer.new) buffer.old buffer.new result (target_text view.entry.form view.entry.program.now view.entry.side) }
{
    match view.form {
        GroupForm::Statement { coil } => add_name(buffer, view.program, coil, view.side, writer),
        _ => Ok(()),
    }
}

/// Adds what stands before the groups of both sides: the header of a table, and nothing in the other forms.
fn add_start<W: Sink>(
    buffer: &mut TextBuffer,
    form: GroupForm,
    program: &Program,
    listed: &[usize],
    writer: &mut W,
) -> Result<(), WriteFault>
    ensures { Sends (W.log writer.old) (W.log writer.new) buffer.old buffer.new result (start_text form program.now listed.now) }
{
    match form {
        GroupForm::Table => add_header(buffer, b"differences,old,new", program, listed, writer),
        _ => Ok(()),
    }
}

/// Adds the groups of a side that are left, or the first of them where there is a limit.
fn add_groups<W: Sink>(
    buffer: &mut TextBuffer,
    view: GroupView<'_>,
    groups: &mut DifferenceGroups<'_>,
    listed: usize,
    limit: Option<u64>,
    writer: &mut W,
) -> Result<DifferenceSummary, WriteFault>
    requires few { listed ≤ 32 }
    requires named { listed ≡ length view.listed.now }
    requires listed { listed ≡ length groups.old.asked_old.listed }
    requires finite { length groups.old.rest ≤ differences_in (group_rows_left groups.old) }
    requires differences { differences_in (group_rows_left groups.old) ≤ 2 ^ 32 }
    ensures sends { Sends (W.log writer.old) (W.log writer.new) buffer.old buffer.new result
        (rows_text view.entry.form view.entry.side (names_in view.entry) true (limited limit (group_rows_left groups.old))) }
    ensures rows { IfOk result (λ s. s.rows ≡ length (limited limit (group_rows_left groups.old))) }
    ensures differences { IfOk result (λ s. s.differences ≡ differences_in (limited limit (group_rows_left groups.old))) }
    ensures taken { MatchResult result (λ s. TakesDifferenceGroups groups.old groups.new s.rows)
        (λ _. TakesDifferenceGroupsAtMost groups.old groups.new (length (limited limit (group_rows_left groups.old)))) }
{
    let mut written = DifferenceSummary {
        rows: 0,
        differences: 0,
    };
    loop {
        if is_reached(limit, written.rows) {
            return Ok(written);
        }
        let Some(group) = groups.next() else {
            return Ok(written);
        };
        let is_first = written.rows == 0;
        let next = SideGroup { group, is_first };
        let size = add_group(buffer, view, listed, next, writer)?;
        written.rows += 1;
        written.differences += size;
    }
}

/// Adds the text of a side: of the groups that are left, or of the first of them where there is a limit.
fn add_side<W: Sink>(
    buffer: &mut TextBuffer,
    view: GroupView<'_>,
    groups: &mut DifferenceGroups<'_>,
    limit: Option<u64>,
    writer: &mut W,
) -> Result<DifferenceSummary, WriteFault>
    requires same { length groups.old.asked_old.listed ≡ length view.listed.now }
    ensures sends { Sends (W.log writer.old) (W.log writer.new) buffer.old buffer.new result
        (side_text view.entry.form view.entry.program.now view.entry.listed.now view.entry.side (limited limit (group_rows_left groups.old))) }
    ensures rows { IfOk result (λ s. s.rows ≡ length (limited limit (group_rows_left groups.old))) }
    ensures differences { IfOk result (λ s. s.differences ≡ differences_in (limited limit (group_rows_left groups.old))) }
    ensures fits { IfOk result (λ s. (s.rows ≤ 2 ^ 32) × (s.differences ≤ 2 ^ 32)) }
    ensures taken { MatchResult result (λ s. TakesDifferenceGroups groups.old groups.new s.rows)
        (λ _. TakesDifferenceGroupsAtMost groups.old groups.new (length (limited limit (group_rows_left groups.old)))) }
{
    let listed = groups.free().len();
    add_target(buffer, view, writer)?;
    let summary = add_groups(buffer, view, groups, listed, limit, writer)?;
    buffer.add(end_of(view.form, summary.rows), writer)?;
    Ok(summary)
}

/// What a limit leaves after some rows.
fn limit_after(limit: Option<u64>, rows: u64) -> Option<u64>
    requires within { IfSome limit (λ most. rows ≤ most) }
    ensures { result ≡ limit_left limit rows }
{
    match limit {
        Some(most) => Some(most - rows),
        None => None,
    }
}

/// Writes the text of groups of what two programs do differently, in a form: as a table, as terms, or as two statements. The groups of
/// which the old program alone leaves the coil ON are those that `old` has left, those of the new one those of `new`; with a limit, the
/// first ones of the old program, and as many of the new one as are left. The names are those of the old program that `old` was asked of.
/// It needs no memory.
///
/// # Errors
///
/// X6: the writer failed. What was written is a prefix of that text. The cursors may have given groups, within the limit, that were
/// not written in full.
pub fn write_difference_groups<W: Sink>(
    old: &mut DifferenceGroups<'_>,
    new: &mut DifferenceGroups<'_>,
    form: GroupForm,
    limit: Option<u64>,
    writer: &mut W,
) -> Result<DifferenceSummary, WriteFault>
    requires old { old.old.sought ≡ OldAlone }
    requires new { new.old.sought ≡ NewAlone }
    requires same { length new.old.asked_old.listed ≡ length old.old.asked_old.listed }
    ensures bytes { Puts (W.log writer.old) (W.log writer.new) result
        (difference_group_text form old.old.asked_old.program old.old.asked_old.listed (old_rows_of limit old.old) (new_rows_of limit old.old new.old)) }
    ensures rows { IfOk result (λ s. s.rows ≡ length (old_rows_of limit old.old) + length (new_rows_of limit old.old new.old)) }
    ensures differences { IfOk result (λ s. s.differences
        ≡ differences_in (old_rows_of limit old.old) + differences_in (new_rows_of limit old.old new.old)) }

    // Where the cursors then are: they have given the rows that were written. After a fault they may have given more, but none past the limit.
    ensures taken_old { MatchResult result (λ _. TakesDifferenceGroups old.old old.new (length (old_rows_of limit old.old)))
        (λ _. TakesDifferenceGroupsAtMost old.old old.new (length (old_rows_of limit old.old))) }
    ensures taken_new { MatchResult result (λ _. TakesDifferenceGroups new.old new.new (length (new_rows_of limit old.old new.old)))
        (λ _. TakesDifferenceGroupsAtMost new.old new.new (length (new_rows_of limit old.old new.old))) }
{
    let mut buffer = TextBuffer::new();
    let program = old.old_program();
    let listed = old.free();
    add_start(&mut buffer, form, program, listed, writer)?;
    let old_view = GroupView {
        form,
        side: Side::Old,
        program,
        listed,
    };
    let first = add_side(&mut buffer, old_view, old, limit, writer)?;
    let new_view = GroupView {
        form,
        side: Side::New,
        program,
        listed,
    };
    let left = limit_after(limit, first.rows);
    let second = add_side(&mut buffer, new_view, new, left, writer)?;
    buffer.flush(writer)?;
    Ok(DifferenceSummary {
        rows: first.rows + second.rows,
        differences: first.differences + second.differences,
    })
}
