//! The text of groups of what is possible, or forced.

ghost use Rattle.std.specs.Prelude.{◌≡◌, ◌==◌, ◌≤◌, ◌^◌, if◌then◌else◌, IfOk, drop, length, map};
ghost use Rattle.io_text.specs.Buffer.{Sends};
ghost use Rattle.io_text.specs.Log.{Puts};
ghost use Rattle.io_text.specs.Text.{lines_text};
ghost use Rattle.search_groups.specs.Classes.{numbers_in};
ghost use Rattle.causes_any_state.specs.declared.table.TheConstants.{SETTLED};
ghost use Rattle.text_causes.specs.CauseText.{limited};
ghost use Rattle.text_lists.specs.PossibleText.{mark};
ghost use Rattle.text_lists.specs.ClassText.{possible_group_record, possible_group_text, unsettled_in};

use crate::class_row::add_row;
use causes_any_state::{PossibleGroups, is_settled};
use io_text::{Piece, Sink, TextBuffer, WriteFault};
use search_groups::ClassGroup;
use text_causes::{add_header, is_reached};

/// How much of a list of what is possible, or forced, was written in groups.
#[derive(Clone, Copy, PartialEq, Eq)]
pub struct PossibleGroupSummary {
    /// The rows after the header.
    pub rows: u64,
    /// The numbers that these rows stand for.
    pub causes: u64,
    /// For how many of these numbers it isn't settled what the list claims.
    pub unsettled: u64,
}

/// What stands in the column of a group.
fn settled_mark(row: ClassGroup) -> &'static [u8]
    ensures { result.now ≡ mark (row.class == SETTLED) }
{
    if is_settled(row) { b"1" } else { b"?" }
}

/// How many of a group's numbers aren't settled, of which it has so many.
fn unsettled(row: ClassGroup, numbers: u64) -> u64
    ensures { result ≡ (if row.class == SETTLED then 0 else numbers) }
{
    if is_settled(row) { 0 } else { numbers }
}

/// Adds the rows that are left, or the first of them where there is a limit.
fn add_rows<W: Sink>(
    buffer: &mut TextBuffer,
    groups: &mut PossibleGroups<'_>,
    listed: usize,
    limit: Option<u64>,
    writer: &mut W,
) -> Result<PossibleGroupSummary, WriteFault>
    requires few { listed ≤ 32 }
    requires finite { length groups.old.rest ≤ numbers_in listed groups.old.rest }
    requires numbers { numbers_in listed groups.old.rest ≤ 2 ^ 32 }
    ensures sends { Sends (W.log writer.old) (W.log writer.new) buffer.old buffer.new result (lines_text (map (possible_group_record listed) (limited limit groups.old.rest))) }
    ensures rows { IfOk result (λ s. s.rows ≡ length (limited limit groups.old.rest)) }
    ensures causes { IfOk result (λ s. s.causes ≡ numbers_in listed (limited limit groups.old.rest)) }
    ensures unsettled { IfOk result (λ s. s.unsettled ≡ unsettled_in listed (limited limit groups.old.rest)) }
    ensures left { IfOk result (λ s. groups.new.rest ≡ drop s.rows groups.old.rest) }
{
    let mut written = PossibleGroupSummary {
        rows: 0,
        causes: 0,
        unsettled: 0,
    };
    loop {
        if is_reached(limit, written.rows) {
            return Ok(written);
        }
        let Some(row) = groups.next() else {
            return Ok(written);
        };
        let settled = Piece::Text(settled_mark(row));
        let size = add_row(buffer, row.group, settled, listed, writer)?;
        written.rows += 1;
        written.causes += size;
        written.unsettled += unsettled(row, size);
    }
}

/// Writes the text of the groups of what is possible, or forced, that are left, or of the first ones where there is a limit: a header, and a
/// row for each group, with how many numbers it has and whether it is settled what is claimed of them. It needs no memory.
///
/// # Errors
///
/// X6: the writer failed. What was written is a prefix of that text.
pub fn write_possible_groups<W: Sink>(
    groups: &mut PossibleGroups<'_>,
    limit: Option<u64>,
    writer: &mut W,
) -> Result<PossibleGroupSummary, WriteFault>
    ensures bytes { Puts (W.log writer.old) (W.log writer.new) result
        (possible_group_text groups.old.program groups.old.listed (limited limit groups.old.rest)) }
    ensures rows { IfOk result (λ s. s.rows ≡ length (limited limit groups.old.rest)) }
    ensures causes { IfOk result (λ s. s.causes ≡ numbers_in (length groups.old.listed) (limited limit groups.old.rest)) }
    ensures unsettled { IfOk result (λ s. s.unsettled ≡ unsettled_in (length groups.old.listed) (limited limit groups.old.rest)) }

    // Where the cursor then is: it has given the rows that were written.
    ensures left { IfOk result (λ s. groups.new.rest ≡ drop s.rows groups.old.rest) }
{
    let mut buffer = TextBuffer::new();
    let listed = groups.listed().len();
    let program = groups.program();
    add_header(
        &mut buffer,
        b"causes,settled",
        program,
        groups.listed(),
        writer,
    )?;
    let summary = add_rows(&mut buffer, groups, listed, limit, writer)?;
    buffer.flush(writer)?;
    Ok(summary)
}
