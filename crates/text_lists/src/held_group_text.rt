//! The text of groups over several scans.

ghost use Rattle.std.specs.Prelude.{◌≡◌, ◌≤◌, ◌^◌, IfOk, drop, length, map};
ghost use Rattle.io_text.specs.Buffer.{Sends};
ghost use Rattle.io_text.specs.Log.{Puts};
ghost use Rattle.io_text.specs.Text.{lines_text};
ghost use Rattle.search_groups.specs.Classes.{numbers_in};
ghost use Rattle.text_causes.specs.CauseText.{limited};
ghost use Rattle.text_lists.specs.ClassText.{held_group_record, held_group_text};

use crate::class_row::add_row;
use causes_held::HeldGroups;
use io_text::{Piece, Sink, TextBuffer, WriteFault};
use text_causes::{GroupSummary, add_header, is_reached};

/// Adds the rows that are left, or the first of them where there is a limit.
fn add_rows<W: Sink>(
    buffer: &mut TextBuffer,
    groups: &mut HeldGroups<'_>,
    listed: usize,
    limit: Option<u64>,
    writer: &mut W,
) -> Result<GroupSummary, WriteFault>
    requires few { listed ≤ 32 }
    requires finite { length groups.old.rest ≤ numbers_in listed groups.old.rest }
    requires causes { numbers_in listed groups.old.rest ≤ 2 ^ 32 }
    ensures sends { Sends (W.log writer.old) (W.log writer.new) buffer.old buffer.new result (lines_text (map (held_group_record listed) (limited limit groups.old.rest))) }
    ensures rows { IfOk result (λ s. s.rows ≡ length (limited limit groups.old.rest)) }
    ensures causes { IfOk result (λ s. s.causes ≡ numbers_in listed (limited limit groups.old.rest)) }
    ensures left { IfOk result (λ s. groups.new.rest ≡ drop s.rows groups.old.rest) }
{
    let mut written = GroupSummary { rows: 0, causes: 0 };
    loop {
        if is_reached(limit, written.rows) {
            return Ok(written);
        }
        let Some(row) = groups.next() else {
            return Ok(written);
        };
        let scan = Piece::Number(u64::from(row.class));
        let size = add_row(buffer, row.group, scan, listed, writer)?;
        written.rows += 1;
        written.causes += size;
    }
}

/// Writes the text of the groups over several scans that are left, or of the first ones where there is a limit: a header, and a row for each
/// group, with how many causes it has and the first scan after which the coil is ON with each of them. It needs no memory.
///
/// # Errors
///
/// X6: the writer failed. What was written is a prefix of that text.
pub fn write_held_groups<W: Sink>(
    groups: &mut HeldGroups<'_>,
    limit: Option<u64>,
    writer: &mut W,
) -> Result<GroupSummary, WriteFault>
    ensures bytes { Puts (W.log writer.old) (W.log writer.new) result
        (held_group_text groups.old.program groups.old.listed (limited limit groups.old.rest)) }
    ensures rows { IfOk result (λ s. s.rows ≡ length (limited limit groups.old.rest)) }
    ensures causes { IfOk result (λ s. s.causes ≡ numbers_in (length groups.old.listed) (limited limit groups.old.rest)) }

    // Where the cursor then is: it has given the rows that were written.
    ensures left { IfOk result (λ s. groups.new.rest ≡ drop s.rows groups.old.rest) }
{
    let mut buffer = TextBuffer::new();
    let listed = groups.listed().len();
    let program = groups.program();
    add_header(
        &mut buffer,
        b"causes,scan",
        program,
        groups.listed(),
        writer,
    )?;
    let summary = add_rows(&mut buffer, groups, listed, limit, writer)?;
    buffer.flush(writer)?;
    Ok(summary)
}
