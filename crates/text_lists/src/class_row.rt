//! The row of a group.

ghost use Rattle.std.specs.Prelude.{◌≡◌, ◌≤◌, ◌<◌, ◌*◌, ◌+◌, ◌++◌, IfOk, codes, length, map, take};
ghost use Rattle.io_text.specs.Buffer.{Sends};
ghost use Rattle.io_text.specs.Pieces.{piece_text};
ghost use Rattle.io_text.specs.Text.{after_commas, line_text};
ghost use Rattle.search_groups.specs.Groups.{cells, size};
ghost use Rattle.text_causes.specs.GroupText.{cell_text};
ghost use Rattle.text_lists.specs.ClassText.{class_record};

use io_text::{Piece, Sink, TextBuffer, WriteFault, add_pieces};
use search_groups::Group;
use text_causes::{fill_cells, size_of};

/// How many bytes the cells of a row and its line feed have at most.
const END: usize = 65;

/// Writes the end of a group's record over the first bytes of a text: its cells, each after a comma, and a line feed.
fn fill_end(text: &mut [u8], listed: usize, group: Group)
    requires few { listed ≤ 32 }
    requires room { 2 * listed < length text.old }
    ensures { take (2 * listed + 1) text.new ≡ after_commas (map cell_text (cells listed group)) ++ codes "\n" }
{
    fill_cells(text, listed, group);
    text[2 * listed] = b'\n';
}

/// Adds the record of a group that has so many numbers, and this in the column of its class.
fn add_record<W: Sink>(
    buffer: &mut TextBuffer,
    group: Group,
    numbers: u64,
    column: Piece<'_>,
    listed: usize,
    writer: &mut W,
) -> Result<(), WriteFault>
    requires few { listed ≤ 32 }
    requires numbers { numbers ≡ size (cells listed group) }
    ensures { Sends (W.log writer.old) (W.log writer.new) buffer.old buffer.new result (line_text (class_record (piece_text column.entry) (cells listed group))) }
{
    let pieces = [Piece::Number(numbers), Piece::Text(b","), column];
    let mut end = [0; END];
    fill_end(&mut end, listed, group);
    add_pieces(buffer, pieces.as_slice(), writer)?;
    buffer.add(&end[..2 * listed + 1], writer)
}

/// Adds the row of a group, with this in the column of its class, and returns how many numbers the group has.
pub(crate) fn add_row<W: Sink>(
    buffer: &mut TextBuffer,
    group: Group,
    column: Piece<'_>,
    listed: usize,
    writer: &mut W,
) -> Result<u64, WriteFault>
    requires few { listed ≤ 32 }
    ensures sends { Sends (W.log writer.old) (W.log writer.new) buffer.old buffer.new result (line_text (class_record (piece_text column.entry) (cells listed group))) }
    ensures size { IfOk result (λ n. n ≡ size (cells listed group)) }
{
    let numbers = size_of(group, listed);
    add_record(buffer, group, numbers, column, listed, writer)?;
    Ok(numbers)
}
