//! G11: which cell is missing below the upper cell of a block, or above its lower cell.

ghost use Rattle.std.specs.Prelude.{◌≡◌, ◌≤◌, ◌^◌, ◌+◌, ◌-◌, drop, take};
ghost use Rattle.std.specs.Str.{bytes_eq};
ghost use Rattle.diagram_program.specs.declared.geometry.TheConstants.{CELL, COLUMNS};
ghost use Rattle.io_text.specs.Buffer.{Sends};
ghost use Rattle.text_reasons.specs.Blocks.{above_cell, below_cell, block_text, cell_in, must_be};

use diagram_program::geometry::{CELL, PITCH};
use io_text::{Piece, Sink, TextBuffer, WriteFault, add_pieces};

/// What is behind so many bytes.
pub(crate) fn behind(text: &[u8], count: usize) -> &[u8]
    ensures { result.now ≡ drop count text.now }
{
    if count < text.len() {
        &text[count..]
    } else {
        &[]
    }
}

/// As many characters as a cell has, behind so many.
pub(crate) fn cut(text: &[u8], from: usize) -> &[u8]
    ensures { result.now ≡ take CELL (drop from text.now) }
{
    let rest = behind(text, from);
    &rest[..CELL.min(rest.len())]
}

/// The characters of a line in a column.
pub(crate) fn cell_in(line: &[u8], column: usize) -> &[u8]
    requires { column ≤ COLUMNS }
    ensures { result.now ≡ cell_in line.now column }
{
    cut(line, PITCH * column + 1)
}

/// Whether two texts are the same, byte by byte.
fn same_bytes(a: &[u8], b: &[u8]) -> bool
    ensures { result ≡ bytes_eq a.now b.now }
{
    a == b
}

/// What must be below the upper cell of a block with a second input.
fn below_cell(cell: &[u8]) -> &'static [u8]
    ensures { result.now ≡ below_cell cell.now }
{
    if same_bytes(cell, b"-|CU CTU Q|") || same_bytes(cell, b"-|S1 SR Q1|") {
        b"\"-|R       |\" or \" |R       |\""
    } else if same_bytes(cell, b"-|CD CTD Q|") {
        b"\"-|LD      |\" or \" |LD      |\""
    } else if same_bytes(cell, b"-|S  RS Q1|") {
        b"\"-|R1      |\" or \" |R1      |\""
    } else {
        b""
    }
}

/// What must be above the lower cell of a block.
fn above_cell(cell: &[u8]) -> &'static [u8]
    ensures { result.now ≡ above_cell cell.now }
{
    let box_of = behind(cell, 1);
    if same_bytes(box_of, b"|R       |") {
        b"\"-|CU CTU Q|\" or \"-|S1 SR Q1|\""
    } else if same_bytes(box_of, b"|LD      |") {
        b"\"-|CD CTD Q|\""
    } else if same_bytes(box_of, b"|R1      |") {
        b"\"-|S  RS Q1|\""
    } else {
        b""
    }
}

/// Adds that this cell must be on the line.
fn add_must_be<W: Sink>(
    buffer: &mut TextBuffer,
    cell: &[u8],
    line: usize,
    column: usize,
    writer: &mut W,
) -> Result<(), WriteFault>
    requires { column ≤ COLUMNS }
    ensures { Sends (W.log writer.old) (W.log writer.new) buffer.old buffer.new result (must_be cell.now line column) }
{
    match cell {
        [] => Ok(()),
        [_, ..] => {
            let pieces = [
                Piece::Text(b"line "),
                Piece::Number(line as u64),
                Piece::Text(b", places "),
                Piece::Number((PITCH * column + 1) as u64),
                Piece::Text(b" to "),
                Piece::Number((PITCH * column + CELL) as u64),
                Piece::Text(b" must be "),
                Piece::Text(cell),
                Piece::Text(b"\n"),
            ];
            add_pieces(buffer, pieces.as_slice(), writer)
        }
    }
}

/// Adds which cell is missing below or above this one, by its line.
pub(crate) fn add_block<W: Sink>(
    buffer: &mut TextBuffer,
    cell: &[u8],
    line: usize,
    column: usize,
    writer: &mut W,
) -> Result<(), WriteFault>
    requires columns { column ≤ COLUMNS }
    requires lines { line ≤ 2 ^ 63 }
    ensures { Sends (W.log writer.old) (W.log writer.new) buffer.old buffer.new result (block_text cell.now line column) }
{
    add_must_be(buffer, below_cell(cell), line + 2, column, writer)?;
    add_must_be(
        buffer,
        above_cell(cell),
        line.saturating_sub(2),
        column,
        writer,
    )
}
