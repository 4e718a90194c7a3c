//! The picture of a rung: which character is where.

ghost use Rattle.std.specs.Prelude.{◌≡◌, ◌+◌, ◌*◌, ◌<◌, ◌↔◌, ◌==◌, not, map, IsTrue, slice_index_or, []};
ghost use Rattle.std.specs.List.{list_any, range_with_len};
ghost use Rattle.diagram_program.specs.Bytes.{space};
ghost use Rattle.diagram_program.specs.declared.geometry.TheConstants.{CELL, PITCH, ROWS, COLUMNS};
ghost use Rattle.diagram_page.specs.Picture.{half_line, char_at, joint, vertical, SameGroup};

use diagram_program::geometry::{CELL, PITCH};

/// The two lines of a row.
#[derive(Clone, Copy)]
pub enum Half {
    /// The line with the names.
    Name,
    /// The line with the cells and joints.
    Wire,
}

/// The line of a row that has its names, or its wires.
pub fn half_line(row: usize, half: Half) -> usize
    requires { row < ROWS }
    ensures { result ≡ half_line row half }
{
    match half {
        Half::Name => 2 * row,
        Half::Wire => 2 * row + 1,
    }
}

/// The line of a rung, an empty one past the last.
pub fn line_at<'a>(lines: &[&'a [u8]], line: usize) -> &'a [u8]
    ensures { result.now ≡ slice_index_or (map (λ l. l.now) lines.now) line [] }
{
    if line < lines.len() { lines[line] } else { &[] }
}

/// The character of a line at a place, a space past each end.
pub fn char_at(lines: &[&[u8]], line: usize, place: usize) -> u8
    ensures { result ≡ char_at (map (λ l. l.now) lines.now) line place }
{
    if line < lines.len() {
        let text = lines[line];
        if place < text.len() {
            text[place]
        } else {
            b' '
        }
    } else {
        b' '
    }
}

/// Whether there is a character that is no space.
pub fn has_text(chars: &[u8]) -> bool
    ensures { result ≡ list_any (λ b. not (b == space)) chars.now }
{
    chars.iter().any(|b| *b != b' ')
}

/// The characters of a line that belong to a column.
pub(crate) fn text_at(lines: &[&[u8]], line: usize, column: usize) -> [u8; CELL]
    requires columns { column < COLUMNS }
    ensures { result ≡ map (char_at (map (λ l. l.now) lines.now) line) (range_with_len (PITCH * column + 1) CELL) }
{
    let start = PITCH * column + 1;
    [
        char_at(lines, line, start),
        char_at(lines, line, start + 1),
        char_at(lines, line, start + 2),
        char_at(lines, line, start + 3),
        char_at(lines, line, start + 4),
        char_at(lines, line, start + 5),
        char_at(lines, line, start + 6),
        char_at(lines, line, start + 7),
        char_at(lines, line, start + 8),
        char_at(lines, line, start + 9),
        char_at(lines, line, start + 10),
    ]
}

/// The character of the joint on the left of a cell.
pub fn joint(lines: &[&[u8]], row: usize, column: usize) -> u8
    requires rows { row < ROWS }
    requires columns { column < COLUMNS }
    ensures { result ≡ joint (map (λ l. l.now) lines.now) row column }
{
    char_at(lines, 2 * row + 1, PITCH * column)
}

/// Whether a vertical link goes from this row to the next, on the left of the column.
pub fn vertical(lines: &[&[u8]], row: usize, column: usize) -> bool
    requires rows { row < ROWS }
    requires columns { column < COLUMNS }
    ensures { result ≡ vertical (map (λ l. l.now) lines.now) row column }
{
    char_at(lines, 2 * row + 2, PITCH * column) == b'|'
}

/// Whether vertical links join every row between these two, on the left of the column.
pub fn same_group(lines: &[&[u8]], column: usize, row: usize, other: usize) -> bool
    requires rows { (row < ROWS) × (other < ROWS) }
    requires columns { column < COLUMNS }
    ensures { IsTrue result ↔ SameGroup (map (λ l. l.now) lines.now) column row other }
{
    for between in row.min(other)..row.max(other) {
        if !vertical(lines, between, column) {
            return false;
        }
    }
    true
}
