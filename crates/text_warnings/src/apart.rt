//! Rows that nothing joins with those above.

ghost use Rattle.std.specs.Prelude.{◌≡◌, ◌<◌, ◌≤◌, ◌↔◌, IsTrue};
ghost use Rattle.diagram_program.specs.declared.geometry.TheConstants.{COLUMNS, ROWS, RUNGS};
ghost use Rattle.text_warnings.specs.Below.{SomeBelow};
ghost use Rattle.text_warnings.specs.Warned.{HasCellAt, HasCells, IsApart, IsJoinedAt};

use diagram_program::geometry::{COLUMNS, Place};
use diagram_program::{Cell, Program};

/// Whether something is drawn at a place.
fn has_cell_at(program: &Program, at: Place) -> bool
    requires { at.rung < program.now.rungs }
    ensures { IsTrue result ↔ HasCellAt program.now at.rung at.row at.column }
{
    match program.site(at).cell {
        Cell::Empty => false,
        Cell::Wire
        | Cell::Contact { .. }
        | Cell::Coil { .. }
        | Cell::Block { .. }
        | Cell::Lower { .. }
        | Cell::Jump { .. }
        | Cell::Return => true,
    }
}

/// Whether something is drawn in the row.
fn has_cells(program: &Program, rung: usize, row: usize) -> bool
    requires rungs { rung < program.now.rungs }
    requires few { rung < RUNGS }
    requires rows { row < ROWS }
    ensures { IsTrue result ↔ HasCells program.now rung row }
{
    for column in 0..COLUMNS {
        if has_cell_at(program, Place { rung, row, column }) {
            return true;
        }
    }
    false
}

/// Whether something is drawn in one of the rows above.
fn has_cells_above(program: &Program, rung: usize, row: usize) -> bool
    requires rungs { rung < program.now.rungs }
    requires few { rung < RUNGS }
    requires rows { row < ROWS }
    ensures { IsTrue result ↔ SomeBelow row (HasCells program.now rung) }
{
    for upper in 0..row {
        if has_cells(program, rung, upper) {
            return true;
        }
    }
    false
}

/// Whether a vertical link or a block joins the row with the one above it at a column.
fn is_joined_at(program: &Program, at: Place) -> bool
    requires rungs { at.rung < program.now.rungs }
    requires lower { 1 ≤ at.row }
    ensures { IsTrue result ↔ IsJoinedAt program.now at.rung at.row at.column }
{
    match program.site(at).cell {
        Cell::Lower { .. } => true,
        Cell::Empty
        | Cell::Wire
        | Cell::Contact { .. }
        | Cell::Coil { .. }
        | Cell::Block { .. }
        | Cell::Jump { .. }
        | Cell::Return => at.column >= 1 && program.site(at.in_row(at.row - 1)).vertical,
    }
}

/// Whether a vertical link or a block joins the row with the one above it.
fn is_joined_up(program: &Program, rung: usize, row: usize) -> bool
    requires rungs { rung < program.now.rungs }
    requires few { rung < RUNGS }
    requires rows { row < ROWS }
    requires lower { 1 ≤ row }
    ensures { IsTrue result ↔ SomeBelow COLUMNS (IsJoinedAt program.now rung row) }
{
    for column in 0..COLUMNS {
        if is_joined_at(program, Place { rung, row, column }) {
            return true;
        }
    }
    false
}

/// Whether the place is the first one of a row that nothing joins with those above.
pub(crate) fn is_apart(program: &Program, at: Place) -> bool
    requires { at.rung < program.now.rungs }
    ensures { IsTrue result ↔ IsApart program.now at.rung at.row at.column }
{
    at.column == 0
        && at.row >= 1
        && has_cells(program, at.rung, at.row)
        && has_cells_above(program, at.rung, at.row)
        && !is_joined_up(program, at.rung, at.row)
}
