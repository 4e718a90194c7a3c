//! Right ends of cells.

ghost use Rattle.std.specs.Prelude.{◌≡◌, ◌<◌, ◌==◌, ℕ, IfSome, IsTrue};
ghost use Rattle.diagram_program.specs.declared.geometry.TheConstants.{ROWS};
ghost use Rattle.draw_power.specs.Power.{has_row};
ghost use Rattle.export_power.specs.Carried.{IsEndOf, IsSame, IsSplit};

use diagram_program::geometry::{COLUMNS, ROWS};

/// The right ends of some rows, just before a column. Before the first column is the left rail, whatever the rows are.
#[derive(Clone, Copy)]
pub struct Ends {
    pub column: usize,
    pub rows: [bool; ROWS],
}

/// The left rail.
pub(crate) fn rail() -> Ends
    ensures { result.column ≡ 0 }
{
    Ends {
        column: 0,
        rows: [false; ROWS],
    }
}

/// Whether both are the left rail, or the same rows before one column.
pub(crate) fn is_same(first: Ends, second: Ends) -> bool
    ensures { IsTrue result → IsSame first second }
{
    first.column == second.column && (first.column == 0 || first.rows == second.rows)
}

/// Just one row.
fn only(row: usize) -> [bool; ROWS]
    requires { row < ROWS }
    ensures { (q : ℕ) → q < ROWS → has_row result q ≡ (q == row) }
{
    let mut rows = [false; ROWS];
    rows[row] = true;
    rows
}

/// The place of the only cell of which these are the right end. None where there are more or none.
pub(crate) fn place_of(ends: Ends) -> Option<usize>
    ensures { IfSome result (IsEndOf ends) }
{
    if ends.column == 0 || ends.column > COLUMNS {
        return None;
    }
    for row in 0..ROWS {
        if ends.rows == only(row) {
            return Some(ROWS * (ends.column - 1) + row);
        }
    }
    None
}

/// Ends in two parts.
#[derive(Clone, Copy)]
pub(crate) struct Parts {
    pub upper: Ends,
    pub lower: Ends,
}

/// The ends above a row, and those of this row and the rows below it.
pub(crate) fn split(ends: Ends, row: usize) -> Parts
    ensures { IsSplit ends result }
{
    let mut upper = [false; ROWS];
    let mut lower = [false; ROWS];
    for at in 0..ROWS {
        upper[at] = ends.rows[at] & (at < row);
        lower[at] = ends.rows[at] & (row <= at);
    }
    Parts {
        upper: Ends {
            column: ends.column,
            rows: upper,
        },
        lower: Ends {
            column: ends.column,
            rows: lower,
        },
    }
}
