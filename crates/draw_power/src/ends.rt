//! The right end of a network, and where the next one begins.

ghost use Rattle.std.specs.Prelude.{◌≡◌, ◌<◌, ◌||◌, ◌==◌, ℕ};
ghost use Rattle.diagram_program.specs.declared.geometry.TheConstants.{ROWS};
ghost use Rattle.draw_power.specs.Power.{has_row};

use diagram_program::geometry::ROWS;

/// The right end of a network: the column behind it, and for each row whether it ends there.
#[derive(Clone, Copy)]
pub(crate) struct Ends {
    pub column: usize,
    pub rows: [bool; ROWS],
}

/// Where a network goes on: its upper left cell is in this row, behind these ends.
#[derive(Clone, Copy)]
pub(crate) struct Start {
    pub row: usize,
    pub from: Ends,
}

/// Just one row.
pub(crate) fn only(row: usize) -> [bool; ROWS]
    requires { row < ROWS }
    ensures { (q : ℕ) → q < ROWS → has_row result q ≡ (q == row) }
{
    let mut rows = [false; ROWS];
    rows[row] = true;
    rows
}

/// The rows of either set.
pub(crate) fn either(first: [bool; ROWS], second: [bool; ROWS]) -> [bool; ROWS]
    ensures { (q : ℕ) → q < ROWS → has_row result q ≡ (has_row first q || has_row second q) }
{
    let mut rows = [false; ROWS];
    for row in 0..ROWS {
        rows[row] = first[row] | second[row];
    }
    rows
}
