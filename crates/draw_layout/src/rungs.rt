//! The cells of rungs.

use crate::coils::Coils;
use crate::fitting::Feed;
use crate::grid::{Cell, Grid};
use crate::placing::{Helpers, lay_feed, width_of};
use diagram_declarations::{BlockKind, Pin};

/// Where a jump goes.
#[derive(Clone, Copy)]
pub(crate) enum Target {
    Label(usize),
    /// Past the last rung.
    Exit,
}

/// A rung with coils, one under the other.
pub(crate) fn coil_rung(feed: Feed<'_>, helpers: Helpers<'_, '_>, coils: Coils) -> Grid {
    let mut grid = Grid::new();
    let column = width_of(feed, helpers);
    let lowest = lay_feed(&mut grid, feed, helpers, 0, column);
    for row in 0..coils.count() {
        if let Some(coil) = coils.get(row) {
            grid.put(
                row,
                column,
                Cell::Coil {
                    mode: coil.mode,
                    variable: coil.variable,
                },
            );
        }
    }
    grid.join(column, 0, lowest.max(coils.count().saturating_sub(1)));
    grid
}

/// A rung with a jump.
pub(crate) fn jump_rung(feed: Feed<'_>, helpers: Helpers<'_, '_>, target: Target) -> Grid {
    let mut grid = Grid::new();
    let column = width_of(feed, helpers);
    let lowest = lay_feed(&mut grid, feed, helpers, 0, column);
    let cell = match target {
        Target::Label(label) => Cell::Jump { label },
        Target::Exit => Cell::Exit,
    };
    grid.put(0, column, cell);
    grid.join(column, 0, lowest);
    grid
}

/// The second input of a block, and what leads to it.
#[derive(Clone, Copy)]
pub(crate) struct Second<'a> {
    pub(crate) pin: Pin,
    pub(crate) feed: Option<Feed<'a>>,
}

/// A rung with a block.
pub(crate) fn block_rung(
    instance: usize,
    first: Feed<'_>,
    second: Option<Second<'_>>,
    helpers: Helpers<'_, '_>,
) -> Grid {
    let mut grid = Grid::new();
    let below = match second {
        Some(second) => match second.feed {
            Some(feed) => width_of(feed, helpers),
            None => 0,
        },
        None => 0,
    };
    let column = width_of(first, helpers).max(below);
    let lowest = lay_feed(&mut grid, first, helpers, 0, column);
    grid.put(0, column, Cell::Block { instance });
    grid.join(column, 0, lowest);
    if let Some(second) = second {
        add_second(&mut grid, second, helpers, column);
    }
    grid
}

/// Draws the second input of the block in a column.
fn add_second(grid: &mut Grid, second: Second<'_>, helpers: Helpers<'_, '_>, column: usize) {
    if let Some(feed) = second.feed {
        let lowest = lay_feed(grid, feed, helpers, 1, column);
        grid.join(column, 1, lowest);
    }
    grid.put(
        1,
        column,
        Cell::Lower {
            pin: second.pin,
            is_fed: second.feed.is_some(),
        },
    );
}

/// The input of the lower cell of a block.
pub(crate) fn second_pin(kind: BlockKind) -> Option<Pin> {
    kind.traits().second_input
}
