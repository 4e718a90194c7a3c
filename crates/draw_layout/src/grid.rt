//! The cells of a rung.

use crate::tree::Contact;
use diagram_declarations::Pin;
use diagram_program::CoilMode;
use diagram_program::geometry::{COLUMNS, ROWS};

/// What is drawn in a cell. Variables and instances go by their numbers, and so do labels.
#[derive(Clone, Copy)]
pub(crate) enum Cell {
    Blank,
    Wire,
    Contact(Contact),
    Coil { mode: CoilMode, variable: usize },
    /// The upper cell of a block.
    Block { instance: usize },
    /// The lower cell of a block.
    Lower { pin: Pin, is_fed: bool },
    Jump { label: usize },
    /// A jump to the end.
    Exit,
}

/// A rung: its cells, and the vertical links at its joints.
#[derive(Drop)]
pub(crate) struct Grid {
    cells: [[Cell; COLUMNS]; ROWS],
    /// Whether a row is joined with the one above it, on the left of the column.
    links: [[bool; COLUMNS]; ROWS],
}

impl Grid {
    /// A rung where nothing is drawn.
    pub(crate) fn new() -> Grid {
        Grid {
            cells: [[Cell::Blank; COLUMNS]; ROWS],
            links: [[false; COLUMNS]; ROWS],
        }
    }

    /// The cell at a place. Nothing is drawn past the edges.
    pub(crate) fn cell(&self, row: usize, column: usize) -> Cell {
        match self.cells.get(row) {
            Some(cells) => match cells.get(column) {
                Some(cell) => *cell,
                None => Cell::Blank,
            },
            None => Cell::Blank,
        }
    }

    /// Whether the place is joined with the one above it, on the left of the column.
    pub(crate) fn is_linked(&self, row: usize, column: usize) -> bool {
        match self.links.get(row) {
            Some(links) => match links.get(column) {
                Some(is_linked) => *is_linked,
                None => false,
            },
            None => false,
        }
    }

    /// Draws a cell. Past the edges nothing is drawn.
    pub(crate) fn put(&mut self, row: usize, column: usize, cell: Cell) {
        if let Some(cells) = self.cells.get_mut(row) {
            if let Some(place) = cells.get_mut(column) {
                *place = cell;
            }
        }
    }

    /// Joins a row with the one above it, on the left of a column.
    fn link(&mut self, row: usize, column: usize) {
        if let Some(links) = self.links.get_mut(row) {
            if let Some(place) = links.get_mut(column) {
                *place = true;
            }
        }
    }

    /// Draws wires in a row, from a column up to another.
    pub(crate) fn wires(&mut self, row: usize, column: usize, to: usize) {
        for place in column..to {
            self.put(row, place, Cell::Wire);
        }
    }

    /// Joins rows on the left of a column, from the highest to the lowest. On the left of the first one there is the rail.
    pub(crate) fn join(&mut self, column: usize, highest: usize, lowest: usize) {
        if column > 0 {
            for row in highest.saturating_add(1)..lowest.saturating_add(1) {
                self.link(row, column);
            }
        }
    }

    /// How many rows of the rung are drawn.
    pub(crate) fn rows(&self) -> usize {
        let mut rows = 0;
        for row in 0..ROWS {
            for column in 0..COLUMNS {
                if !matches!(self.cell(row, column), Cell::Blank) {
                    rows = row + 1;
                }
            }
        }
        rows
    }
}
