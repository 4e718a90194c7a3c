//! Which elements of a rung are drawn, and what joins them.

ghost use Rattle.std.specs.Prelude.{◌<◌, ◌≤◌};
ghost use Rattle.diagram_program.specs.declared.geometry.TheConstants.{COLUMNS, ROWS};

use clp_meaning::{BlockRef, Meaning, element_at, is_linked, meaning_at, passes, power_of};
use clp_project::{Element, Placed, Project, ReadingOptions};
use diagram_program::geometry::{COLUMNS, PLACES, ROWS};
use std::alloc::{AllocError, Global};

/// The elements of a rung, and which of them are drawn: those that mean something, and that power can come to.
#[derive(Clone, Copy)]
pub(crate) struct DrawnRung<'a> {
    pub(crate) reading: ReadingOptions,
    /// The number of its rung in the program.
    pub(crate) rung: u32,
    pub(crate) placed: &'a Placed<'a>,
    pub(crate) elements: &'a [Element],
    drawn: [bool; PLACES],
}

/// Whether nothing is drawn for an element that means this.
fn is_blank(meaning: Meaning) -> bool {
    match meaning {
        Meaning::Blank | Meaning::Operate => true,
        Meaning::Wire
        | Meaning::Contact(_)
        | Meaning::Opened(_)
        | Meaning::Coil(_)
        | Meaning::Jump
        | Meaning::Block(_)
        | Meaning::Off
        | Meaning::Other => false,
    }
}

/// A rung with its elements, and which of them are drawn: those that power can reach.
fn sheet_of<'a>(reading: ReadingOptions, rung: u32, placed: &'a Placed<'a>) -> DrawnRung<'a> {
    let elements = placed.rung.elements.as_slice();
    let power = power_of(reading, elements);
    let mut drawn = [false; PLACES];
    for place in 0..PLACES {
        let (row, column) = (place / COLUMNS, place % COLUMNS);
        drawn[place] = power[column][row] && !is_blank(meaning_at(reading, elements, row, column));
    }
    DrawnRung {
        reading,
        rung,
        placed,
        elements,
        drawn,
    }
}

/// A sheet for each rung, in the order of the scan.
pub(crate) fn sheets_of<'a>(
    alloc: Global,
    reading: ReadingOptions,
    project: &'a Project<'_>,
) -> Result<Vec<DrawnRung<'a>>, AllocError> {
    let mut sheets = Vec::new(alloc);
    let mut rung = 0u32;
    for placed in &project.rungs {
        rung = rung.saturating_add(1);
        sheets.push(sheet_of(reading, rung, placed))?;
    }
    Ok(sheets)
}

impl DrawnRung<'_> {
    /// What the element at a place means, as the project is read.
    pub(crate) fn meaning(&self, row: usize, column: usize) -> Meaning
        requires { (row < ROWS) × (column < COLUMNS) }
    {
        meaning_at(self.reading, self.elements, row, column)
    }

    /// Whether the element at a place is drawn: power can reach it, and a cell has its meaning.
    pub(crate) fn is_drawn(&self, row: usize, column: usize) -> bool
        requires { (row < ROWS) × (column < COLUMNS) }
    {
        self.drawn[COLUMNS * row + column]
    }

    /// Whether power can leave a drawn element on the left of the column.
    pub(crate) fn is_left(&self, row: usize, column: usize) -> bool
        requires { (row < ROWS) × (column < COLUMNS) }
    {
        column >= 1 && self.is_drawn(row, column - 1) && passes(self.meaning(row, column - 1))
    }

    /// The block whose element is drawn at a place.
    pub(crate) fn block_at(&self, row: usize, column: usize) -> Option<BlockRef>
        requires { (row < ROWS) × (column < COLUMNS) }
    {
        if !self.is_drawn(row, column) {
            return None;
        }
        let number = element_at(self.elements, row, column).number;
        match self.meaning(row, column) {
            Meaning::Block(sort) => Some(BlockRef { sort, number }),
            _ => None,
        }
    }

    /// Whether a block is drawn somewhere in the rung.
    pub(crate) fn has_block(&self, block: BlockRef) -> bool {
        for place in 0..PLACES {
            if self.block_at(place / COLUMNS, place % COLUMNS) == Some(block) {
                return true;
            }
        }
        false
    }

    /// Whether a place is drawn or passes power on from the left.
    fn is_used(&self, row: usize, column: usize) -> bool
        requires { (row < ROWS) × (column < COLUMNS) }
    {
        self.is_drawn(row, column) || self.is_left(row, column)
    }

    /// Whether a row from this one down, which links join, uses the joint.
    fn is_used_below(&self, row: usize, column: usize) -> bool
        requires { (row < ROWS) × (column < COLUMNS) }
    {
        for lower in row..ROWS {
            if self.is_used(lower, column) {
                return true;
            }
            if !is_linked(self.elements, lower + 1, column) {
                return false;
            }
        }
        false
    }

    /// Whether a row above this one, which links join, uses the joint.
    fn is_used_above(&self, row: usize, column: usize) -> bool
        requires { (row < ROWS) × (column < COLUMNS) }
    {
        for up in 0..row {
            let upper = row - up - 1;
            if self.is_used(upper, column) {
                return true;
            }
            if !is_linked(self.elements, upper, column) {
                return false;
            }
        }
        false
    }

    /// Whether a link is drawn from the row to the one above it.
    pub(crate) fn has_link(&self, row: usize, column: usize) -> bool
        requires { (row ≤ ROWS) × (column < COLUMNS) }
    {
        row >= 1
            && row < ROWS
            && column >= 1
            && is_linked(self.elements, row, column)
            && self.is_used_below(row, column)
            && self.is_used_above(row, column)
    }

    /// How many rows of the rung are drawn, at least one.
    pub(crate) fn rows(&self) -> usize {
        let mut rows = 1;
        for row in 0..ROWS {
            for column in 0..COLUMNS {
                if self.is_drawn(row, column) {
                    rows = row + 1;
                }
            }
        }
        rows
    }
}
