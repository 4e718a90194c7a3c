//! How power goes through the elements of a rung.

ghost use Rattle.std.specs.Prelude.{◌↔◌, ◌-◌, ◌<◌, ◌≤◌, IsTrue};
ghost use Rattle.diagram_program.specs.declared.geometry.TheConstants.{COLUMNS, ROWS};
ghost use Rattle.clp_meaning.specs.Reach.{AreReached, IsPower};
ghost use Rattle.clp_meaning.specs.Sheets.{AreTied, IsFed, IsRun, Leaves, Passes, Reached};

use crate::meaning::Meaning;
use crate::sheet::{is_linked, is_running, meaning_at};
use clp_project::{Element, ReadingOptions};
use diagram_program::geometry::{COLUMNS, ROWS};

/// For each column to which of its rows power can come.
pub type Power = [[bool; ROWS]; COLUMNS];

/// Whether power gets through an element with this meaning.
pub fn passes(meaning: Meaning) -> bool
    ensures { IsTrue result ↔ Passes meaning }
{
    match meaning {
        Meaning::Wire
        | Meaning::Contact(_)
        | Meaning::Opened(_)
        | Meaning::Block(_)
        | Meaning::Off => true,
        Meaning::Blank | Meaning::Coil(_) | Meaning::Jump | Meaning::Operate | Meaning::Other =>
            false,
    }
}

/// Whether links join the two rows, on the left of the column.
fn are_tied(elements: &[Element], row: usize, column: usize, from: usize) -> bool
    requires rows { (row < ROWS) × (from < ROWS) }
    requires columns { column < COLUMNS }
    ensures { IsTrue result ↔ AreTied elements.now row column from }
{
    for upper in row.min(from)..row.max(from) {
        if !is_linked(elements, upper + 1, column) {
            return false;
        }
    }
    true
}

/// Whether power can leave the place on its right; `here`: where it can come to in the column.
fn leaves(
    reading: ReadingOptions,
    elements: &[Element],
    row: usize,
    column: usize,
    here: &[bool; ROWS],
) -> bool
    requires places { (row < ROWS) × (column < COLUMNS) }
    requires here { AreReached reading elements.now column here.now }
    ensures { IsTrue result ↔ Leaves reading elements.now row column (Reached reading elements.now column row) (Reached reading elements.now column (row - 1)) }
{
    passes(meaning_at(reading, elements, row, column)) && here[row]
        || is_running(elements, row, column) && here[row - 1]
}

/// Whether power can come to the left of the element from the row; `before`: where it can come to in the column before.
#[tactic(auto, unfolding(crate::specs::Sheets::IsFed))]
pub fn fed(
    reading: ReadingOptions,
    elements: &[Element],
    row: usize,
    column: usize,
    from: usize,
    before: &[bool; ROWS],
) -> bool
    requires rows { (row < ROWS) × (from < ROWS) }
    requires columns { column < COLUMNS }
    requires before { AreReached reading elements.now (column - 1) before.now }
    ensures { IsTrue result ↔ IsFed reading elements.now row column from }
{
    column >= 1
        && are_tied(elements, row, column, from)
        && leaves(reading, elements, from, column - 1, before)
}

/// Whether power can come to the row in the column; `before`: where it can come to in the column before.
fn reaches(
    reading: ReadingOptions,
    elements: &[Element],
    row: usize,
    column: usize,
    before: &[bool; ROWS],
) -> bool
    requires rows { row < ROWS }
    requires columns { (1 ≤ column) × (column < COLUMNS) }
    requires before { AreReached reading elements.now (column - 1) before.now }
    ensures { IsTrue result ↔ Reached reading elements.now column row }
{
    for from in 0..ROWS {
        if fed(reading, elements, row, column, from, before) {
            return true;
        }
    }
    false
}

/// Which rows of a column power can reach from the column before.
fn reached_in(
    reading: ReadingOptions,
    elements: &[Element],
    column: usize,
    before: &[bool; ROWS],
) -> [bool; ROWS]
    requires columns { (1 ≤ column) × (column < COLUMNS) }
    requires before { AreReached reading elements.now (column - 1) before.now }
    ensures { AreReached reading elements.now column result }
{
    let mut reached = [false; ROWS];
    for row in 0..ROWS {
        reached[row] = reaches(reading, elements, row, column, before);
    }
    reached
}

/// Where power can come to, found column by column.
pub fn power_of(reading: ReadingOptions, elements: &[Element]) -> Power
    ensures { IsPower reading elements.now result }
{
    let mut power = [[true; ROWS]; COLUMNS];
    for column in 1..COLUMNS {
        power[column] = reached_in(reading, elements, column, &power[column - 1]);
    }
    power
}

/// Whether power comes to the element from the second output of an old timer.
#[tactic(auto, unfolding(crate::specs::Sheets::IsRun, crate::specs::Sheets::IsFed))]
pub fn is_run_by_any(
    reading: ReadingOptions,
    elements: &[Element],
    power: &Power,
    row: usize,
    column: usize,
) -> bool
    requires rows { row < ROWS }
    requires columns { column < COLUMNS }
    requires power { IsPower reading elements.now power.now }
    ensures { IsTrue result ↔ IsRun reading elements.now row column }
{
    if column == 0 {
        return false;
    }
    let before = &power[column - 1];
    for from in 0..ROWS {
        if is_running(elements, from, column - 1)
            && fed(reading, elements, row, column, from, before)
        {
            return true;
        }
    }
    false
}
