//! The elements of a rung, and where they may be.

ghost use Rattle.std.specs.Prelude.{◌≡◌, ◌↔◌, ◌<◌, ◌≤◌, IsTrue};
ghost use Rattle.diagram_program.specs.declared.geometry.TheConstants.{COLUMNS, ROWS, PLACES};
ghost use Rattle.clp_meaning.specs.Sheets.{EndsRung, HasPlaces, HasRow, IsContact, IsDrawnBefore, IsEffect, IsIdle, IsLinked, IsRunning, IsTakenOn, IsTied, ReadsLate, Stands, element_at, is_blank_at, is_block, is_left_half, is_uncontrolled, meaning_at};

use crate::meaning::{BlockSort, ClpOperand, Meaning, element_meaning, meaning_of, source_of};
use clp_project::{Element, ReadingOptions};
use diagram_program::CoilMode;
use diagram_program::geometry::{COLUMNS, ROWS};

const BLANK: Element = Element {
    kind: 0,
    link: 0,
    class: 0,
    number: 0,
};

/// The element at a place; past the last column is nothing.
#[tactic(auto, unfolding(crate::specs::Sheets::element_at))]
pub fn element_at(elements: &[Element], row: usize, column: usize) -> Element
    requires { row ≤ ROWS }
    ensures { result ≡ element_at elements.now row column }
{
    if column >= COLUMNS {
        return BLANK;
    }
    let place = COLUMNS * row + column;
    if place < elements.len() {
        elements[place]
    } else {
        BLANK
    }
}

/// Whether nothing is drawn at a place: kinds from 99 on only fill the room of a block.
fn is_blank_at(elements: &[Element], row: usize, column: usize) -> bool
    requires { row ≤ ROWS }
    ensures { result ≡ is_blank_at elements.now row column }
{
    let kind = element_at(elements, row, column).kind;
    kind == 0 || kind >= 99
}

/// Whether the row and the one above it are joined on the left of the column.
pub fn is_linked(elements: &[Element], row: usize, column: usize) -> bool
    requires { (row ≤ ROWS) × (column < COLUMNS) }
    ensures { IsTrue result ↔ IsLinked elements.now row column }
{
    element_at(elements, row, column).link != 0
}

/// Whether an element is a block, as a timer or a counter.
pub fn is_block(meaning: Meaning) -> bool
    ensures { result ≡ is_block meaning }
{
    meaning.block().is_some()
}

/// Whether the place is a part of an element whose place is to the right.
#[tactic(auto, unfolding(crate::specs::Sheets::is_left_half))]
fn is_left_half(reading: ReadingOptions, elements: &[Element], row: usize, column: usize) -> bool
    requires { (row ≤ ROWS) × (column < COLUMNS) }
    ensures { result ≡ is_left_half reading elements.now row column }
{
    let next = element_at(elements, row, column + 1).kind;
    is_block(meaning_of(next))
        || reading.opened && (next == 20 || element_at(elements, row, column + 2).kind == 20)
}

/// Whether the second output of an old timer is there.
pub(crate) fn is_running(elements: &[Element], row: usize, column: usize) -> bool
    requires { (row ≤ ROWS) × (column < COLUMNS) }
    ensures { IsTrue result ↔ IsRunning elements.now row column }
{
    row >= 1 && element_at(elements, row - 1, column).kind == 10
}

/// Whether nothing is drawn to the second input of an old timer.
#[tactic(auto, unfolding(crate::specs::Sheets::is_uncontrolled))]
fn is_uncontrolled(reading: ReadingOptions, elements: &[Element], row: usize, column: usize) -> bool
    requires { (row ≤ ROWS) × (column < COLUMNS) }
    ensures { result ≡ is_uncontrolled reading elements.now row column }
{
    column >= 2
        && row + 1 < ROWS
        && !is_linked(elements, row + 1, column - 1)
        && !is_linked(elements, row + 2, column - 1)
        && is_blank_at(elements, row + 1, column - 2)
        && !is_left_half(reading, elements, row + 1, column - 2)
        && element_at(elements, row, column - 2).kind != 10
}

/// Whether the second input of an old timer is taken as ON.
pub fn is_taken_on(reading: ReadingOptions, elements: &[Element], row: usize, column: usize) -> bool
    requires { (row ≤ ROWS) × (column < COLUMNS) }
    ensures { IsTrue result ↔ IsTakenOn reading elements.now row column }
{
    reading.control_on && is_uncontrolled(reading, elements, row, column)
}

/// What the element at a place means, with the elements around it considered.
#[tactic(auto, unfolding(crate::specs::Sheets::meaning_at))]
pub fn meaning_at(
    reading: ReadingOptions,
    elements: &[Element],
    row: usize,
    column: usize,
) -> Meaning
    requires { (row ≤ ROWS) × (column < COLUMNS) }
    ensures { result ≡ meaning_at reading elements.now row column }
{
    let element = element_at(elements, row, column);
    if is_left_half(reading, elements, row, column) {
        if is_blank_at(elements, row, column) {
            Meaning::Wire
        } else {
            Meaning::Other
        }
    } else if element.kind == 10
        && !reading.control_on
        && is_uncontrolled(reading, elements, row, column)
    {
        Meaning::Off
    } else {
        element_meaning(reading, element)
    }
}

/// Whether an element does something with the power that it gets: a coil writes, a jump leaves the rung.
fn is_effect(meaning: Meaning) -> bool
    ensures { IsTrue result ↔ IsEffect meaning }
{
    match meaning {
        Meaning::Coil(_) | Meaning::Jump => true,
        Meaning::Blank
        | Meaning::Wire
        | Meaning::Contact(_)
        | Meaning::Opened(_)
        | Meaning::Block(_)
        | Meaning::Off
        | Meaning::Operate
        | Meaning::Other => false,
    }
}

/// Whether nothing that writes or leads out of the rung is below.
#[tactic(auto, unfolding(crate::specs::Sheets::EndsRung))]
pub fn ends_rung(reading: ReadingOptions, elements: &[Element], row: usize, column: usize) -> bool
    requires { (row < ROWS) × (column < COLUMNS) }
    ensures { IsTrue result ↔ EndsRung reading elements.now row column }
{
    for lower in row + 1..ROWS {
        if is_effect(meaning_at(reading, elements, lower, column)) {
            return false;
        }
    }
    true
}

/// Whether the second input of an old timer lets its time pass while the first is ON.
fn is_tied(reading: ReadingOptions, elements: &[Element], row: usize, column: usize) -> bool
    requires { (row < ROWS) × (1 ≤ column) × (column < COLUMNS) }
    ensures { IsTrue result ↔ IsTied reading elements.now row column }
{
    column == 1
        || is_linked(elements, row + 1, column - 1)
        || is_taken_on(reading, elements, row, column)
}

/// Whether a block has the four places that it needs to itself.
#[tactic(auto, unfolding(crate::specs::Sheets::HasPlaces))]
pub fn has_places(reading: ReadingOptions, elements: &[Element], row: usize, column: usize) -> bool
    requires { (row < ROWS) × (column < COLUMNS) }
    ensures { IsTrue result ↔ HasPlaces reading elements.now row column }
{
    column >= 1
        && row + 1 < ROWS
        && !is_linked(elements, row, column)
        && !is_linked(elements, row + 1, column)
        && is_blank_at(elements, row + 1, column - 1)
        && is_blank_at(elements, row + 1, column)
        && !is_left_half(reading, elements, row + 1, column)
}

/// Whether a compare has the three places that it needs to itself.
fn has_row(elements: &[Element], row: usize, column: usize) -> bool
    requires { (row < ROWS) × (column < COLUMNS) }
    ensures { IsTrue result ↔ HasRow elements.now row column }
{
    column >= 2
        && !is_linked(elements, row, column)
        && !is_linked(elements, row, column - 1)
        && !is_linked(elements, row + 1, column)
        && !is_linked(elements, row + 1, column - 1)
}

/// Whether the element is in a place where it means the same in a program.
#[tactic(auto, unfolding(crate::specs::Sheets::Stands, crate::specs::Sheets::HasPlaces))]
pub fn stands(reading: ReadingOptions, elements: &[Element], row: usize, column: usize) -> bool
    requires { (row < ROWS) × (column < COLUMNS) }
    ensures { IsTrue result ↔ Stands reading elements.now row column }
{
    match meaning_at(reading, elements, row, column) {
        Meaning::Contact(_) => column + 1 < COLUMNS,
        Meaning::Opened(_) => {
            column + 1 < COLUMNS
                && (element_at(elements, row, column).kind != 20 || has_row(elements, row, column))
        }
        Meaning::Coil(_) | Meaning::Operate => column + 1 == COLUMNS,
        Meaning::Jump => column + 1 == COLUMNS && ends_rung(reading, elements, row, column),
        Meaning::Block(sort) => {
            has_places(reading, elements, row, column)
                && (sort != BlockSort::Timer || is_tied(reading, elements, row, column))
        }
        Meaning::Off => has_places(reading, elements, row, column) && column + 1 < COLUMNS,
        Meaning::Blank | Meaning::Wire | Meaning::Other => true,
    }
}

/// Whether an element is a contact that reads a bit.
pub fn is_contact(meaning: Meaning) -> bool
    ensures { IsTrue result ↔ IsContact meaning }
{
    meaning.contact().is_some()
}

/// Whether the block is at one of the first places, by column and row.
fn is_drawn_before(
    reading: ReadingOptions,
    elements: &[Element],
    sort: BlockSort,
    number: u32,
    count: usize,
) -> bool
    requires { count ≤ PLACES }
    ensures { IsTrue result ↔ IsDrawnBefore reading elements.now sort number count }
{
    for place in 0..count {
        let (row, column) = (place % ROWS, place / ROWS);
        if meaning_at(reading, elements, row, column) == Meaning::Block(sort)
            && element_at(elements, row, column).number == number
        {
            return true;
        }
    }
    false
}

/// Whether a contact reads a block that comes before it in its rung.
#[tactic(auto, unfolding(crate::specs::Sheets::ReadsLate))]
pub fn reads_late(reading: ReadingOptions, elements: &[Element], row: usize, column: usize) -> bool
    requires { (row < ROWS) × (column < COLUMNS) }
    ensures { IsTrue result ↔ ReadsLate reading elements.now row column }
{
    if !is_contact(meaning_at(reading, elements, row, column)) {
        return false;
    }
    let reader = element_at(elements, row, column);
    match source_of(reader.class) {
        ClpOperand::Done(sort) => {
            let place = ROWS * column + row;
            is_drawn_before(reading, elements, sort, reader.number, place)
        }
        ClpOperand::Input | ClpOperand::Output | ClpOperand::Memory | ClpOperand::Other => false,
    }
}

/// Whether the element does nothing where no power comes.
pub fn is_idle(meaning: Meaning) -> bool
    ensures { IsTrue result ↔ IsIdle meaning }
{
    match meaning.coil() {
        Some(CoilMode::Set | CoilMode::Reset) => true,
        Some(CoilMode::Store | CoilMode::Inverse | CoilMode::Rising | CoilMode::Falling) => false,
        None => meaning != Meaning::Other,
    }
}
