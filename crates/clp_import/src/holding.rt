//! Whether a reason holds of an element.

ghost use Rattle.std.specs.Prelude.{◌≡◌, ◌↔◌, ◌+◌, ◌*◌, ◌<◌, IsTrue, ℕ};
ghost use Rattle.diagram_program.specs.declared.geometry.TheConstants.{COLUMNS, PLACES, ROWS};
ghost use Rattle.clp_meaning.specs.Carried.{IsTarget};
ghost use Rattle.clp_import.specs.Refusals.{HasAddress, HasLater, HasNoRefusedKind, HasPreset, Holds, IsAboveEffect, IsCoil, IsDrawn, IsDrawnElsewhere, IsDrawnTwice, IsOutOfPlace, IsRefusedKind, IsRefusedOperate, IsOtherClass, IsSwitched, IsUnpowered, IsVariable, IsWritable, LacksPlaces, LacksPreset};
ghost use Rattle.clp_meaning.specs.Sheets.{IsRun, meaning_at};

use crate::reason::Reason;
use clp_meaning::{
    BlockRef, BlockSort, ClpOperand, Meaning, element_at, ends_rung, entry_of, has_places,
    is_block, is_contact, is_idle, is_run_by_any, meaning_at, meaning_of, power_of, reads_late,
    source_of, stands, timed_as,
};
use clp_project::{Element, Placed, Project, ReadingOptions, writes_number};
use diagram_program::geometry::{COLUMNS, PLACES};

/// Whether an element is a coil of any mode.
fn is_coil(meaning: Meaning) -> bool
    ensures { IsTrue result ↔ IsCoil meaning }
{
    meaning.coil().is_some()
}

/// Whether a coil may write a variable of this sort.
fn is_writable(source: ClpOperand) -> bool
    ensures { IsTrue result ↔ IsWritable source }
{
    match source {
        ClpOperand::Output | ClpOperand::Memory => true,
        ClpOperand::Input | ClpOperand::Done(_) | ClpOperand::Other => false,
    }
}

/// Whether an element reads an input, an output or a memory of ClassicLadder, and no output of a block.
fn is_variable(source: ClpOperand) -> bool
    ensures { IsTrue result ↔ IsVariable source }
{
    match source {
        ClpOperand::Input | ClpOperand::Output | ClpOperand::Memory => true,
        ClpOperand::Done(_) | ClpOperand::Other => false,
    }
}

/// Whether the number of an element is part of an address, or of a label, in a program.
fn has_address(meaning: Meaning, source: ClpOperand) -> bool
    ensures { IsTrue result ↔ HasAddress meaning source }
{
    match meaning {
        Meaning::Contact(_) => is_variable(source),
        Meaning::Coil(_) => is_writable(source),
        Meaning::Opened(_) | Meaning::Jump => true,
        Meaning::Blank
        | Meaning::Wire
        | Meaning::Block(_)
        | Meaning::Off
        | Meaning::Operate
        | Meaning::Other => false,
    }
}

/// Whether an operate isn't opened, or may write something else than a number.
fn is_refused_operate(reading: ReadingOptions, project: &Project<'_>, element: Element) -> bool
    ensures { IsTrue result ↔ IsRefusedOperate reading project.now element }
{
    element.kind == 60 && (!reading.opened || !writes_number(&project.expressions, element.number))
}

/// Whether the kind alone keeps the element from being carried over.
#[tactic(auto, unfolding(crate::specs::Refusals::IsRefusedKind))]
fn is_refused_kind(reading: ReadingOptions, project: &Project<'_>, element: Element) -> bool
    ensures { IsTrue result ↔ IsRefusedKind reading project.now element }
{
    element.kind == 12
        || element.kind == 55
        || element.kind == 20 && !reading.opened
        || is_refused_operate(reading, project, element)
}

/// Whether no element is of a kind that can't be carried over. Where power comes from there isn't known, so that others
/// after it may have it.
#[tactic(auto, unfolding(crate::specs::Refusals::HasNoRefusedKind))]
pub(crate) fn has_no_refused_kind(
    reading: ReadingOptions,
    project: &Project<'_>,
    mut elements: &[Element],
) -> bool
    ensures { IsTrue result ↔ HasNoRefusedKind reading project.now elements.entry.now }
{
    while let [element, rest @ ..] = elements {
        if is_refused_kind(reading, project, *element) {
            return false;
        }
        elements = rest;
    }
    true
}

/// Whether an element is in a column where it means something else in a program, or is a compare without its places.
#[tactic(auto, unfolding(clp_meaning::specs::Sheets::Stands))]
fn is_out_of_place(reading: ReadingOptions, elements: &[Element], row: usize, column: usize) -> bool
    requires { (row < ROWS) × (column < COLUMNS) }
    ensures { IsTrue result ↔ IsOutOfPlace elements.now row column (meaning_at reading elements.now row column) }
{
    match meaning_at(reading, elements, row, column) {
        Meaning::Contact(_) | Meaning::Off => column + 1 >= COLUMNS,
        Meaning::Opened(_) => {
            column + 1 >= COLUMNS
                || element_at(elements, row, column).kind == 20
                    && !stands(reading, elements, row, column)
        }
        Meaning::Coil(_) | Meaning::Operate | Meaning::Jump => column + 1 != COLUMNS,
        Meaning::Blank | Meaning::Wire | Meaning::Block(_) | Meaning::Other => false,
    }
}

/// Whether an element is a jump with something below it, in its column, that writes or jumps.
fn is_above_effect(reading: ReadingOptions, elements: &[Element], row: usize, column: usize) -> bool
    requires { (row < ROWS) × (column < COLUMNS) }
    ensures { IsTrue result ↔ IsAboveEffect reading elements.now row column }
{
    meaning_at(reading, elements, row, column) == Meaning::Jump
        && column + 1 == COLUMNS
        && !ends_rung(reading, elements, row, column)
}

/// Whether an element is an old timer with a control of its own, which no block has.
#[tactic(auto, unfolding(clp_meaning::specs::Sheets::Stands))]
fn is_switched(reading: ReadingOptions, elements: &[Element], row: usize, column: usize) -> bool
    requires { (row < ROWS) × (column < COLUMNS) }
    ensures { IsTrue result ↔ IsSwitched reading elements.now row column }
{
    meaning_at(reading, elements, row, column) == Meaning::Block(BlockSort::Timer)
        && has_places(reading, elements, row, column)
        && !stands(reading, elements, row, column)
}

/// Whether an element is a coil that writes though no power can come to it.
fn is_unpowered(
    reading: ReadingOptions,
    project: &Project<'_>,
    elements: &[Element],
    row: usize,
    column: usize,
) -> bool
    requires { (row < ROWS) × (column < COLUMNS) }
    ensures { IsTrue result ↔ IsUnpowered reading project.now elements.now row column }
{
    let meaning = meaning_at(reading, elements, row, column);
    is_coil(meaning)
        && !is_idle(meaning)
        && !power_of(reading, elements)[column][row]
        && has_no_refused_kind(reading, project, elements)
}

/// Whether the block has a kind and a preset that a program can have.
pub(crate) fn has_preset(project: &Project<'_>, sort: BlockSort, number: u32) -> bool
    ensures { IsTrue result ↔ HasPreset project.now sort number }
{
    match timed_as(sort, entry_of(project, sort, number as usize)) {
        Some(timed) => timed.preset <= u64::from(u32::MAX),
        None => false,
    }
}

/// Whether an element is a block without a kind and a preset that a program can have.
fn lacks_preset(project: &Project<'_>, meaning: Meaning, number: u32) -> bool
    ensures { IsTrue result ↔ LacksPreset project.now meaning number }
{
    match meaning.block() {
        Some(sort) => !has_preset(project, sort, number),
        None => false,
    }
}

/// Whether the block is drawn at the place of a rung.
fn is_drawn(reading: ReadingOptions, block: BlockRef, elements: &[Element], place: usize) -> bool
    requires { place < PLACES }
    ensures { IsTrue result ↔ IsDrawn reading block elements.now place }
{
    let (row, column) = (place / COLUMNS, place % COLUMNS);
    element_at(elements, row, column).number == block.number
        && meaning_at(reading, elements, row, column) == Meaning::Block(block.sort)
        && power_of(reading, elements)[column][row]
}

/// Whether the block is drawn in a rung, at another place than this one.
fn is_drawn_beside(
    reading: ReadingOptions,
    block: BlockRef,
    elements: &[Element],
    except: usize,
) -> bool
    ensures { IsTrue result ↔ (i : ℕ) × (i < PLACES) × ¬ (i ≡ except) × IsDrawn reading block elements.now i }
{
    for place in 0..PLACES {
        if place != except && is_drawn(reading, block, elements, place) {
            return true;
        }
    }
    false
}

/// Whether the block is drawn in a rung of the project, in this one at another place than this.
fn is_drawn_elsewhere(
    reading: ReadingOptions,
    rungs: &[Placed<'_>],
    block: BlockRef,
    rung: usize,
    place: usize,
) -> bool
    requires { place < PLACES }
    ensures { IsTrue result ↔ IsDrawnElsewhere reading rungs.now block rung place }
{
    for other in 0..rungs.len() {
        let except = if other == rung { place } else { PLACES };
        if is_drawn_beside(
            reading,
            block,
            rungs[other].rung.elements.as_slice(),
            except,
        ) {
            return true;
        }
    }
    false
}

/// Whether the block whose element this is, is drawn at another place too.
fn is_drawn_twice(
    reading: ReadingOptions,
    rungs: &[Placed<'_>],
    meaning: Meaning,
    number: u32,
    rung: usize,
    place: usize,
) -> bool
    requires { place < PLACES }
    ensures { IsTrue result ↔ IsDrawnTwice reading rungs.now meaning number rung place }
{
    let sort = match meaning.block() {
        Some(sort) => sort,
        None if meaning == Meaning::Off => BlockSort::Timer,
        None => return false,
    };
    is_drawn_elsewhere(reading, rungs, BlockRef { sort, number }, rung, place)
}

/// Whether the rung at the place `target` of the scan is that of the section with this number.
fn is_target(rungs: &[Placed<'_>], section: u32, number: u32, target: usize) -> bool
    ensures { IsTrue result ↔ IsTarget rungs.now section number target }
{
    match rungs.get(target) {
        Some(placed) => placed.rung.number == number && placed.section == section,
        None => false,
    }
}

/// Whether a later rung of the section has the number.
pub(crate) fn has_later(rungs: &[Placed<'_>], rung: usize, section: u32, number: u32) -> bool
    ensures { IsTrue result ↔ HasLater rungs.now rung section number }
{
    for later in rung..rungs.len() {
        if later > rung && is_target(rungs, section, number, later) {
            return true;
        }
    }
    false
}

/// Whether a variable of this class is none that a program or another reason knows.
fn is_other(class: u32) -> bool
    ensures { IsTrue result ↔ IsOtherClass class }
{
    source_of(class) == ClpOperand::Other && class != 30 && class != 11
}

/// Whether an element is a block without its four places.
fn lacks_places(reading: ReadingOptions, elements: &[Element], row: usize, column: usize) -> bool
    requires { (row < ROWS) × (column < COLUMNS) }
    ensures { IsTrue result ↔ LacksPlaces reading elements.now row column }
{
    is_block(meaning_of(element_at(elements, row, column).kind))
        && !has_places(reading, elements, row, column)
}

/// Whether power comes to an element from the second output of an old timer.
fn is_run(reading: ReadingOptions, elements: &[Element], row: usize, column: usize) -> bool
    requires { (row < ROWS) × (column < COLUMNS) }
    ensures { IsTrue result ↔ IsRun reading elements.now row column }
{
    is_run_by_any(reading, elements, &power_of(reading, elements), row, column)
}

/// Whether a reason against carrying over holds of the element at a place of a rung; `rung` is the rung's number in the scan.
#[tactic(auto, unfolding(crate::specs::Refusals::Holds))]
pub(crate) fn holds(
    reading: ReadingOptions,
    project: &Project<'_>,
    rung: usize,
    placed: &Placed<'_>,
    row: usize,
    column: usize,
    reason: Reason,
) -> bool
    requires { (row < ROWS) × (column < COLUMNS) }
    ensures { IsTrue result ↔ Holds reading project.now rung placed.now reason row column }
{
    let elements = placed.rung.elements.as_slice();
    let place = COLUMNS * row + column;
    let element = element_at(elements, row, column);
    let number = element.number;
    let meaning = meaning_at(reading, elements, row, column);
    let source = source_of(element.class);
    match reason {
        Reason::Counter => element.kind == 12,
        Reason::Compare => element.kind == 20 && !reading.opened,
        Reason::Operate => is_refused_operate(reading, project, element),
        Reason::Call => element.kind == 55,
        Reason::Unknown => {
            meaning == Meaning::Other && !is_refused_kind(reading, project, element)
        }
        Reason::Step => is_contact(meaning) && element.class == 30,
        Reason::RunningContact => is_contact(meaning) && element.class == 11,
        Reason::OtherContact => is_contact(meaning) && is_other(element.class),
        Reason::WritesInput => is_coil(meaning) && source == ClpOperand::Input,
        Reason::OtherCoil => is_coil(meaning) && !is_variable(source),
        Reason::LargeNumber => number > 99999 && has_address(meaning, source),
        Reason::OutOfPlace => is_out_of_place(reading, elements, row, column),
        Reason::BelowJump => is_above_effect(reading, elements, row, column),
        Reason::BlockPlaces => lacks_places(reading, elements, row, column),
        Reason::Switched => is_switched(reading, elements, row, column),
        Reason::NoPreset => lacks_preset(project, meaning, number),
        Reason::Twice => is_drawn_twice(reading, &project.rungs, meaning, number, rung, place),
        Reason::ReadsLate => reads_late(reading, elements, row, column),
        Reason::NoPower => is_unpowered(reading, project, elements, row, column),
        Reason::Running => is_run(reading, elements, row, column),
        Reason::Elsewhere => {
            meaning == Meaning::Jump && !has_later(&project.rungs, rung, placed.section, number)
        }
    }
}
