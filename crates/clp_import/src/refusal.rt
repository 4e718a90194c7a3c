//! The elements that can't be carried over.

ghost use Rattle.std.specs.Prelude.{◌<◌, IfSome, All, IfOk};
ghost use Rattle.diagram_program.specs.declared.geometry.TheConstants.{COLUMNS, ROWS};
ghost use Rattle.clp_meaning.specs.Reach.{IsPower};
ghost use Rattle.clp_import.specs.Refusals.{IsThere};

use crate::holding::{has_later, has_no_refused_kind, has_preset, holds};
use crate::reason::Reason;
use clp_drawing::blocks_of;
use clp_meaning::{
    BlockRef, BlockSort, ClpOperand, Meaning, Power, element_at, has_places, is_idle,
    is_run_by_any, meaning_at, power_of, reads_late, source_of, stands,
};
use clp_project::{Element, Project, ReadingOptions, writes_number};
use diagram_program::geometry::{COLUMNS, PLACES};
use std::alloc::{AllocError, Global};

/// An element that can't be carried over. Rows and columns are counted from 1.
#[derive(Clone, Copy)]
pub struct Refusal {
    pub rung: u32,
    pub row: usize,
    pub column: usize,
    pub reason: Reason,
}

/// Where an element is: in which rung of the project, and in which row and column of it.
#[derive(Clone, Copy)]
struct Spot {
    rung: usize,
    row: usize,
    column: usize,
    ghost rows: { row < ROWS },
    ghost columns: { column < COLUMNS },
}

/// The refusal of an element for a reason, if the reason holds.
fn refused(
    reading: ReadingOptions,
    project: &Project<'_>,
    spot: Spot,
    reason: Reason,
) -> Option<Refusal>
    ensures { IfSome result (λ f. IsThere reading project.now f) }
{
    let Spot { rung, row, column } = spot;
    let Some(placed) = project.rungs.get(rung) else {
        return None;
    };
    if holds(reading, project, rung, placed, row, column, reason) {
        Some(Refusal {
            rung: placed.rung.number,
            row: row + 1,
            column: column + 1,
            reason,
        })
    } else {
        None
    }
}

/// The reason, unless the element can be carried over.
fn unless(carried: bool, reason: Reason) -> Option<Reason> {
    if carried { None } else { Some(reason) }
}

/// The reason against an element by its kind alone.
fn kind_reason(reading: ReadingOptions, project: &Project<'_>, element: Element) -> Option<Reason> {
    match element.kind {
        12 => Some(Reason::Counter),
        20 => unless(reading.opened, Reason::Compare),
        55 => Some(Reason::Call),
        60 => unless(
            reading.opened && writes_number(&project.expressions, element.number),
            Reason::Operate,
        ),
        _ => None,
    }
}

/// The reason against a variable's number of more than five digits.
fn large_number(element: Element) -> Option<Reason> {
    unless(element.number <= 99999, Reason::LargeNumber)
}

/// How often a block is drawn in the project.
fn count_of(blocks: &[BlockRef], sort: BlockSort, number: u32) -> usize {
    let block = BlockRef { sort, number };
    let mut count = 0usize;
    for other in blocks {
        if *other == block {
            count = count.saturating_add(1);
        }
    }
    count
}

/// The reason against a contact, by what it reads.
fn contact_reason(element: Element) -> Option<Reason> {
    match source_of(element.class) {
        ClpOperand::Input | ClpOperand::Output | ClpOperand::Memory => large_number(element),
        ClpOperand::Done(_) => None,
        ClpOperand::Other => {
            if element.class == 30 {
                Some(Reason::Step)
            } else if element.class == 11 {
                Some(Reason::RunningContact)
            } else {
                Some(Reason::OtherContact)
            }
        }
    }
}

/// The reason against a coil: it writes an input, or something that is no variable.
fn coil_reason(element: Element) -> Option<Reason> {
    match source_of(element.class) {
        ClpOperand::Output | ClpOperand::Memory => large_number(element),
        ClpOperand::Input => Some(Reason::WritesInput),
        ClpOperand::Done(_) | ClpOperand::Other => Some(Reason::OtherCoil),
    }
}

/// The reason against a jump: its target isn't below it in the same section.
fn jump_reason(project: &Project<'_>, rung: usize, element: Element) -> Option<Reason> {
    match project.rungs.get(rung) {
        Some(placed) if has_later(&project.rungs, rung, placed.section, element.number) =>
            large_number(element),
        _ => Some(Reason::Elsewhere),
    }
}

/// The reason against a timer: it has no preset, or it is drawn twice.
fn block_reason(
    project: &Project<'_>,
    blocks: &[BlockRef],
    sort: BlockSort,
    element: Element,
) -> Option<Reason> {
    if !has_preset(project, sort, element.number) {
        Some(Reason::NoPreset)
    } else if count_of(blocks, sort, element.number) > 1 {
        Some(Reason::Twice)
    } else {
        None
    }
}

/// The reason against an element by its place in the rung.
fn place_reason(
    reading: ReadingOptions,
    elements: &[Element],
    power: &Power,
    row: usize,
    column: usize,
    meaning: Meaning,
) -> Option<Reason>
    requires rows { row < ROWS }
    requires columns { column < COLUMNS }
    requires power { IsPower reading elements.now power.now }
{
    if stands(reading, elements, row, column) {
        if reads_late(reading, elements, row, column) {
            Some(Reason::ReadsLate)
        } else if is_run_by_any(reading, elements, power, row, column) {
            Some(Reason::Running)
        } else {
            None
        }
    } else {
        match meaning {
            Meaning::Jump if column + 1 == COLUMNS => Some(Reason::BelowJump),
            Meaning::Block(_) if has_places(reading, elements, row, column) => Some(
                Reason::Switched,
            ),
            Meaning::Block(_) => Some(Reason::BlockPlaces),
            Meaning::Off if !has_places(reading, elements, row, column) => Some(
                Reason::BlockPlaces,
            ),
            _ => Some(Reason::OutOfPlace),
        }
    }
}

/// The reason against an element to which power can come, by what it means.
fn drawn_reason(
    project: &Project<'_>,
    blocks: &[BlockRef],
    rung: usize,
    element: Element,
    meaning: Meaning,
) -> Option<Reason> {
    match meaning {
        Meaning::Contact(_) => contact_reason(element),
        Meaning::Opened(_) => large_number(element),
        Meaning::Coil(_) => coil_reason(element),
        Meaning::Jump => jump_reason(project, rung, element),
        Meaning::Block(sort) => block_reason(project, blocks, sort, element),
        Meaning::Other => Some(Reason::Unknown),
        Meaning::Off => {
            if count_of(blocks, BlockSort::Timer, element.number) > 0 {
                Some(Reason::Twice)
            } else {
                None
            }
        }
        Meaning::Blank | Meaning::Wire | Meaning::Operate => None,
    }
}

/// Why the element at a place can't be carried over.
fn reason_at(
    reading: ReadingOptions,
    project: &Project<'_>,
    blocks: &[BlockRef],
    spot: Spot,
    elements: &[Element],
    power: &Power,
) -> Option<Reason>
    requires power { IsPower reading elements.now power.now }
{
    let Spot { rung, row, column } = spot;
    let element = element_at(elements, row, column);
    let meaning = meaning_at(reading, elements, row, column);
    if let Some(reason) = kind_reason(reading, project, element) {
        return Some(reason);
    }
    if meaning == Meaning::Other {
        return Some(Reason::Unknown);
    }
    if meaning == Meaning::Blank {
        return None;
    }
    if !power[column][row] {
        if is_idle(meaning) {
            return None;
        }
        if has_no_refused_kind(reading, project, elements) {
            return Some(Reason::NoPower);
        }
    }
    match drawn_reason(project, blocks, rung, element, meaning) {
        Some(reason) => Some(reason),
        None => place_reason(reading, elements, power, row, column, meaning),
    }
}

/// Adds the refusal of the element at a place, if it has one.
fn add_place(
    reading: ReadingOptions,
    project: &Project<'_>,
    blocks: &[BlockRef],
    spot: Spot,
    elements: &[Element],
    power: &Power,
    refusals: &mut Vec<Refusal>,
) -> Result<(), AllocError>
    requires power { IsPower reading elements.now power.now }
    requires before { All (IsThere reading project.now) refusals.old.items }
    ensures { IfOk result (λ _. All (IsThere reading project.now) refusals.new.items) }
{
    match reason_at(reading, project, blocks, spot, elements, power) {
        Some(reason) => match refused(reading, project, spot, reason) {
            Some(refusal) => {
                refusals.push(refusal)?;
                Ok(())
            }
            None => Ok(()),
        },
        None => Ok(()),
    }
}

/// Adds the refusals of a rung, row by row.
fn add_rung(
    reading: ReadingOptions,
    project: &Project<'_>,
    blocks: &[BlockRef],
    rung: usize,
    refusals: &mut Vec<Refusal>,
) -> Result<(), AllocError>
    requires before { All (IsThere reading project.now) refusals.old.items }
    ensures { IfOk result (λ _. All (IsThere reading project.now) refusals.new.items) }
{
    let Some(placed) = project.rungs.get(rung) else {
        return Ok(());
    };
    let elements = placed.rung.elements.as_slice();
    let power = power_of(reading, elements);
    for place in 0..PLACES {
        let spot = Spot {
            rung,
            row: place / COLUMNS,
            column: place % COLUMNS,
        };
        add_place(reading, project, blocks, spot, elements, &power, refusals)?;
    }
    Ok(())
}

/// The elements of a project that can't be carried over, rung by rung and row by row.
///
/// # Errors
///
/// An error when out of memory.
pub fn refusals(
    alloc: Global,
    reading: ReadingOptions,
    project: &Project<'_>,
) -> Result<Vec<Refusal>, AllocError>
    ensures { IfOk result (λ v. All (IsThere reading project.now) v.items) }
{
    let blocks = blocks_of(alloc, reading, project)?;
    let mut refusals = Vec::new(alloc);
    for rung in 0..project.rungs.len() {
        add_rung(reading, project, &blocks, rung, &mut refusals)?;
    }
    Ok(refusals)
}
