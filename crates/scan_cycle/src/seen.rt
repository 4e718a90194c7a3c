//! What is seen of a scan at each place of the drawing.

ghost use Rattle.std.specs.Prelude.{◌≡◌, ◌<◌, ◌≤◌, ◌++◌, length, map, IfOk};
ghost use Rattle.diagram_program.specs.AllPlaces.{first_places};
ghost use Rattle.diagram_program.specs.declared.geometry.TheConstants.{RUNGS, PLACES};
ghost use Rattle.diagram_program.specs.declared.gates.TheConstants.{LINKS};
ghost use Rattle.scan_signals.specs.Truth.{plain};
ghost use Rattle.scan_cycle.specs.Cells.{memory_of};
ghost use Rattle.scan_cycle.specs.Rung.{evaluated, frame_of, SameSizes};
ghost use Rattle.scan_cycle.specs.Scan.{after_scan, next_rung};
ghost use Rattle.scan_cycle.specs.Programs.{diagram_of, IsSound};
ghost use Rattle.scan_cycle.specs.RungByRung.{ArePossible, scanned, shape};
ghost use Rattle.scan_cycle.specs.Gating.{AreLinks};
ghost use Rattle.scan_cycle.specs.Seen.{is_on, lets_through, mark_in, mark_passed, AreMarks};
ghost use Rattle.scan_cycle.specs.Marking.{marks_below};

use crate::gates::{closed, link_at, through_cell};
use crate::image::Image;
use crate::memory::Memory;
use crate::scanning::evaluate;
use crate::scene::{Scene, cell, checked};
use crate::state::State;
use crate::storage::Storage;
use diagram_program::gates::LINKS;
use diagram_program::geometry::PLACES;
use diagram_program::{Cell, Program};
use std::alloc::{AllocError, Global};

/// What is seen at a place of a rung.
#[derive(Clone, Copy, Debug, PartialEq, Eq)]
pub struct Mark {
    /// Whether the rung was evaluated, and not passed over.
    pub evaluated: bool,
    /// The left link, which is the power of the joint on the left.
    pub left: bool,
    /// What the cell lets through.
    pub right: bool,
    /// Whether the contact is closed; whether the variable of the coil, or the output of the block, is ON after the rung.
    pub on: bool,
}

/// What is shown of a cell as being ON: a closed contact, the value of a coil's variable, the output of a block.
fn is_on(closed: bool, after: &Storage, cell: Cell) -> bool
    ensures { result ≡ is_on closed after.now cell }
{
    match cell {
        Cell::Contact { .. } => closed,
        Cell::Coil { var, .. } => after.value(var),
        Cell::Block { inst } => after.stored(inst).q(),
        Cell::Empty | Cell::Wire | Cell::Lower { .. } | Cell::Jump { .. } | Cell::Return => false,
    }
}

/// Adds the marks of the places of a rung that was evaluated.
fn add_seen(
    scene: Scene<'_>,
    before: &Storage,
    start: &Image<bool>,
    links: &[bool],
    after: &Storage,
    marks: &mut Vec<Mark>,
) -> Result<(), AllocError>
    requires rung { scene.rung < scene.program.now.rungs }
    requires program { IsSound (diagram_of scene.program.now) }
    requires start { start.now ≡ frame_of before.now }
    requires links { AreLinks plain scene.program.now before.now.kept scene.now scene.rung (frame_of before.now) links.now }
    requires after { after.now ≡ evaluated (diagram_of scene.program.now) scene.now scene.rung before.now }
    ensures { IfOk result (λ _. marks.new.items ≡ marks.old.items
        ++ first_places (mark_in (diagram_of scene.entry.program.now) scene.entry.now scene.entry.rung before.now) PLACES) }
{
    for place in 0..PLACES {
        let cell = cell(scene.program, scene.rung, place);
        let left = link_at(links, scene.program.left(scene.rung, place) as usize);
        let below = link_at(links, scene.program.below(scene.rung, place) as usize);
        let closed = closed(cell, start, before.memory(cell));
        marks.push(Mark {
            evaluated: true,
            left,
            right: through_cell(scene, before, start, cell, left, below),
            on: is_on(closed, after, cell),
        })?;
    }
    Ok(())
}

/// Adds the marks of the places of a rung that a jump passes over.
fn add_passed(scene: Scene<'_>, held: &Storage, marks: &mut Vec<Mark>) -> Result<(), AllocError>
    requires rung { scene.rung < scene.program.now.rungs }
    ensures { IfOk result (λ _. marks.new.items ≡ marks.old.items
        ++ first_places (λ place. mark_passed held.now ((diagram_of scene.entry.program.now).cell scene.entry.rung place)) PLACES) }
{
    for place in 0..PLACES {
        let cell = cell(scene.program, scene.rung, place);
        marks.push(Mark {
            evaluated: false,
            left: false,
            right: false,
            on: is_on(false, held, cell),
        })?;
    }
    Ok(())
}

/// Evaluates a rung and adds the marks of its places. Returns the rung after it.
fn see_rung(
    alloc: Global,
    scene: Scene<'_>,
    storage: &mut Storage,
    start: &mut Image<bool>,
    links: &mut [bool],
    marks: &mut Vec<Mark>,
) -> Result<usize, Memory>
    requires links { length links.old ≡ LINKS }
    requires rung { scene.rung < scene.program.now.rungs }
    requires few { scene.rung < RUNGS }
    requires program { IsSound (diagram_of scene.program.now) }
    requires sizes { SameSizes start.old storage.old }
    ensures held { IfOk result (λ _. storage.new ≡ evaluated (diagram_of scene.entry.program.now) scene.entry.now scene.entry.rung storage.old) }
    ensures next { IfOk result (λ n. n ≡ next_rung (diagram_of scene.entry.program.now) scene.entry.now scene.entry.rung storage.old) }
    ensures sizes { IfOk result (λ _. SameSizes start.new storage.new) }
    ensures marks { IfOk result (λ _. marks.new.items ≡ marks.old.items
        ++ first_places (mark_in (diagram_of scene.entry.program.now) scene.entry.now scene.entry.rung storage.old) PLACES) }
{
    let before = storage.copy(alloc)?;
    let next = evaluate(scene, storage, start, links);
    add_seen(scene, &before, start, links, storage, marks)?;
    Ok(next)
}

/// Goes from rung to rung, and adds the marks of each.
fn see_rungs(
    alloc: Global,
    program: &Program,
    now: u64,
    storage: &mut Storage,
    start: &mut Image<bool>,
) -> Result<Vec<Mark>, Memory>
    requires program { IsSound (diagram_of program.now) }
    requires sizes { SameSizes start.old storage.old }
    ensures held { IfOk result (λ _. storage.new ≡ (scanned (diagram_of program.now) now storage.old program.now.rungs).held) }
    ensures sizes { IfOk result (λ _. SameSizes start.new storage.new) }
    ensures marks { IfOk result (λ v. v.items ≡ marks_below (diagram_of program.now) now storage.old program.now.rungs) }
{
    let mut marks = Vec::new(alloc);
    let mut links = [false; LINKS];
    let mut resume = 0;
    for rung in 0..program.rungs() {
        let scene = Scene { program, now, rung };
        if resume <= rung {
            resume = see_rung(alloc, scene, storage, start, &mut links, &mut marks)?;
        } else {
            add_passed(scene, storage, &mut marks)?;
        }
    }
    Ok(marks)
}

/// Gives the inputs their values, evaluates the rungs and adds the marks of their places.
fn see_storage(
    alloc: Global,
    program: &Program,
    now: u64,
    inputs: &[bool],
    storage: &mut Storage,
    start: &mut Image<bool>,
) -> Result<Vec<Mark>, Memory>
    requires program { IsSound (diagram_of program.now) }
    requires sizes { SameSizes start.old storage.old }
    ensures held { IfOk result (λ _. storage.new ≡ after_scan (diagram_of program.now) now inputs.now storage.old) }
    ensures sizes { IfOk result (λ _. SameSizes start.new storage.new) }
    ensures shapes { IfOk result (λ _. map shape storage.new.kept.blocks ≡ map shape storage.old.kept.blocks) }
    ensures possible { IfOk result (λ _. ArePossible now storage.old.kept.blocks → ArePossible now storage.new.kept.blocks) }
    ensures marks { IfOk result (λ v. AreMarks (diagram_of program.now) now inputs.now storage.old v.items) }
{
    storage.give(program.decls(), inputs);
    let marks = see_rungs(alloc, program, now, storage, start)?;
    Ok(marks)
}

/// The state after a scan, and what is seen of the scan.
#[derive(Drop)]
pub struct PowerFlow {
    pub state: State,
    /// By rung, column and row.
    pub marks: Vec<Mark>,
}

/// One scan of a state that is left as it is: the state after it, and what is seen at each place.
///
/// # Errors
///
/// `Memory` when out of memory.
#[tactic(auto, using(crate::proofs::Possible::after_sound))]
pub fn see(
    alloc: Global,
    program: &Program,
    state: &State,
    inputs: &[bool],
    now: u64,
) -> Result<PowerFlow, Memory>
    requires { state.now.moment ≤ now }
    ensures state { IfOk result (λ s. s.state ≡ record {
      held = after_scan (diagram_of program.now) now inputs.now state.now.held;
      kinds = state.now.kinds;
      moment = now;
    }) }
    ensures marks { IfOk result (λ s. AreMarks (diagram_of program.now) now inputs.now state.now.held s.marks.items) }
{
    let mut storage = state.storage.copy(alloc)?;
    let mut start = state.storage.room(alloc)?;
    let kinds = Vec::from_slice(alloc, &state.kinds)?;
    checked(program);
    let marks = see_storage(alloc, program, now, inputs, &mut storage, &mut start)?;
    Ok(PowerFlow {
        state: State {
            storage,
            kinds,
            moment: now,
            start,
        },
        marks,
    })
}
