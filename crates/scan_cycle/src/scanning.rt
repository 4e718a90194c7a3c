//! One scan of a program over its state.

ghost use Rattle.std.specs.Prelude.{◌≡◌, ◌<◌, ◌↔◌, length, map, IfOk, OnErr, IsErr};
ghost use Rattle.diagram_program.specs.declared.geometry.TheConstants.{RUNGS};
ghost use Rattle.diagram_program.specs.declared.gates.TheConstants.{LINKS};
ghost use Rattle.diagram_program.specs.Gates.{left_of};
ghost use Rattle.scan_cycle.specs.Rung.{evaluated, frame_of, SameSizes, SameLengths};
ghost use Rattle.scan_cycle.specs.Scan.{next_rung, after_scan};
ghost use Rattle.scan_cycle.specs.RungByRung.{rung_after, ArePossible, scanned, shape};
ghost use Rattle.scan_cycle.specs.Programs.{diagram_of, IsSound};
ghost use Rattle.scan_cycle.specs.Standing.{Fits};
ghost use Rattle.scan_cycle.specs.Gating.{among, AreLinks};
ghost use Rattle.scan_signals.specs.Truth.{plain};

use crate::effects::changes;
use crate::gates::{find_links, link_at};
use crate::image::{Image, copy_start};
use crate::scene::{Scene, checked};
use crate::state::State;
use crate::storage::Storage;
use diagram_program::Program;
use diagram_program::gates::LINKS;

/// The moment of a scan is before that of the state.
#[derive(Clone, Copy, Debug, PartialEq, Eq)]
pub struct MomentBack;

/// The number of the rung that comes after an evaluated one: the next one, or the one that its jump or return goes to.
pub fn rung_after(program: &Program, rung: usize, links: &[bool]) -> usize
    requires rung { rung < program.now.rungs }
    requires few { rung < RUNGS }
    ensures { result ≡ rung_after rung ((diagram_of program.now).jump rung) (λ place. among plain links.now (left_of program.now rung place)) }
{
    match program.exit(rung) {
        Some(exit) => {
            if link_at(links, exit.left as usize) {
                exit.target
            } else {
                rung + 1
            }
        }
        None => rung + 1,
    }
}

/// Evaluates a rung, and returns the rung after it. What its contacts saw, and its links, are left as it began.
#[tactic(auto, using(crate::proofs::Acting::by_actions, crate::proofs::Sizes::rung_sizes))]
pub(crate) fn evaluate(
    scene: Scene<'_>,
    storage: &mut Storage,
    start: &mut Image<bool>,
    links: &mut [bool],
) -> usize
    requires links { length links.old ≡ LINKS }
    requires rung { scene.rung < scene.program.now.rungs }
    requires few { scene.rung < RUNGS }
    requires program { IsSound (diagram_of scene.program.now) }
    requires sizes { SameSizes start.old storage.old }
    ensures held { storage.new ≡ evaluated (diagram_of scene.entry.program.now) scene.entry.now scene.entry.rung storage.old }
    ensures next { result ≡ next_rung (diagram_of scene.entry.program.now) scene.entry.now scene.entry.rung storage.old }
    ensures sizes { SameSizes start.new storage.new }
    ensures links { length links.new ≡ LINKS }
    ensures start { start.new ≡ frame_of storage.old }
    ensures flow { AreLinks plain scene.entry.program.now storage.old.kept scene.entry.now scene.entry.rung start.new links.new }
{
    copy_start(storage, start);
    find_links(scene, storage, start, links);
    changes(scene, start, links, storage);
    rung_after(scene.program, scene.rung, links)
}

/// Goes from rung to rung, past those that a jump passes over.
fn scan_rungs(program: &Program, now: u64, storage: &mut Storage, start: &mut Image<bool>)
    requires program { IsSound (diagram_of program.now) }
    requires sizes { SameSizes start.old storage.old }
    ensures held { storage.new ≡ (scanned (diagram_of program.now) now storage.old program.now.rungs).held }
    ensures sizes { SameSizes start.new storage.new }
{
    let mut links = [false; LINKS];
    let mut resume = 0;
    for rung in 0..program.rungs() {
        if resume <= rung {
            let scene = Scene { program, now, rung };
            resume = evaluate(scene, storage, start, &mut links);
        }
    }
}

/// Gives the inputs their values, and evaluates the rungs from top to bottom.
fn scan_storage(
    program: &Program,
    now: u64,
    inputs: &[bool],
    storage: &mut Storage,
    start: &mut Image<bool>,
)
    requires program { IsSound (diagram_of program.now) }
    requires sizes { SameSizes start.old storage.old }
    ensures held { storage.new ≡ after_scan (diagram_of program.now) now inputs.now storage.old }
    ensures sizes { SameSizes start.new storage.new }
    ensures lengths { SameLengths storage.new storage.old }
    ensures shapes { map shape storage.new.kept.blocks ≡ map shape storage.old.kept.blocks }
    ensures possible { ArePossible now storage.old.kept.blocks → ArePossible now storage.new.kept.blocks }
{
    storage.give(program.decls(), inputs);
    scan_rungs(program, now, storage, start);
}

/// One scan at the moment `now`, in milliseconds: the input variables take the given values, in order of declaration, and the rungs
/// are evaluated from top to bottom (IEC 61131-3).
///
/// # Errors
///
/// `MomentBack` where `now` is before the moment of the state, which is then unchanged.
pub fn scan(
    program: &Program,
    state: &mut State,
    inputs: &[bool],
    now: u64,
) -> Result<(), MomentBack>
    ensures done { IfOk result (λ _. state.new ≡ record {
      held = after_scan (diagram_of program.now) now inputs.now state.old.held;
      kinds = state.old.kinds;
      moment = now;
    }) }
    ensures fits { Fits program.now state.old → Fits program.now state.new }
    ensures refused { OnErr result (state.new ≡ state.old) }
    ensures back { IsErr result ↔ (now < state.old.moment) }
{
    if now < state.moment {
        return Err(MomentBack);
    }
    checked(program);
    scan_storage(program, now, inputs, &mut state.storage, &mut state.start);
    state.moment = now;
    Ok(())
}
