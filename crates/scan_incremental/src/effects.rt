//! The effects of a rung, once its power flow is known: whether all is left as it is, and otherwise whom they wake.

ghost use Rattle.std.specs.Prelude.{◌≤◌, slice_index_or, ◌≡◌, ◌<◌, ℕ, length, All, IsTrue, None, Some, false};
ghost use Rattle.diagram_program.specs.declared.gates.TheConstants.{LINKS};
ghost use Rattle.diagram_program.specs.Gates.{actions_of};
ghost use Rattle.diagram_declarations.specs.declared.kind.BlockKind.TheVariants.{Ton};
ghost use Rattle.scan_signals.specs.Blocks.{step, new_block};
ghost use Rattle.scan_signals.specs.Truth.{plain};
ghost use Rattle.scan_cycle.specs.Cells.{put_in};
ghost use Rattle.scan_cycle.specs.Rung.{changed};
ghost use Rattle.scan_cycle.specs.Programs.{diagram_of, IsSound};
ghost use Rattle.scan_cycle.specs.Gating.{IsPlaced, among, changes_of};
ghost use Rattle.scan_incremental.specs.Resting.{known_next, AllRest, AreUsers, AreWoken, IsStill, is_settled};

use crate::marks::Users;
use crate::waking::{wake_output, wake_variable};
use diagram_declarations::BlockKind;
use diagram_program::Cell;
use diagram_program::gates::Action;
use scan_cycle::effects::{change, stored_by};
use scan_cycle::image::Image;
use scan_cycle::scene::{Scene, instance};
use scan_cycle::storage::Storage;
use scan_signals::{Stored, block};

/// Whether the memory of a cell already has the value that it would be given.
fn has_memory(storage: &Storage, memory: Option<usize>, value: bool) -> bool
    ensures { IsTrue result → put_in storage.now.kept.memories memory value ≡ storage.now.kept.memories }
{
    match memory {
        Some(number) => storage.memory_at(number) == value,
        None => true,
    }
}

/// Whether a later moment makes no difference to an instance that its step leaves as it is: no timer runs, except an on-delay that
/// is over.
fn is_settled(kind: BlockKind, stored: Stored) -> bool
    ensures { result ≡ is_settled kind stored }
{
    match (kind, stored) {
        (BlockKind::Ton, Stored::Timer { running, q, .. }) => !running || q,
        (
            BlockKind::Tof
            | BlockKind::Tp
            | BlockKind::Ctu
            | BlockKind::Ctd
            | BlockKind::Sr
            | BlockKind::Rs,
            Stored::Timer { running, .. },
        ) => !running,
        (_, Stored::Counter { .. } | Stored::Bistable { .. }) => true,
    }
}

/// Whether the step of an instance leaves it as it is, at this moment and at any later one.
fn stays(scene: Scene<'_>, storage: &Storage, inst: usize, first: bool, second: bool) -> bool
    requires { IsSound (diagram_of scene.program.now) }
    ensures { IsTrue result → (later : ℕ) → scene.entry.now ≤ later
        → step ((diagram_of scene.entry.program.now).kind inst) ((diagram_of scene.entry.program.now).preset inst) (slice_index_or storage.now.kept.blocks inst (new_block Ton)) first second later
        ≡ slice_index_or storage.now.kept.blocks inst (new_block Ton) }
{
    let (kind, preset) = instance(scene.program, inst);
    let stored = storage.stored(inst);
    is_settled(kind, stored)
        && block::step(kind, preset, stored, first, second, scene.now) == stored
}

/// Whether from now on an action leaves all as it is; `start` is what contacts see, from the rung's start on.
fn is_still(
    scene: Scene<'_>,
    start: &Image<bool>,
    links: &[bool],
    action: Action,
    storage: &Storage,
) -> bool
    requires action { IsPlaced action }
    requires links { length links.now ≡ LINKS }
    requires program { IsSound (diagram_of scene.program.now) }
    ensures { IsTrue result → IsStill (diagram_of scene.entry.program.now) scene.entry.now start.now links.now storage.now action }
{
    match action.cell {
        Cell::Contact {
            operand,
            memory,
            ..
        } => has_memory(storage, memory, start.operand(operand)),
        Cell::Coil { mode, var, memory } => {
            let link = links[action.left as usize];
            let value = storage.value(var);
            stored_by(mode, link, storage.memory(action.cell), value) == value
                && has_memory(storage, memory, link)
        }
        Cell::Block { inst } => stays(
            scene,
            storage,
            inst,
            links[action.left as usize],
            links[action.below as usize],
        ),
        Cell::Empty | Cell::Wire | Cell::Lower { .. } | Cell::Jump { .. } | Cell::Return => true,
    }
}

/// Whether each action of a rung leaves all as it is.
pub(crate) fn are_still(
    scene: Scene<'_>,
    start: &Image<bool>,
    links: &[bool],
    storage: &Storage,
) -> bool
    requires rung { scene.rung < scene.program.now.rungs }
    requires places { All IsPlaced (actions_of scene.program.now scene.rung) }
    requires links { length links.now ≡ LINKS }
    requires program { IsSound (diagram_of scene.program.now) }
    ensures { IsTrue result → All (IsStill (diagram_of scene.entry.program.now) scene.entry.now start.now links.now storage.now)
        (actions_of scene.entry.program.now scene.entry.rung) }
{
    for action in scene.program.actions(scene.rung) {
        if !is_still(scene, start, links, *action, storage) {
            return false;
        }
    }
    true
}

/// Makes what one action changes, and wakes the rungs that use what it changed.
fn run_action(
    scene: Scene<'_>,
    start: &Image<bool>,
    links: &[bool],
    action: Action,
    storage: &mut Storage,
    users: &Users,
    next: &mut [Option<usize>],
)
    requires action { IsPlaced action }
    requires links { length links.now ≡ LINKS }
    requires program { IsSound (diagram_of scene.program.now) }
    ensures stored { storage.new ≡ changed (diagram_of scene.entry.program.now) scene.entry.now start.now action.cell
        (among plain links.now action.left) (among plain links.now action.below) storage.old }
    ensures woken { AreWoken users.now storage.old storage.new next.old next.new }
{
    match action.cell {
        Cell::Coil { var, .. } => {
            let before = storage.value(var);
            change(scene, start, links, action, storage);
            if storage.value(var) != before {
                wake_variable(users, var, next);
            }
        }
        Cell::Block { inst } => {
            let before = storage.stored(inst).q();
            change(scene, start, links, action, storage);
            if storage.stored(inst).q() != before {
                wake_output(users, inst, next);
            }
        }
        Cell::Contact { .. }
        | Cell::Empty
        | Cell::Wire
        | Cell::Lower { .. }
        | Cell::Jump { .. }
        | Cell::Return => change(scene, start, links, action, storage),
    }
}

/// Makes the changes of a rung that isn't known to rest, by column, then row, and wakes the rungs that use what changed.
pub(crate) fn act_each(
    scene: Scene<'_>,
    start: &Image<bool>,
    links: &[bool],
    storage: &mut Storage,
    users: &Users,
    next: &mut [Option<usize>],
)
    requires rung { scene.rung < scene.program.now.rungs }
    requires places { All IsPlaced (actions_of scene.program.now scene.rung) }
    requires links { length links.now ≡ LINKS }
    requires program { IsSound (diagram_of scene.program.now) }
    requires users { AreUsers (diagram_of scene.program.now) users.now }
    requires awake { known_next next.old scene.rung ≡ None }
    requires rest { AllRest (diagram_of scene.program.now) scene.now storage.old next.old }
    ensures stored { storage.new ≡ changes_of (diagram_of scene.entry.program.now) scene.entry.now start.now
        links.now (actions_of scene.entry.program.now scene.entry.rung) storage.old }
    ensures rest { AllRest (diagram_of scene.entry.program.now) scene.entry.now storage.new next.new }
{
    for action in scene.program.actions(scene.rung) {
        run_action(scene, start, links, *action, storage, users, next);
    }
}
