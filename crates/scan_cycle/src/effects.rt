//! The effects of a rung, once its power flow is known: what its coils, blocks and edge contacts write.

ghost use Rattle.std.specs.Prelude.{◌≡◌, ◌<◌, length, All};
ghost use Rattle.diagram_program.specs.declared.gates.TheConstants.{LINKS};
ghost use Rattle.diagram_program.specs.Gates.{actions_of};
ghost use Rattle.scan_signals.specs.Truth.{plain};
ghost use Rattle.scan_cycle.specs.Cells.{stored_by};
ghost use Rattle.scan_cycle.specs.Rung.{changed};
ghost use Rattle.scan_cycle.specs.Programs.{diagram_of, IsSound};
ghost use Rattle.scan_cycle.specs.Gating.{IsPlaced, among, changes_of};

use crate::image::Image;
use crate::scene::{Scene, instance};
use crate::storage::Storage;
use diagram_program::gates::Action;
use diagram_program::{Cell, CoilMode};
use scan_signals::{Operations, block};

/// What a coil writes, by its left link, its memory and the old value of its variable.
pub fn stored_by<S: Operations>(mode: CoilMode, link: S, memory: S, old: S) -> S
    ensures { result ≡ stored_by S.algebra mode link memory old }
{
    match mode {
        CoilMode::Store => link,
        CoilMode::Inverse => link.not(),
        CoilMode::Set => S::choose(link, S::known(true), old),
        CoilMode::Reset => S::choose(link, S::known(false), old),
        CoilMode::Rising => link.and(memory.not()),
        CoilMode::Falling => link.not().and(memory),
    }
}

/// What one action changes, over truth values; `start` is what contacts see, from the rung's start on.
pub fn change(
    scene: Scene<'_>,
    start: &Image<bool>,
    links: &[bool],
    action: Action,
    storage: &mut Storage,
)
    requires action { IsPlaced action }
    requires links { length links.now ≡ LINKS }
    requires program { IsSound (diagram_of scene.program.now) }
    ensures { storage.new ≡ changed (diagram_of scene.entry.program.now) scene.entry.now start.now action.cell
        (among plain links.now action.left) (among plain links.now action.below) storage.old }
{
    match action.cell {
        Cell::Contact {
            operand,
            memory,
            ..
        } => storage.remember(memory, start.operand(operand)),
        Cell::Coil { mode, var, memory } => {
            let link = links[action.left as usize];
            let before = storage.memory(action.cell);
            let new = stored_by(mode, link, before, storage.value(var));
            storage.put_value(var, new);
            storage.remember(memory, link);
        }
        Cell::Block { inst } => {
            let (kind, preset) = instance(scene.program, inst);
            let link = links[action.left as usize];
            let below = links[action.below as usize];
            let stored = storage.stored(inst);
            storage.put_block(
                inst,
                block::step(kind, preset, stored, link, below, scene.now),
            );
        }
        Cell::Empty | Cell::Wire | Cell::Lower { .. } | Cell::Jump { .. } | Cell::Return => {}
    }
}

/// The effects of a rung over truth values, by column, then row.
#[tactic(auto, using(crate::proofs::Turns::changes_step))]
pub(crate) fn changes(scene: Scene<'_>, start: &Image<bool>, links: &[bool], storage: &mut Storage)
    requires rung { scene.rung < scene.program.now.rungs }
    requires places { All IsPlaced (actions_of scene.program.now scene.rung) }
    requires links { length links.now ≡ LINKS }
    requires program { IsSound (diagram_of scene.program.now) }
    ensures { storage.new ≡ changes_of (diagram_of scene.entry.program.now) scene.entry.now start.now
        links.now (actions_of scene.entry.program.now scene.entry.rung) storage.old }
{
    for action in scene.program.actions(scene.rung) {
        change(scene, start, links, *action, storage);
    }
}
