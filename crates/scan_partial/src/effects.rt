//! What the actions of a rung write, each under the guard of the rung.

ghost use Rattle.std.specs.Prelude.{◌≡◌, ◌<◌, ℕ, length, All};
ghost use Rattle.diagram_program.specs.declared.gates.TheConstants.{LINKS};
ghost use Rattle.diagram_program.specs.declared.cell.Cell.TheVariants as kind_of_cell;
ghost use Rattle.diagram_program.specs.Gates.{actions_of};
ghost use Rattle.scan_cycle.specs.Cells.{Diagram, Frame};
ghost use Rattle.scan_cycle.specs.Programs.{diagram_of, IsSound};
ghost use Rattle.scan_cycle.specs.Gating.{IsPlaced};
ghost use Rattle.scan_symbolic.specs.KnownScan.{changed_in};
ghost use Rattle.scan_partial.specs.Evaluating.{changed_by, changes_by};

use crate::keep::Keep;
use crate::knowledge::Knowledge;
use diagram_program::gates::Action;
use diagram_program::{Cell, CoilMode};
use scan_cycle::effects::stored_by;
use scan_cycle::image::Image;
use scan_cycle::scene::{Scene, instance};
use scan_signals::Signal;

/// Writes what a coil writes, and its memory: each is the choice, by the guard of its rung, between the new and the old one.
fn write<S: Signal, B: Keep<S>>(
    guard: S,
    mode: CoilMode,
    var: usize,
    memory: Option<usize>,
    link: S,
    known: &mut Knowledge<S, B>,
)
    ensures { (d : Diagram) (now : ℕ) (start : Frame S) (y : S) → known.new ≡ changed_in S.algebra B.keeping d now start guard (kind_of_cell.Coil mode var memory) link y known.old }
{
    let old = known.value(var);
    let before = known.memory(memory);
    let new = stored_by(mode, link, before, old);
    known.put_value(var, S::choose(guard, new, old));
    known.remember(memory, S::choose(guard, link, before));
}

/// Makes the step of a block: what it then stores is the choice, by the guard of its rung, between the new and the old one.
fn step<S: Signal, B: Keep<S>>(
    scene: Scene<'_>,
    guard: S,
    inst: usize,
    first: S,
    second: S,
    known: &mut Knowledge<S, B>,
)
    requires { IsSound (diagram_of scene.program.now) }
    ensures { (start : Frame S) → known.new ≡ changed_in S.algebra B.keeping (diagram_of scene.entry.program.now) scene.entry.now start guard (kind_of_cell.Block inst) first second known.old }
{
    let (kind, preset) = instance(scene.program, inst);
    let _are_values = (guard.is_value(), first.is_value(), second.is_value());
    let old = known.kept(inst);
    let new = old.step(kind, preset, first, second, scene.now);
    known.keep(inst, B::choose(guard, new, old));
}

/// Makes what one action changes; `start` is what contacts see, from the rung's start on.
fn change<S: Signal, B: Keep<S>>(
    scene: Scene<'_>,
    guard: S,
    start: &Image<S>,
    links: &[S],
    action: &Action,
    known: &mut Knowledge<S, B>,
)
    requires action { IsPlaced action.now }
    requires links { length links.now ≡ LINKS }
    requires program { IsSound (diagram_of scene.program.now) }
    ensures { known.new ≡ changed_by S.algebra B.keeping (diagram_of scene.entry.program.now) scene.entry.now start.now guard links.now action.now known.old }
{
    let link = links[action.left as usize];
    match action.cell {
        Cell::Contact {
            operand,
            memory,
            ..
        } => {
            let before = known.memory(memory);
            known.remember(memory, S::choose(guard, start.operand(operand), before));
        }
        Cell::Coil { mode, var, memory } => write(guard, mode, var, memory, link, known),
        Cell::Block { inst } => {
            step(
                scene,
                guard,
                inst,
                link,
                links[action.below as usize],
                known,
            );
        }
        Cell::Empty | Cell::Wire | Cell::Lower { .. } | Cell::Jump { .. } | Cell::Return => {}
    }
}

/// Makes the changes of a rung's actions, by column, then row.
#[tactic(auto, using(crate::proofs::Acting::changes_step))]
pub(crate) fn changes<S: Signal, B: Keep<S>>(
    scene: Scene<'_>,
    guard: S,
    start: &Image<S>,
    links: &[S],
    known: &mut Knowledge<S, B>,
)
    requires rung { scene.rung < scene.program.now.rungs }
    requires places { All IsPlaced (actions_of scene.program.now scene.rung) }
    requires links { length links.now ≡ LINKS }
    requires program { IsSound (diagram_of scene.program.now) }
    ensures { known.new ≡ changes_by S.algebra B.keeping (diagram_of scene.entry.program.now) scene.entry.now start.now guard
        links.now (actions_of scene.entry.program.now scene.entry.rung) known.old }
{
    for action in scene.program.actions(scene.rung) {
        change(scene, guard, start, links, action, known);
    }
}
