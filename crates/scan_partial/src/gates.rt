//! Power flow in a rung over what is known: its gates give the links, one after the other.

ghost use Rattle.std.specs.Prelude.{◌≡◌, ◌<◌, length, All};
ghost use Rattle.diagram_program.specs.declared.gates.TheConstants.{LINKS};
ghost use Rattle.diagram_program.specs.Gates.{gates_of};
ghost use Rattle.scan_cycle.specs.Programs.{diagram_of, IsSound};
ghost use Rattle.scan_cycle.specs.Gating.{IsInside};
ghost use Rattle.scan_symbolic.specs.KnownScan.{frame_in};
ghost use Rattle.scan_partial.specs.Evaluating.{own_in, let_in, passed_in, ran_in, AreLinksIn};

use crate::keep::Keep;
use crate::knowledge::Knowledge;
use diagram_program::Cell;
use diagram_program::gates::{Gate, Literal};
use scan_cycle::gates::{closed, set_rails};
use scan_cycle::image::Image;
use scan_cycle::scene::{Scene, cell, instance};
use scan_signals::{Operations, Signal};

/// What a cell lets through by itself, by its left link and its second input.
fn through_cell<S: Signal, B: Keep<S>>(
    scene: Scene<'_>,
    known: &Knowledge<S, B>,
    seen: &Image<S>,
    cell: Cell,
    left: S,
    below: S,
) -> S
    requires { IsSound (diagram_of scene.program.now) }
    ensures { result ≡ own_in S.algebra B.keeping (diagram_of scene.entry.program.now) scene.entry.now seen.now known.now cell left below }
{
    match cell {
        Cell::Block { inst } => {
            let (kind, preset) = instance(scene.program, inst);
            let after = known.kept(inst).step(kind, preset, left, below, scene.now);
            after.q()
        }
        Cell::Contact { memory, .. } => left.and(closed(cell, seen, known.memory(memory))),
        Cell::Wire | Cell::Coil { .. } => left.and(S::known(true)),
        Cell::Empty | Cell::Lower { .. } | Cell::Jump { .. } | Cell::Return => left.and(S::known(
            false,
        )),
    }
}

/// What a gate lets through, by the links before it.
fn through_gate<S: Signal, B: Keep<S>>(
    scene: Scene<'_>,
    known: &Knowledge<S, B>,
    seen: &Image<S>,
    gate: &Gate,
    links: &[S],
) -> S
    requires rung { scene.rung < scene.program.now.rungs }
    requires gate { IsInside gate.now }
    requires links { length links.now ≡ LINKS }
    requires program { IsSound (diagram_of scene.program.now) }
    ensures { result ≡ let_in S.algebra B.keeping (diagram_of scene.entry.program.now) scene.entry.now scene.entry.rung seen.now known.now links.now gate.now }
{
    let left = links[gate.left as usize];
    match gate.literal {
        Literal::Is(var) => left.and(seen.value(var as usize)),
        Literal::Not(var) => left.and(seen.value(var as usize).not()),
        Literal::Other => {
            let cell = cell(scene.program, scene.rung, gate.place as usize);
            through_cell(scene, known, seen, cell, left, links[gate.below as usize])
        }
    }
}

/// Finds the link that one gate gives, and keeps it with the links.
fn pass_gate<S: Signal, B: Keep<S>>(
    scene: Scene<'_>,
    known: &Knowledge<S, B>,
    seen: &Image<S>,
    gate: &Gate,
    links: &mut [S],
)
    requires rung { scene.rung < scene.program.now.rungs }
    requires gate { IsInside gate.now }
    requires links { length links.old ≡ LINKS }
    requires program { IsSound (diagram_of scene.program.now) }
    ensures { links.new ≡ passed_in S.algebra B.keeping (diagram_of scene.entry.program.now) scene.entry.now scene.entry.rung seen.now known.now links.old gate.now }
{
    let through = through_gate(scene, known, seen, gate, links);
    let other = links[gate.other as usize];
    links[gate.place as usize] = through.or(other);
}

/// Finds the links that the gates of a rung give, one gate after the other.
#[tactic(auto, using(crate::proofs::GateLaws::run_step))]
fn pass_gates<S: Signal, B: Keep<S>>(
    scene: Scene<'_>,
    known: &Knowledge<S, B>,
    seen: &Image<S>,
    links: &mut [S],
)
    requires rung { scene.rung < scene.program.now.rungs }
    requires gates { All IsInside (gates_of scene.program.now scene.rung) }
    requires links { length links.old ≡ LINKS }
    requires program { IsSound (diagram_of scene.program.now) }
    ensures { links.new ≡ ran_in S.algebra B.keeping (diagram_of scene.entry.program.now) scene.entry.now scene.entry.rung
        seen.now known.now (gates_of scene.entry.program.now scene.entry.rung) links.old }
{
    for gate in scene.program.gates(scene.rung) {
        pass_gate(scene, known, seen, gate, links);
    }
}

/// Finds the links of a rung; its contacts see what is known.
pub(crate) fn find_links<S: Signal, B: Keep<S>>(
    scene: Scene<'_>,
    known: &Knowledge<S, B>,
    seen: &Image<S>,
    links: &mut [S],
)
    requires rung { scene.rung < scene.program.now.rungs }
    requires links { length links.old ≡ LINKS }
    requires seen { seen.now ≡ frame_in B.keeping known.now }
    requires program { IsSound (diagram_of scene.program.now) }
    ensures length { length links.new ≡ LINKS }
    ensures links { AreLinksIn S.algebra B.keeping scene.entry.program.now scene.entry.now scene.entry.rung known.now links.new }
{
    known.checked();
    set_rails(links);
    pass_gates(scene, known, seen, links);
}
