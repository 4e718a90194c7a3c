//! Power flow in a rung: its gates give the links, one after the other.

ghost use Rattle.std.specs.Prelude.{◌≡◌, ◌<◌, ◌≤◌, ◌+◌, length, slice_index_or, slice_set, false, true, All};
ghost use Rattle.diagram_declarations.specs.Kind.{largest_preset};
ghost use Rattle.diagram_program.specs.declared.gates.TheConstants.{ON, OFF, OWN, LINKS};
ghost use Rattle.diagram_program.specs.Gates.{gates_of};
ghost use Rattle.scan_signals.specs.Blocks.{step, q_of};
ghost use Rattle.scan_cycle.specs.Cells.{closed, q_from};
ghost use Rattle.scan_cycle.specs.Programs.{diagram_of, IsSound};
ghost use Rattle.scan_cycle.specs.Gating.{among, own, passed, ran, IsInside, AreLinks, AreValues};

use crate::image::Image;
use crate::scene::{Scene, cell, instance};
use crate::storage::Storage;
use diagram_declarations::BlockKind;
use diagram_program::gates::{Gate, LINKS, Literal, OFF, ON, OWN};
use diagram_program::{Cell, Mode};
use scan_signals::block::{has_second, step};
use scan_signals::{Operations, Signal, Stored};

/// The signal at a place, and OFF past the last one.
pub fn link_at<S: Operations>(links: &[S], place: usize) -> S
    ensures { result ≡ slice_index_or links.now place (S.algebra.known false) }
{
    match links.get(place) {
        Some(link) => *link,
        None => S::known(false),
    }
}

/// Whether a cell lets its left link through by itself: ON for a wire and a coil, and for a contact that is closed by what it sees
/// and by its memory.
pub fn closed<S: Operations>(cell: Cell, seen: &Image<S>, memory: S) -> S
    ensures { result ≡ closed S.algebra seen.now memory cell }
{
    match cell {
        Cell::Wire | Cell::Coil { .. } => S::known(true),
        Cell::Contact { mode, operand, .. } => {
            let operand = seen.operand(operand);
            match mode {
                Mode::Plain => operand,
                Mode::Negated => operand.not(),
                Mode::Rising => operand.and(memory.not()),
                Mode::Falling => operand.not().and(memory),
            }
        }
        Cell::Empty | Cell::Block { .. } | Cell::Lower { .. } | Cell::Jump { .. } | Cell::Return =>
            S::known(false),
    }
}

/// The Q of a block after one step with inputs that are truth values.
fn q_after(
    kind: BlockKind,
    preset: u32,
    stored: Stored,
    now: u64,
    first: bool,
    second: bool,
) -> bool
    requires { preset ≤ largest_preset kind }
    ensures { result ≡ q_of (step kind preset stored first second now) }
{
    step(kind, preset, stored, first, second, now).q()
}

/// The Q of a block in this evaluation, by its inputs.
#[inline(always)]
pub fn q_from<S: Operations>(
    kind: BlockKind,
    preset: u32,
    stored: Stored,
    now: u64,
    first: S,
    second: S,
) -> S
    requires { preset ≤ largest_preset kind }
    ensures { result ≡ q_from S.algebra kind preset stored now first second }
{
    let off = q_after(kind, preset, stored, now, false, false);
    let on = q_after(kind, preset, stored, now, true, false);
    if has_second(kind) {
        let both = q_after(kind, preset, stored, now, true, true);
        let other = q_after(kind, preset, stored, now, false, true);
        S::choose(
            first,
            S::choose(second, S::known(both), S::known(on)),
            S::choose(second, S::known(other), S::known(off)),
        )
    } else {
        // whatever the second input is, the Q is the same
        let _is_value = second.is_value();
        S::choose(first, S::known(on), S::known(off))
    }
}

/// What a cell lets through by itself, by its left link and its second input.
pub fn through_cell<S: Operations>(
    scene: Scene<'_>,
    storage: &Storage,
    seen: &Image<S>,
    cell: Cell,
    left: S,
    below: S,
) -> S
    requires program { IsSound (diagram_of scene.program.now) }
    ensures { result ≡ own S.algebra (diagram_of scene.entry.program.now) storage.now.kept scene.entry.now seen.now cell left below }
{
    match cell.block() {
        Some(inst) => {
            let (kind, preset) = instance(scene.program, inst);
            q_from(kind, preset, storage.stored(inst), scene.now, left, below)
        }
        None => left.and(closed(cell, seen, S::known(storage.memory(cell)))),
    }
}

/// What a gate lets through that isn't a plain contact, as its cell says; it is kept, since the Q of a block is read again. Out of
/// line, for it is rare.
#[inline(never)]
fn own<S: Operations>(
    scene: Scene<'_>,
    storage: &Storage,
    seen: &Image<S>,
    gate: &Gate,
    links: &mut [S],
) -> S
    requires rung { scene.rung < scene.program.now.rungs }
    requires gate { IsInside gate.now }
    requires links { length links.old ≡ LINKS }
    requires program { IsSound (diagram_of scene.program.now) }
    ensures through { result ≡ own S.algebra (diagram_of scene.entry.program.now) storage.now.kept scene.entry.now seen.now
        ((diagram_of scene.entry.program.now).cell scene.entry.rung gate.now.place) (among S.algebra links.old gate.now.left) (among S.algebra links.old gate.now.below) }
    ensures kept { links.new ≡ slice_set links.old (OWN + gate.now.place) result }
{
    let cell = cell(scene.program, scene.rung, gate.place as usize);
    let left = links[gate.left as usize];
    let below = links[gate.below as usize];
    let through = through_cell(scene, storage, seen, cell, left, below);
    links[OWN + gate.place as usize] = through;
    through
}

/// Finds the link that one gate gives, and keeps it with the links; `values` are those of what contacts see.
fn pass_gate<S: Operations>(
    scene: Scene<'_>,
    storage: &Storage,
    seen: &Image<S>,
    values: &[S],
    gate: &Gate,
    links: &mut [S],
)
    requires values { values.now ≡ seen.now.values }
    requires rung { scene.rung < scene.program.now.rungs }
    requires gate { IsInside gate.now }
    requires links { length links.old ≡ LINKS }
    requires program { IsSound (diagram_of scene.program.now) }
    ensures { links.new ≡ passed S.algebra (diagram_of scene.entry.program.now) storage.now.kept scene.entry.now scene.entry.rung
        seen.now links.old gate.now }
{
    let other = links[gate.other as usize];
    let through = match gate.literal {
        Literal::Is(var) => links[gate.left as usize].and(link_at(values, var as usize)),
        Literal::Not(var) => links[gate.left as usize].and(link_at(values, var as usize).not()),
        Literal::Other => own(scene, storage, seen, gate, links),
    };
    links[gate.place as usize] = through.or(other);
}

/// Finds the links that the gates of a rung give, one gate after the other.
#[inline(always)]
#[tactic(auto, using(crate::proofs::GateLaws::run_step))]
fn pass_gates<S: Operations>(scene: Scene<'_>, storage: &Storage, seen: &Image<S>, links: &mut [S])
    requires rung { scene.rung < scene.program.now.rungs }
    requires gates { All IsInside (gates_of scene.program.now scene.rung) }
    requires links { length links.old ≡ LINKS }
    requires program { IsSound (diagram_of scene.program.now) }
    ensures { links.new ≡ ran S.algebra (diagram_of scene.entry.program.now) storage.now.kept scene.entry.now scene.entry.rung
        seen.now (gates_of scene.entry.program.now scene.entry.rung) links.old }
{
    let values = &seen.values[..];
    for gate in scene.program.gates(scene.rung) {
        pass_gate(scene, storage, seen, values, gate, links);
    }
}

/// Writes ON and OFF at the two places where gates that depend on no other cell look for their links.
pub fn set_rails<S: Operations>(links: &mut [S])
    requires { length links.old ≡ LINKS }
    ensures length { length links.new ≡ LINKS }
    ensures on { slice_index_or links.new ON (S.algebra.known false) ≡ S.algebra.known true }
    ensures off { slice_index_or links.new OFF (S.algebra.known false) ≡ S.algebra.known false }
{
    links[ON] = S::known(true);
    links[OFF] = S::known(false);
}

/// Finds the links of a rung, which are its power flow.
#[inline(always)]
pub fn find_links<S: Signal>(scene: Scene<'_>, storage: &Storage, seen: &Image<S>, links: &mut [S])
    requires rung { scene.rung < scene.program.now.rungs }
    requires links { length links.old ≡ LINKS }
    requires values { AreValues S.algebra S.value seen.now }
    requires program { IsSound (diagram_of scene.program.now) }
    ensures length { length links.new ≡ LINKS }
    ensures links { AreLinks S.algebra scene.entry.program.now storage.now.kept scene.entry.now scene.entry.rung seen.now links.new }
{
    set_rails(links);
    pass_gates(scene, storage, seen, links);
}
