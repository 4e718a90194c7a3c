//! A look over any signal, step by step.

ghost use Rattle.std.specs.Prelude.{◌≡◌, ◌<◌, ◌+◌, ◌&&◌, if◌then◌else◌, length, nat_lt, slice_index_or, slice_set, false, true, All};
ghost use Rattle.diagram_declarations.specs.declared.kind.BlockKind.TheVariants.{Ton};
ghost use Rattle.diagram_program.specs.declared.geometry.TheConstants.{PLACES};
ghost use Rattle.diagram_program.specs.declared.gates.TheConstants.{OFF, OWN, LINKS};
ghost use Rattle.diagram_program.specs.Gates.{leaps_below};
ghost use Rattle.diagram_program.specs.declared.steps.Step.{Step};
ghost use Rattle.scan_signals.specs.Blocks.{new_block};
ghost use Rattle.scan_cycle.specs.Cells.{frame, q_from};
ghost use Rattle.scan_cycle.specs.Programs.{diagram_of, IsSound};
ghost use Rattle.scan_cycle.specs.Gating.{among, own};
ghost use Rattle.scan_symbolic.specs.Gating.{acted, guard_by};
ghost use Rattle.scan_symbolic.specs.Stepping.{keeping, passing, storing, links_after, frame_after, taken_after, guard_after, going, all_gone, IsSpot, IsWithin};

use crate::effects::any_effect;
use diagram_program::Program;
use diagram_program::gates::{Action, LINKS, Leap, OFF, OWN};
use diagram_program::steps::{Rare, Spot, Step};
use scan_cycle::gates::{link_at, q_from, through_cell};
use scan_cycle::image::Image;
use scan_cycle::scene::{Scene, cell, instance};
use scan_cycle::storage::Storage;
use scan_signals::Operations;

/// What a look reads, and leaves as it is.
#[derive(Clone, Copy)]
pub(crate) struct Base<'a> {
    pub program: &'a Program,
    pub storage: &'a Storage,
    pub now: u64,
}

/// Keeps the link that a gate gives: what it lets through, OR what comes from the rows above.
fn pass_on<S: Operations>(links: &mut [S], spot: Spot, through: S)
    requires links { length links.old ≡ LINKS }
    requires spot { IsSpot spot }
    ensures { links.new ≡ passing S.algebra links.old spot through }
{
    links[spot.place as usize] = through.or(links[spot.other as usize]);
}

/// The same for a gate whose own signal is read again: also keeps what its cell alone lets through.
fn keep<S: Operations>(links: &mut [S], spot: Spot, through: S)
    requires links { length links.old ≡ LINKS }
    requires spot { IsSpot spot }
    ensures { links.new ≡ keeping S.algebra links.old spot through }
{
    let all = through.or(links[spot.other as usize]);
    links[OWN + spot.place as usize] = through;
    links[spot.place as usize] = all;
}

/// The gate of a contact on a variable: its left link AND the variable.
#[inline(always)]
fn normally_open<S: Operations>(seen: &Image<S>, spot: Spot, var: u16, links: &mut [S])
    requires links { length links.old ≡ LINKS }
    requires spot { IsSpot spot }
    requires var { var < length seen.now.values }
    ensures { links.new ≡ passing S.algebra links.old spot (S.algebra.meet (among S.algebra links.old spot.left) (among S.algebra seen.now.values var)) }
{
    let through = links[spot.left as usize].and(seen.values[var as usize]);
    pass_on(links, spot, through);
}

/// The gate of a negated contact: its left link AND NOT the variable.
#[inline(always)]
fn normally_closed<S: Operations>(seen: &Image<S>, spot: Spot, var: u16, links: &mut [S])
    requires links { length links.old ≡ LINKS }
    requires spot { IsSpot spot }
    requires var { var < length seen.now.values }
    ensures { links.new ≡ passing S.algebra links.old spot (S.algebra.meet (among S.algebra links.old spot.left) (S.algebra.inverse (among S.algebra seen.now.values var))) }
{
    let through = links[spot.left as usize].and(seen.values[var as usize].not());
    pass_on(links, spot, through);
}

/// The gate of a wire: its left link as it is, kept as what its cell alone lets through.
fn wire<S: Operations>(spot: Spot, links: &mut [S])
    requires links { length links.old ≡ LINKS }
    requires spot { IsSpot spot }
    ensures { links.new ≡ keeping S.algebra links.old spot (S.algebra.meet (among S.algebra links.old spot.left) (S.algebra.known true)) }
{
    let through = links[spot.left as usize].and(S::known(true));
    keep(links, spot, through);
}

/// The gate of a contact that closes where its variable becomes ON.
fn rising<S: Operations>(base: Base<'_>, value: S, spot: Spot, memory: u16, links: &mut [S])
    requires links { length links.old ≡ LINKS }
    requires spot { IsSpot spot }
    ensures { links.new ≡ keeping S.algebra links.old spot (S.algebra.meet (among S.algebra links.old spot.left)
        (S.algebra.meet value (S.algebra.inverse (S.algebra.known (slice_index_or base.entry.storage.now.kept.memories memory false))))) }
{
    let before = S::known(base.storage.memory_at(memory as usize));
    let through = links[spot.left as usize].and(value.and(before.not()));
    keep(links, spot, through);
}

/// The gate of a contact that closes where its variable becomes OFF.
fn falling<S: Operations>(base: Base<'_>, value: S, spot: Spot, memory: u16, links: &mut [S])
    requires links { length links.old ≡ LINKS }
    requires spot { IsSpot spot }
    ensures { links.new ≡ keeping S.algebra links.old spot (S.algebra.meet (among S.algebra links.old spot.left)
        (S.algebra.meet (S.algebra.inverse value) (S.algebra.known (slice_index_or base.entry.storage.now.kept.memories memory false)))) }
{
    let before = S::known(base.storage.memory_at(memory as usize));
    let through = links[spot.left as usize].and(value.not().and(before));
    keep(links, spot, through);
}

/// The gate of a block: its Q in this evaluation, by its inputs.
#[inline(always)]
fn block<S: Operations>(base: Base<'_>, spot: Spot, below: u8, inst: usize, links: &mut [S])
    requires program { IsSound (diagram_of base.program.now) }
    requires links { length links.old ≡ LINKS }
    requires spot { IsSpot spot }
    requires below { below < OWN }
    ensures { links.new ≡ keeping S.algebra links.old spot (q_from S.algebra ((diagram_of base.entry.program.now).kind inst) ((diagram_of base.entry.program.now).preset inst)
        (slice_index_or base.entry.storage.now.kept.blocks inst (new_block Ton)) base.entry.now (among S.algebra links.old spot.left) (among S.algebra links.old below)) }
{
    let (kind, preset) = instance(base.program, inst);
    let stored = base.storage.stored(inst);
    let first = links[spot.left as usize];
    let second = links[below as usize];
    keep(
        links,
        spot,
        q_from(kind, preset, stored, base.now, first, second),
    );
}

/// The gate of any other cell, as the cell says.
#[inline(never)]
fn own<S: Operations>(
    base: Base<'_>,
    seen: &Image<S>,
    spot: Spot,
    below: u8,
    rung: usize,
    links: &mut [S],
)
    requires program { IsSound (diagram_of base.program.now) }
    requires links { length links.old ≡ LINKS }
    requires spot { IsSpot spot }
    requires below { below < OWN }
    requires rung { rung < base.program.now.rungs }
    ensures { links.new ≡ keeping S.algebra links.old spot (own S.algebra (diagram_of base.entry.program.now) base.entry.storage.now.kept base.entry.now seen.now
        ((diagram_of base.entry.program.now).cell rung spot.place) (among S.algebra links.old spot.left) (among S.algebra links.old below)) }
{
    let scene = Scene {
        program: base.program,
        now: base.now,
        rung,
    };
    let cell = cell(base.program, rung, spot.place as usize);
    let first = links[spot.left as usize];
    let second = links[below as usize];
    let through = through_cell(scene, base.storage, seen, cell, first, second);
    keep(links, spot, through);
}

/// Writes a coil's new value to its variable: the choice, by the guard of its rung, between the new and the old one.
fn store<S: Operations>(seen: &mut Image<S>, guard: S, var: u16, new: S)
    requires { var < length seen.old.values }
    ensures { seen.new ≡ storing S.algebra guard var new seen.old }
{
    let old = seen.values[var as usize];
    seen.values[var as usize] = S::choose(guard, new, old);
}

/// Writes what any other coil or block writes.
#[inline(never)]
fn run_action<S: Operations>(
    base: Base<'_>,
    guard: S,
    links: &[S],
    rung: u8,
    place: u8,
    left: u8,
    seen: &mut Image<S>,
)
    requires program { IsSound (diagram_of base.program.now) }
    requires rung { rung < base.program.now.rungs }
    requires place { place < PLACES }
    requires left { left < OWN }
    requires links { length links.now ≡ LINKS }
    ensures { seen.new ≡ acted S.algebra base.entry.storage.now.kept guard links.now
        (record { cell = (diagram_of base.entry.program.now).cell rung place; place = place; left = left; below = OFF }) seen.old }
{
    let action = Action {
        cell: cell(base.program, rung as usize, place as usize),
        place,
        left,
        below: OFF as u8,
    };
    any_effect(base.storage, guard, links, &action, seen);
}

/// Writes what a coil `(S)` or `(R)` writes: its value, where its link is ON.
fn latch<S: Operations>(seen: &mut Image<S>, guard: S, var: u16, link: S, on: bool)
    requires { var < length seen.old.values }
    ensures { seen.new ≡ storing S.algebra guard var (S.algebra.choice link (S.algebra.known on) (among S.algebra seen.old.values var)) seen.old }
{
    let old = seen.values[var as usize];
    store(seen, guard, var, S::choose(link, S::known(on), old));
}

/// Writes the Q of a block after its step, under the guard of its rung.
fn end<S: Operations>(seen: &mut Image<S>, guard: S, inst: u16, new: S)
    ensures { seen.new ≡ frame seen.old.values (slice_set seen.old.ends inst (S.algebra.choice guard new (among S.algebra seen.old.ends inst))) }
{
    let old = seen.end(inst as usize);
    seen.put_end(inst as usize, S::choose(guard, new, old));
}

/// The guard of a rung with one more jump considered: the guard so far, AND NOT that this jump is taken, if it passes over the
/// rung.
fn under<S: Operations>(leap: Leap, taken: &[S], rung: usize, all: S) -> S
    ensures { result ≡ (if nat_lt leap.rung rung && nat_lt rung leap.target
        then S.algebra.meet all (S.algebra.inverse (among S.algebra taken.now leap.rung)) else all) }
{
    if leap.rung < rung && rung < leap.target {
        all.and(link_at(taken, leap.rung).not())
    } else {
        all
    }
}

/// The guard of a rung: the AND, over the earlier rungs with a jump past it, of NOT that this jump is taken.
#[tactic(auto, using(crate::proofs::Exits::guard_step))]
pub fn guard_by<S: Operations>(leaps: &[Leap], taken: &[S], rung: usize) -> S
    ensures { result ≡ guard_by S.algebra taken.now rung leaps.now (S.algebra.known true) }
{
    let mut all = S::known(true);
    for leap in leaps {
        all = under(*leap, taken, rung, all);
    }
    all
}

/// The guard of a rung, by the jumps before it. Out of line, for it is rare.
#[inline(never)]
fn new_guard<S: Operations>(program: &Program, taken: &[S], rung: u8) -> S
    ensures { result ≡ guard_by S.algebra taken.now rung (leaps_below program.now program.now.rungs) (S.algebra.known true) }
{
    guard_by(program.leaps(), taken, rung as usize)
}

/// Takes a step that isn't a plain contact, and returns the guard from there on.
#[inline(always)]
fn take_rare<S: Operations>(
    base: Base<'_>,
    rare: Rare,
    guard: S,
    seen: &mut Image<S>,
    taken: &mut [S],
    links: &mut [S],
) -> S
    requires program { IsSound (diagram_of base.program.now) }
    requires step { IsWithin base.program.now.rungs (length base.program.now.decls.vars) (Step.Rare rare) }
    requires values { length seen.old.values ≡ length base.program.now.decls.vars }
    requires links { length links.old ≡ LINKS }
    requires taken { length taken.old ≡ base.program.now.rungs }
    ensures links { links.new ≡ links_after S.algebra base.entry.program.now base.entry.storage.now.kept base.entry.now seen.old (Step.Rare rare) links.old }
    ensures seen { seen.new ≡ frame_after S.algebra base.entry.program.now base.entry.storage.now.kept guard links.new (Step.Rare rare) seen.old }
    ensures taken { taken.new ≡ taken_after S.algebra guard links.old (Step.Rare rare) taken.old }
    ensures guard { result ≡ guard_after S.algebra base.entry.program.now taken.old (Step.Rare rare) guard }
{
    match rare {
        Rare::Wire { spot } => wire(spot, links),
        Rare::Rising { spot, var, memory } => {
            rising(base, seen.value(var as usize), spot, memory, links);
        }
        Rare::Falling { spot, var, memory } => {
            falling(base, seen.value(var as usize), spot, memory, links);
        }
        Rare::Block { spot, below, inst } => block(base, spot, below, inst as usize, links),
        Rare::Own { spot, below, rung } => own(base, seen, spot, below, rung as usize, links),
        Rare::Store { left, var } => store(seen, guard, var, links[left as usize]),
        Rare::Set { left, var } => latch(seen, guard, var, links[left as usize], true),
        Rare::Reset { left, var } => latch(seen, guard, var, links[left as usize], false),
        Rare::End { place, inst } => end(seen, guard, inst, links[OWN + place as usize]),
        Rare::Act { rung, place, left } => run_action(base, guard, links, rung, place, left, seen),
        Rare::Leave { rung, left } => {
            taken[rung as usize] = guard.and(links[left as usize]);
        }
        Rare::Turn { rung } => return new_guard(base.program, taken, rung),
    }
    guard
}

/// Takes a step, and returns the guard from there on.
#[inline(always)]
fn take<S: Operations>(
    base: Base<'_>,
    step: &Step,
    guard: S,
    seen: &mut Image<S>,
    taken: &mut [S],
    links: &mut [S],
) -> S
    requires program { IsSound (diagram_of base.program.now) }
    requires step { IsWithin base.program.now.rungs (length base.program.now.decls.vars) step.now }
    requires values { length seen.old.values ≡ length base.program.now.decls.vars }
    requires links { length links.old ≡ LINKS }
    requires taken { length taken.old ≡ base.program.now.rungs }
    ensures links { links.new ≡ links_after S.algebra base.entry.program.now base.entry.storage.now.kept base.entry.now seen.old step.now links.old }
    ensures seen { seen.new ≡ frame_after S.algebra base.entry.program.now base.entry.storage.now.kept guard links.new step.now seen.old }
    ensures taken { taken.new ≡ taken_after S.algebra guard links.old step.now taken.old }
    ensures guard { result ≡ guard_after S.algebra base.entry.program.now taken.old step.now guard }
{
    match *step {
        Step::Is { spot, var } => {
            normally_open(seen, spot, var, links);
            guard
        }
        Step::Not { spot, var } => {
            normally_closed(seen, spot, var, links);
            guard
        }
        Step::Rare(rare) => take_rare(base, rare, guard, seen, taken, links),
    }
}

/// Goes from step to step, and leaves the values and Qs of the look.
#[inline(never)]
#[tactic(auto)]
pub(crate) fn run_steps<S: Operations>(
    base: Base<'_>,
    steps: &[Step],
    seen: &mut Image<S>,
    taken: &mut [S],
    links: &mut [S],
)
    requires program { IsSound (diagram_of base.program.now) }
    requires steps { All (IsWithin base.program.now.rungs (length base.program.now.decls.vars)) steps.now }
    requires values { length seen.old.values ≡ length base.program.now.decls.vars }
    requires links { length links.old ≡ LINKS }
    requires taken { length taken.old ≡ base.program.now.rungs }
    ensures { seen.new ≡ (all_gone S.algebra base.entry.program.now base.entry.storage.now.kept base.entry.now steps.now
        (going seen.old taken.old links.old (S.algebra.known true))).frame }
{
    let mut guard = S::known(true);
    for step in steps {
        guard = take(base, step, guard, seen, taken, links);
    }
}
