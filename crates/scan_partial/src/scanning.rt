//! One scan over what is known of a state, each rung under its guard.

ghost use Rattle.std.specs.Prelude.{◌≡◌, ◌<◌, true, false, length, All};
ghost use Rattle.diagram_program.specs.declared.gates.TheConstants.{LINKS};
ghost use Rattle.diagram_program.specs.Gates.{left_of};
ghost use Rattle.scan_cycle.specs.Programs.{diagram_of, IsSound};
ghost use Rattle.scan_cycle.specs.Gating.{among};
ghost use Rattle.scan_symbolic.specs.KnownScan.{taken_by};
ghost use Rattle.scan_symbolic.specs.KnownScan.{after_known, evaluated_in, link_in, passed};
ghost use Rattle.scan_partial.specs.Sizes.{AreAsLong, HasSizes, IsSpareFor, AreRoomy};

use crate::effects::changes;
use crate::gates::find_links;
use crate::keep::Keep;
use crate::knowledge::Knowledge;
use crate::room::Room;
use diagram_program::Program;
use diagram_program::gates::LINKS;
use scan_cycle::gates::link_at;
use scan_cycle::image::Image;
use scan_cycle::scene::{Scene, checked};
use scan_signals::{Operations, Signal};
use scan_symbolic::guard_by;

/// Whether the jump of a rung is taken, by its guard and its links.
fn leaves<S: Operations>(program: &Program, rung: usize, guard: S, links: &[S]) -> S
    requires { rung < program.now.rungs }
    ensures { result ≡ taken_by S.algebra ((diagram_of program.now).jump rung) guard (λ place. among S.algebra links.now (left_of program.now rung place)) }
{
    match program.exit(rung) {
        Some(exit) => guard.and(link_at(links, exit.left as usize)),
        None => S::known(false),
    }
}

/// Evaluates a rung under its guard, and returns whether its jump is taken.
fn evaluate<S: Signal, B: Keep<S>>(
    scene: Scene<'_>,
    guard: S,
    known: &mut Knowledge<S, B>,
    start: &mut Image<S>,
    links: &mut [S],
) -> S
    requires rung { scene.rung < scene.program.now.rungs }
    requires program { IsSound (diagram_of scene.program.now) }
    requires start { AreRoomy start.old known.old }
    requires links { length links.old ≡ LINKS }
    ensures known { known.new ≡ evaluated_in S.algebra B.keeping (diagram_of scene.entry.program.now) scene.entry.now scene.entry.rung guard known.old }
    ensures taken { result ≡ taken_by S.algebra ((diagram_of scene.entry.program.now).jump scene.entry.rung) guard
        (link_in S.algebra B.keeping (diagram_of scene.entry.program.now) scene.entry.now scene.entry.rung known.old) }
    ensures start { AreRoomy start.new known.new }
    ensures lengths { AreAsLong known.new known.old }
    ensures links { length links.new ≡ LINKS }
{
    known.begin(start);
    find_links(scene, known, start, links);
    let taken = leaves(scene.program, scene.rung, guard, links);
    changes(scene, guard, start, links, known);
    taken
}

/// Evaluates each rung, under the guard by the jumps before it.
fn scan_rungs<S: Signal, B: Keep<S>>(
    program: &Program,
    now: u64,
    known: &mut Knowledge<S, B>,
    start: &mut Image<S>,
    links: &mut [S],
    taken: &mut [S],
)
    requires program { IsSound (diagram_of program.now) }
    requires start { AreRoomy start.old known.old }
    requires links { length links.old ≡ LINKS }
    requires taken { length taken.old ≡ program.now.rungs }
    ensures known { known.new ≡ (passed S.algebra B.keeping (diagram_of program.now) now known.old program.now.rungs).known }
    ensures start { AreRoomy start.new known.new }
    ensures lengths { AreAsLong known.new known.old }
    ensures links { length links.new ≡ LINKS }
{
    for rung in 0..program.rungs() {
        let guard = guard_by(program.leaps(), taken, rung);
        let scene = Scene { program, now, rung };
        taken[rung] = evaluate(scene, guard, known, start, links);
    }
}

/// One scan at the moment `now`, in milliseconds, over what is known: the input variables take the given signals, in order of
/// declaration, and each rung is evaluated under the guard by the jumps before it.
///
/// It needs no memory.
pub fn scan_known<S: Signal, B: Keep<S>>(
    program: &Program,
    known: &mut Knowledge<S, B>,
    inputs: &[S],
    now: u64,
    room: &mut Room<S>,
)
    requires known { HasSizes program.now known.old }
    requires room { IsSpareFor program.now room.old }
    requires inputs { All S.value inputs.now }
    ensures known { known.new ≡ after_known S.algebra B.keeping (diagram_of program.now) now inputs.now known.old }
    ensures sizes { HasSizes program.now known.new }
    ensures room { room.new ≡ room.old }
{
    checked(program);
    known.give(program.decls(), inputs);
    scan_rungs(
        program,
        now,
        known,
        &mut room.start,
        &mut room.links,
        &mut room.taken,
    );
}
