//! One scan over likenesses: what is known of the values that two scans leave.

ghost use Rattle.std.specs.Prelude.{◌≡◌, ◌+◌, ◌-◌, ◌^◌, List, Bool, min, length};
ghost use Rattle.diagram_program.specs.declared.gates.TheConstants.{LINKS};
ghost use Rattle.diagram_program.specs.Program.{IsWellFormed};
ghost use Rattle.scan_signals.specs.Likenesses.{AreLike};
ghost use Rattle.scan_cycle.specs.Programs.{diagram_of, IsSound};
ghost use Rattle.scan_cycle.specs.Rung.{SameSizes};
ghost use Rattle.scan_symbolic.specs.Sheets.{HasRoom};
ghost use Rattle.scan_symbolic.specs.Look.{after_look};
ghost use Rattle.scan_cycle.specs.Standing.{Fits};
ghost use Rattle.scan_signals.specs.Truth.{plain};

use crate::looking::{Work, begin, clear};
use crate::steps::{Base, run_steps};
use diagram_program::Program;
use scan_cycle::State;
use scan_cycle::gates::set_rails;
use scan_cycle::image::Image;
use scan_cycle::scene::checked;
use scan_signals::Likeness;

/// Takes the steps of all rungs over likenesses, from the given inputs and all that is stored.
fn liken_rungs(
    base: Base<'_>,
    inputs: &[Likeness],
    seen: &mut Image<Likeness>,
    taken: &mut [Likeness],
    links: &mut [Likeness],
)
    requires program { IsSound (diagram_of base.program.now) }
    requires formed { IsWellFormed base.program.now }
    requires fits { length base.storage.now.values ≡ length base.program.now.decls.vars }
    requires sizes { SameSizes seen.old base.storage.now }
    requires taken { length taken.old ≡ base.program.now.rungs }
    requires links { length links.old ≡ LINKS }
    ensures values { (xs ys : List Bool) → AreLike inputs.now xs ys → AreLike seen.new.values
        (after_look plain (diagram_of base.entry.program.now) base.entry.now xs base.entry.storage.now)
        (after_look plain (diagram_of base.entry.program.now) base.entry.now ys base.entry.storage.now) }
    ensures sizes { SameSizes seen.new base.entry.storage.now }
{
    begin(base.program, base.storage, inputs, seen);
    clear(taken);
    set_rails(links);
    run_steps(base, base.program.steps(), seen, taken, links);
}

/// One scan over likenesses at the moment `now`, from the values, memories and instances of the state, which is not changed. `work`
/// then holds what is known of the values that two scans leave: whichever two lists of inputs have the given likenesses, each
/// variable has its likeness in `work` in the two scans with them.
///
/// It needs no memory.
pub fn liken(
    program: &Program,
    state: &State,
    inputs: &[Likeness],
    now: u64,
    work: &mut Work<Likeness>,
)
    requires state { Fits program.now state.now }
    requires work { HasRoom program.now work.old }
    ensures values { (xs ys : List Bool) → AreLike inputs.now xs ys → AreLike work.new.values
        (after_look plain (diagram_of program.now) now xs state.now.held) (after_look plain (diagram_of program.now) now ys state.now.held) }
    ensures fits { HasRoom program.now work.new }
    ensures looks { work.new.looks ≡ min (work.old.looks + 1) (2 ^ 64 - 1) }
{
    program.checked();
    checked(program);
    state.checked();
    let base = Base {
        program,
        storage: state.storage(),
        now,
    };
    liken_rungs(
        base,
        inputs,
        &mut work.seen,
        &mut work.taken,
        &mut work.links,
    );
    work.looks = work.looks.saturating_add(1);
}
