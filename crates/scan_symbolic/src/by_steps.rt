//! A look by some steps of a program in place of all.

ghost use Rattle.std.specs.Prelude.{◌≡◌, ◌+◌, ◌-◌, ◌^◌, All, length, min, false, slice_index_or};
ghost use Rattle.diagram_program.specs.declared.gates.TheConstants.{LINKS};
ghost use Rattle.scan_cycle.specs.Programs.{diagram_of, IsSound};
ghost use Rattle.scan_cycle.specs.Rung.{SameSizes};
ghost use Rattle.scan_cycle.specs.Standing.{Fits};
ghost use Rattle.scan_symbolic.specs.BySteps.{AreLeftBy, LeaveAsLook};
ghost use Rattle.scan_symbolic.specs.Outcomes.{left_of, outcome_of};
ghost use Rattle.scan_symbolic.specs.Sheets.{HasRoom};
ghost use Rattle.scan_symbolic.specs.Stepping.{IsWithin};

use crate::looking::{Work, begin, clear};
use crate::outcome::Outcome;
use crate::steps::{Base, run_steps};
use diagram_program::Program;
use diagram_program::steps::Step;
use scan_cycle::State;
use scan_cycle::gates::set_rails;
use scan_cycle::image::Image;
use scan_cycle::scene::checked;
use scan_signals::Operations;

/// Takes these steps, from the given inputs and all that is stored, and leaves the values of the look in `seen`.
fn take_steps<S: Operations>(
    base: Base<'_>,
    inputs: &[S],
    steps: &[Step],
    seen: &mut Image<S>,
    taken: &mut [S],
    links: &mut [S],
)
    requires program { IsSound (diagram_of base.program.now) }
    requires fits { length base.storage.now.values ≡ length base.program.now.decls.vars }
    requires steps { All (IsWithin base.program.now.rungs (length base.program.now.decls.vars)) steps.now }
    requires sizes { SameSizes seen.old base.storage.now }
    requires taken { length taken.old ≡ base.program.now.rungs }
    requires links { length links.old ≡ LINKS }
    ensures values { AreLeftBy S.algebra base.entry.program.now base.entry.now steps.now inputs.now base.entry.storage.now seen.new.values }
    ensures sizes { SameSizes seen.new base.entry.storage.now }
{
    begin(base.program, base.storage, inputs, seen);
    clear(taken);
    set_rails(links);
    run_steps(base, steps, seen, taken, links);
}

/// What [`look`] does, but for the steps: these are taken in place of all that the program has. `work` then holds what they leave of
/// the variables, and the outcome is what they leave of the variable with number `var`.
///
/// It needs no memory.
///
/// [`look`]: crate::looking::look
pub fn look_by_steps<S: Operations>(
    program: &Program,
    state: &State,
    inputs: &[S],
    now: u64,
    steps: &[Step],
    var: usize,
    work: &mut Work<S>,
) -> Outcome<S>
    requires state { Fits program.now state.now }
    requires work { HasRoom program.now work.old }
    requires steps { All (IsWithin program.now.rungs (length program.now.decls.vars)) steps.now }
    requires alike { LeaveAsLook S.algebra program.now now steps.now inputs.now state.now.held var }
    ensures outcome { outcome_of result ≡ left_of S.algebra (diagram_of program.now) now inputs.now state.now.held var }
    ensures value { slice_index_or work.new.values var (S.algebra.known false) ≡ left_of S.algebra (diagram_of program.now) now inputs.now state.now.held var }
    ensures values { AreLeftBy S.algebra program.now now steps.now inputs.now state.now.held work.new.values }
    ensures fits { HasRoom program.now work.new }
    ensures looks { work.new.looks ≡ min (work.old.looks + 1) (2 ^ 64 - 1) }
{
    checked(program);
    state.checked();
    let base = Base {
        program,
        storage: state.storage(),
        now,
    };
    take_steps(
        base,
        inputs,
        steps,
        &mut work.seen,
        &mut work.taken,
        &mut work.links,
    );
    work.looks = work.looks.saturating_add(1);
    Outcome {
        value: work.seen.value(var),
    }
}
