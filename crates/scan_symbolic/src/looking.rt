//! One scan of a program over a signal, which leaves the state as it is.

ghost use Rattle.std.specs.Prelude.{◌≡◌, ◌+◌, ◌-◌, ◌^◌, ◌<◌, ◌↔◌, ℕ, min, length, All, IfOk, IsTrue, slice_get, slice_set, Some, slice_index_or, false};
ghost use Rattle.diagram_program.specs.declared.gates.TheConstants.{LINKS};
ghost use Rattle.diagram_program.specs.Program.{IsWellFormed};
ghost use Rattle.scan_symbolic.specs.ByFrames.{look_frame, looked};
ghost use Rattle.scan_symbolic.specs.Look.{after_look};
ghost use Rattle.scan_cycle.specs.Rung.{SameSizes};
ghost use Rattle.scan_cycle.specs.Programs.{diagram_of, IsSound};
ghost use Rattle.scan_cycle.specs.Standing.{Fits};
ghost use Rattle.scan_symbolic.specs.Sheets.{HasRoom};
ghost use Rattle.scan_cycle.specs.Gating.{AreValues};

use crate::steps::{Base, run_steps};
use diagram_program::Program;
use diagram_program::gates::LINKS;
use scan_cycle::gates::set_rails;
use scan_cycle::image::Image;
use scan_cycle::scene::checked;
use scan_cycle::storage::Storage;
use scan_cycle::{Memory, State};
use scan_signals::{Operations, Signal};
use std::alloc::Global;
use std::marker::Model;

/// The buffers of a look, which hold its result: the values that one scan over a signal leaves.
#[derive(Drop)]
pub struct Work<S> {
    pub(crate) seen: Image<S>,
    pub(crate) links: Vec<S>,
    pub(crate) taken: Vec<S>,
    pub(crate) looks: u64,
}

impl<S> Model for Work<S> {
    ghost use Rattle.std.specs.Prelude.{◌≡◌, length};
    ghost use Rattle.diagram_program.specs.declared.gates.TheConstants.{LINKS};
    ghost use Rattle.scan_symbolic.specs.Sheets.{Sheet};

    ghost Value = { Sheet S };

    ghost view = { λ w. record {
      values = w.seen.values;
      rungs = length w.taken.items;
      instances = length w.seen.ends;
      looks = w.looks;
    } };

    ghost invariant = { λ w. length w.links.items ≡ LINKS };
}

impl<S: Operations> Work<S> {
    /// The buffers that looks at the program need.
    ///
    /// # Errors
    ///
    /// `Memory` when out of memory.
    pub fn new(alloc: Global, program: &Program) -> Result<Work<S>, Memory>
        ensures fits { IfOk result (λ w. HasRoom program.now w) }
        ensures looks { IfOk result (λ w. w.looks ≡ 0) }
    {
        let decls = program.decls();
        Ok(Work {
            seen: Image::new(alloc, decls.vars().len(), decls.instances().len())?,
            links: vec![in alloc; S::known(false); LINKS]?,
            taken: vec![in alloc; S::known(false); program.rungs()]?,
            looks: 0,
        })
    }

    /// Whether the work was made for this many rungs, variables and instances, so that it can hold a look at the program.
    pub fn fits(&self, program: &Program) -> bool
        ensures { IsTrue result ↔ HasRoom program.now self.now }
    {
        let decls = program.decls();
        self.taken.len() == program.rungs()
            && self.seen.values.len() == decls.vars().len()
            && self.seen.ends.len() == decls.instances().len()
    }

    /// The value of a variable after the last look, by its number in order of declaration.
    pub fn value(&self, var: usize) -> S
        requires { var < length self.now.values }
        ensures { slice_get self.now.values var ≡ Some result }
    {
        self.seen.values[var]
    }

    /// How many looks were made; the count saturates.
    pub fn looks(&self) -> u64
        ensures { result ≡ self.now.looks }
    {
        self.looks
    }

    /// Notes what a look that is read in a lane of another one left of a variable, and counts the look.
    pub(crate) fn take(&mut self, var: usize, value: S)
        ensures { self.new ≡ record self.old { values = slice_set self.old.values var value; looks = min (self.old.looks + 1) (2 ^ 64 - 1) } }
    {
        self.seen.put_value(var, value);
        let looks = &mut self.looks;
        *looks = looks.saturating_add(1);
    }
}

/// What the rungs of a look begin with: the given inputs, and all that is stored.
pub(crate) fn begin<S: Operations>(
    program: &Program,
    storage: &Storage,
    inputs: &[S],
    seen: &mut Image<S>,
)
    requires { SameSizes seen.old storage.now }
    ensures { seen.new ≡ look_frame S.algebra (diagram_of program.now) inputs.now storage.now }
{
    seen.know(storage);
    seen.give(program.decls(), inputs);
}

/// Notes for each rung that no jump of it is taken.
pub(crate) fn clear<S: Operations>(taken: &mut [S])
    ensures length { length taken.new ≡ length taken.old }
    ensures off { (i : ℕ) → slice_index_or taken.new i (S.algebra.known false) ≡ S.algebra.known false }
{
    for rung in 0..taken.len() {
        taken[rung] = S::known(false);
    }
}

/// Takes the steps of all rungs, and leaves the values of the look in its work.
fn look_rungs<S: Signal>(base: Base<'_>, seen: &mut Image<S>, taken: &mut [S], links: &mut [S])
    requires program { IsSound (diagram_of base.program.now) }
    requires formed { IsWellFormed base.program.now }
    requires sizes { length seen.old.values ≡ length base.program.now.decls.vars }
    requires values { AreValues S.algebra S.value seen.old }
    requires taken { length taken.old ≡ base.program.now.rungs }
    requires links { length links.old ≡ LINKS }
    ensures { seen.new ≡ (looked S.algebra (diagram_of base.entry.program.now) base.entry.storage.now.kept base.entry.now seen.old base.entry.program.now.rungs).frame }
{
    clear(taken);
    set_rails(links);
    run_steps(base, base.program.steps(), seen, taken, links);
}

/// One scan over a signal at the moment `now`, from the values, memories and instances of the state, which is not changed. `work`
/// then holds the values of the variables. The input variables take the given signals, in order of declaration.
///
/// It needs no memory.
pub fn look<S: Signal>(program: &Program, state: &State, inputs: &[S], now: u64, work: &mut Work<S>)
    requires state { Fits program.now state.now }
    requires work { HasRoom program.now work.old }
    requires inputs { All S.value inputs.now }
    ensures values { work.new.values ≡ after_look S.algebra (diagram_of program.now) now inputs.now state.now.held }
    ensures fits { HasRoom program.now work.new }
    ensures looks { work.new.looks ≡ min (work.old.looks + 1) (2 ^ 64 - 1) }
{
    program.checked();
    checked(program);
    state.checked();
    let storage = state.storage();
    begin(program, storage, inputs, &mut work.seen);
    let base = Base {
        program,
        storage,
        now,
    };
    look_rungs(base, &mut work.seen, &mut work.taken, &mut work.links);
    work.looks = work.looks.saturating_add(1);
}
