//! The slice of a program for a variable.

ghost use Rattle.std.specs.Prelude.{◌≡◌, ◌+◌, ◌-◌, ◌^◌, All, length, min, false, slice_index_or, IfOk};
ghost use Rattle.diagram_program.specs.Steps.{steps_below};
ghost use Rattle.scan_cycle.specs.Programs.{diagram_of};
ghost use Rattle.scan_cycle.specs.Standing.{Fits};
ghost use Rattle.scan_symbolic.specs.Look.{after_look};
ghost use Rattle.scan_symbolic.specs.Outcomes.{left_of, outcome_of};
ghost use Rattle.scan_symbolic.specs.Sheets.{HasRoom};
ghost use Rattle.scan_symbolic.specs.Stepping.{IsWithin};
ghost use Rattle.scan_symbolic.specs.Slicing.{kept_of, slice_of};

use crate::by_steps::look_by_steps;
use crate::looking::Work;
use crate::marks::Marks;
use crate::outcome::Outcome;
use crate::reading::{keeps, read_step};
use diagram_program::Program;
use diagram_program::steps::Step;
use scan_cycle::scene::checked;
use scan_cycle::{Memory, State};
use scan_signals::Signal;
use std::alloc::{AllocError, Global};
use std::marker::Model;

/// The steps of a program that matter to one of its variables.
#[derive(Drop)]
pub struct Slice<'a> {
    program: &'a Program,
    var: usize,
    steps: Vec<Step>,
}

impl<'a> Model for Slice<'a> {
    ghost use Rattle.std.specs.Prelude.{◌≡◌};
    ghost use Rattle.scan_symbolic.specs.Slices.{SliceOf};
    ghost use Rattle.scan_symbolic.specs.Slicing.{slice_of};

    ghost Value = { SliceOf };

    ghost view = { λ s. record {
      program = s.program.now;
      variable = s.var;
    } };

    ghost invariant = { λ s. s.steps.items ≡ slice_of s.program.now s.var };
}

/// The steps that matter, in their order, found from the last one to the first. `marks` are those of what is read after these
/// steps, and become those of what is read before.
fn kept_steps(
    alloc: Global,
    program: &Program,
    steps: &[Step],
    marks: &mut Marks,
) -> Result<Vec<Step>, AllocError>
    requires { All (IsWithin program.now.rungs (length program.now.decls.vars)) steps.now }
    ensures { IfOk result (λ v. v.items ≡ kept_of program.now steps.now marks.old) }
{
    let mut kept: Vec<Step> = Vec::new(alloc);
    for after in 0..steps.len() {
        let step = steps[steps.len() - 1 - after];
        if keeps(program, marks, step) {
            read_step(program, marks, step);
            kept.push(step)?;
        }
    }
    kept.reverse();
    Ok(kept)
}

impl<'a> Slice<'a> {
    /// The slice of a program for a variable, by its number in order of declaration.
    ///
    /// # Errors
    ///
    /// `Memory` when out of memory.
    pub fn new(alloc: Global, program: &'a Program, var: usize) -> Result<Slice<'a>, Memory>
        ensures program { IfOk result (λ s. s.program ≡ program.now) }
        ensures variable { IfOk result (λ s. s.variable ≡ var) }
    {
        program.checked();
        checked(program);
        let mut marks = Marks::for_variable(alloc, program, var)?;
        let steps = kept_steps(alloc, program, program.steps(), &mut marks)?;
        Ok(Slice {
            program,
            var,
            steps,
        })
    }

    /// One scan over a signal at the moment `now`, from the values, memories and instances of the state, which is not changed. `work`
    /// then holds what [`look`] leaves of the variable of the slice, which is the outcome; of the other variables it may hold anything.
    ///
    /// It needs no memory.
    ///
    /// [`look`]: crate::looking::look
    pub fn look<S: Signal>(
        &self,
        state: &State,
        inputs: &[S],
        now: u64,
        work: &mut Work<S>,
    ) -> Outcome<S>
        requires state { Fits self.now.program state.now }
        requires work { HasRoom self.now.program work.old }
        requires inputs { All S.value inputs.now }
        ensures outcome { outcome_of result ≡ left_of S.algebra (diagram_of self.entry.now.program) now inputs.now state.now.held self.entry.now.variable }
        ensures value { slice_index_or work.new.values self.entry.now.variable (S.algebra.known false)
            ≡ slice_index_or (after_look S.algebra (diagram_of self.entry.now.program) now inputs.now state.now.held) self.entry.now.variable (S.algebra.known false) }
        ensures fits { HasRoom self.entry.now.program work.new }
        ensures looks { work.new.looks ≡ min (work.old.looks + 1) (2 ^ 64 - 1) }
    {
        self.program.checked();
        checked(self.program);
        look_by_steps(
            self.program,
            state,
            inputs,
            now,
            &self.steps,
            self.var,
            work,
        )
    }
}
