//! How each state of a set was reached, so that a run can be told. It is a hint: the run that is told is replayed.

ghost use Rattle.std.specs.Prelude.{◌≡◌, length};
ghost use Rattle.reach_search.specs.Searches.{AreWaysOf};

use crate::rows::Rows;
use diagram_program::Program;
use reach_states::Untimed;
use scan_cycle::Memory;
use scan_cycle::scene::instance;
use scan_partial::Knowledge;
use scan_signals::Tri;
use std::alloc::Global;

/// For each state the one from which a scan led to it, the inputs of that scan, and of which timers the time had passed in it.
#[derive(Drop)]
pub(crate) struct Ways {
    pub from: Vec<Option<usize>>,
    pub inputs: Rows<Tri>,
    pub over: Rows<bool>,
}

/// Whether the time of a timer that runs has passed.
fn is_over(preset: u32, kept: Untimed) -> bool {
    match kept {
        Untimed::Timer {
            running,
            elapsed,
            ..
        } => running && preset <= elapsed,
        Untimed::Counter { .. } | Untimed::Output(_) | Untimed::Anything => false,
    }
}

/// Says of each instance whether it is a timer whose time has passed.
pub(crate) fn note_over(program: &Program, known: &Knowledge<Tri, Untimed>, over: &mut [bool])
    ensures { length over.new ≡ length over.old }
{
    for inst in 0..over.len() {
        if inst < program.decls().instances().len() {
            let (_kind, preset) = instance(program, inst);
            over[inst] = is_over(preset, known.kept(inst));
        }
    }
}

impl Ways {
    /// The ways to no states.
    pub(crate) fn new(alloc: Global, inputs: usize, instances: usize) -> Ways
        ensures { AreWaysOf inputs instances result }
    {
        Ways {
            from: Vec::new(alloc),
            inputs: Rows::new(alloc, inputs),
            over: Rows::new(alloc, instances),
        }
    }

    /// Adds the way to the next state.
    ///
    /// # Errors
    ///
    /// `Memory` when out of memory.
    pub(crate) fn push(
        &mut self,
        from: Option<usize>,
        inputs: &[Tri],
        over: &[bool],
    ) -> Result<(), Memory>
        requires { AreWaysOf (length inputs.now) (length over.now) self.old }
        ensures { AreWaysOf (length inputs.now) (length over.now) self.new }
    {
        self.from.push(from)?;
        self.inputs.push(inputs)?;
        self.over.push(over)
    }

    /// The states on the way to one, the first first, and the one itself.
    ///
    /// # Errors
    ///
    /// `Memory` when out of memory.
    pub(crate) fn path(&self, alloc: Global, to: Option<usize>) -> Result<Vec<usize>, Memory> {
        let mut path: Vec<usize> = Vec::new(alloc);
        let mut here = to;
        for _ in 0..self.from.len() {
            let Some(number) = here else {
                break;
            };
            path.push(number)?;
            here = match self.from.get(number) {
                Some(from) => *from,
                None => None,
            };
        }
        path.reverse();
        Ok(path)
    }
}
