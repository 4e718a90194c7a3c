//! The choice of the input of which both values are tried next, and of what of a state is to be kept. It decides how long a search takes, and
//! nothing else.

ghost use Rattle.std.specs.Prelude.{◌≡◌, ◌<◌, IfSome, length, slice_index_or};
ghost use Rattle.scan_signals.specs.declared.tri.Tri.TheVariants as tri;

use crate::target::told_all;
use diagram_program::Program;
use reach_leads::{Kept, Trace, lead_of_kept, lead_of_target, noted};
use reach_runs::RunQuery;
use reach_states::Untimed;
use scan_cycle::Memory;
use scan_partial::Knowledge;
use scan_signals::Tri;
use std::alloc::Global;

/// What is chosen with, and what was found to be of use if it were kept.
#[derive(Drop)]
pub(crate) struct Chooser {
    trace: Trace,
    /// It leaves the target open.
    wanted_by_target: Kept,
    /// It leaves something open that is kept.
    wanted_by_kept: Kept,
    /// How many scans were traced.
    looks: u64,
}

impl Chooser {
    /// For a program.
    ///
    /// # Errors
    ///
    /// `Memory` when out of memory.
    pub(crate) fn new(alloc: Global, program: &Program) -> Result<Chooser, Memory> {
        Ok(Chooser {
            trace: Trace::new(alloc, program)?,
            wanted_by_target: Kept::nothing(alloc, program)?,
            wanted_by_kept: Kept::nothing(alloc, program)?,
            looks: 0,
        })
    }

    /// How many scans were traced, which is nearly all the work of a search.
    pub(crate) fn looks(&self) -> u64 {
        self.looks
    }

    /// The place of an input that leaves the target open after a scan, or else something that is kept. What of the state before it does is noted.
    fn lead(
        &mut self,
        query: RunQuery<'_>,
        kept: &Kept,
        before: &Knowledge<Tri, Untimed>,
        inputs: &[Tri],
        after: &Knowledge<Tri, Untimed>,
    ) -> Option<usize> {
        let target = told_all(query.target, after);
        if target == Tri::On {
            return None;
        }
        self.trace.scan(query.program, before, inputs);
        self.looks = self.looks.wrapping_add(1);
        if target == Tri::Unsure {
            let lead = lead_of_target(&self.trace, query.target);
            return noted(query.program, lead, &mut self.wanted_by_target);
        }
        lead_of_kept(query.program, &self.trace, kept, &mut self.wanted_by_kept)
    }

    /// The input of which both values are to be tried in a scan, if there is one. It is open.
    pub(crate) fn choose(
        &mut self,
        query: RunQuery<'_>,
        kept: &Kept,
        before: &Knowledge<Tri, Untimed>,
        inputs: &[Tri],
        after: &Knowledge<Tri, Untimed>,
    ) -> Option<usize>
        ensures range { IfSome result (λ input. input < length inputs.now) }
        ensures open { IfSome result (λ input. slice_index_or inputs.now input tri.Off ≡ tri.Unsure) }
    {
        let input = self.lead(query, kept, before, inputs, after)?;
        if input < inputs.len() && inputs[input] == Tri::Unsure {
            return Some(input);
        }
        None
    }

    /// Keeps what leaves the target open, or else what leaves something open that is kept, or else all. Says whether something wasn't kept.
    pub(crate) fn widen(&self, kept: &mut Kept) -> bool {
        kept.add_each(&self.wanted_by_target)
            || kept.add_each(&self.wanted_by_kept)
            || kept.add_all()
    }
}
