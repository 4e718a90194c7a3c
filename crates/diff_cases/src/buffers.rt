//! The buffers of a search by cases, side by side.

ghost use Rattle.std.specs.Prelude.{IfOk};
ghost use Rattle.diff_cases.specs.Buffers.{AreAlikeBuffers};

use crate::partners::Partners;
use crate::tracing::TraceBuffers;
use diagram_program::Program;
use diff_matching::Matching;
use invariant_cases::CaseBuffers;
use scan_cycle::Memory;
use std::alloc::Global;

/// What is known of a state of each program before a scan, and after it.
#[derive(Drop)]
pub struct AlikeBuffers {
    pub of_old: CaseBuffers,
    pub of_new: CaseBuffers,
    pub(crate) old_traces: TraceBuffers,
    pub(crate) new_traces: TraceBuffers,
    pub(crate) partners: Partners,
}

impl AlikeBuffers {
    /// Buffers for two programs and what belongs together in them.
    ///
    /// # Errors
    ///
    /// `Memory` when out of memory.
    pub fn new(
        alloc: Global,
        old: &Program,
        new: &Program,
        matching: &Matching,
    ) -> Result<AlikeBuffers, Memory>
        ensures { IfOk result (λ b. AreAlikeBuffers old.now new.now b) }
    {
        Ok(AlikeBuffers {
            of_old: CaseBuffers::new(alloc, old)?,
            of_new: CaseBuffers::new(alloc, new)?,
            old_traces: TraceBuffers::new(alloc, old)?,
            new_traces: TraceBuffers::new(alloc, new)?,
            partners: Partners::new(alloc, old, new, matching)?,
        })
    }
}
