//! The buffers of a search by cases.

ghost use Rattle.std.specs.Prelude.{IfOk};
ghost use Rattle.invariant_cases.specs.Buffers.{AreCaseBuffers};

use crate::outcome::Outcome;
use diagram_program::Program;
use scan_cycle::Memory;
use scan_partial::{Knowledge, Room};
use scan_signals::Tri;
use std::alloc::Global;

/// What is known before a scan, and after it.
#[derive(Drop)]
pub struct CaseBuffers {
    /// What is known before a scan: the case.
    pub case: Knowledge<Tri, Outcome>,
    /// What is known after it.
    pub trial: Knowledge<Tri, Outcome>,
    /// The links of a rung.
    pub room: Room<Tri>,
}

impl CaseBuffers {
    /// Buffers for a program.
    ///
    /// # Errors
    ///
    /// `Memory` when out of memory.
    pub fn new(alloc: Global, program: &Program) -> Result<CaseBuffers, Memory>
        ensures { IfOk result (λ b. AreCaseBuffers program.now b) }
    {
        Ok(CaseBuffers {
            case: Knowledge::new(alloc, program)?,
            trial: Knowledge::new(alloc, program)?,
            room: Room::new(alloc, program)?,
        })
    }
}
