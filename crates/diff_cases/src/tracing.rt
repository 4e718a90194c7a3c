//! A scan over what is known of the states, and of the step of each instance.

ghost use Rattle.std.specs.Prelude.{◌≡◌, IfOk, length, map};
ghost use Rattle.scan_partial.specs.Sizes.{HasSizes, IsSpareFor};
ghost use Rattle.diff_cases.specs.Buffers.{AreTraceBuffers};
ghost use Rattle.diff_cases.specs.Traces.{trace_of, traced_after, unstepped};

use crate::trace::{Trace, Traced};
use diagram_program::Program;
use invariant_cases::Outcome;
use scan_cycle::Memory;
use scan_partial::{Knowledge, Room, scan_known};
use scan_signals::Tri;
use std::alloc::Global;

/// What is known of a state and of the steps of its instances.
#[derive(Drop)]
pub struct TraceBuffers {
    pub(crate) known: Knowledge<Tri, Traced>,
    /// What is known of the instances before a scan.
    pub(crate) blocks: Vec<Traced>,
}

/// What is known of an instance of which nothing is.
const UNKNOWN: Traced = Traced {
    outcome: Outcome::Anything,
    trace: Trace::Open,
};

impl TraceBuffers {
    /// Buffers for a program.
    ///
    /// # Errors
    ///
    /// `Memory` when out of memory.
    pub fn new(alloc: Global, program: &Program) -> Result<TraceBuffers, Memory>
        ensures { IfOk result (λ b. AreTraceBuffers program.now b) }
    {
        Ok(TraceBuffers {
            known: Knowledge::new(alloc, program)?,
            blocks: vec![in alloc; UNKNOWN; program.decls().instances().len()]?,
        })
    }

    /// What is known of the step of an instance.
    pub(crate) fn trace(&self, inst: usize) -> Trace
        ensures { result ≡ trace_of inst self.now.known }
    {
        self.known.kept(inst).trace
    }
}

/// Of each instance what is known before a scan, where it has made no step.
fn begin(blocks: &[Outcome], traced: &mut [Traced])
    requires { length traced.old ≡ length blocks.now }
    ensures { traced.new ≡ map unstepped blocks.now }
{
    for inst in 0..traced.len() {
        traced[inst] = Traced {
            outcome: blocks[inst],
            trace: Trace::Unstepped,
        };
    }
}

/// What is known after a scan from what is known in the case.
pub(crate) fn scan_traced(
    program: &Program,
    case: &Knowledge<Tri, Outcome>,
    buffers: &mut TraceBuffers,
    room: &mut Room<Tri>,
)
    requires case { HasSizes program.now case.now }
    requires buffers { AreTraceBuffers program.now buffers.old }
    requires room { IsSpareFor program.now room.old }
    ensures known { buffers.new.known ≡ traced_after program.now case.now }
    ensures buffers { AreTraceBuffers program.now buffers.new }
    ensures room { room.new ≡ room.old }
{
    begin(case.blocks(), &mut buffers.blocks);
    buffers
        .known
        .set_parts(case.values(), case.memories(), &buffers.blocks);
    scan_known(program, &mut buffers.known, &[], 0, room);
}
