//! The buffers of a search.

ghost use Rattle.std.specs.Prelude.{IfOk};
ghost use Rattle.causes_any_state.specs.Searching.{AreStateBuffers};

use crate::batch_look::{BatchLook, new_batch_look};
use crate::query::{Knowing, Tried, new_knowing, new_tried};
use diagram_program::Program;
use scan_cycle::Memory;
use std::alloc::Global;

/// The buffers of a search.
#[derive(Drop)]
pub(crate) struct StateBuffers {
    pub knowing: Knowing,
    pub tried: Tried,
    pub sight: BatchLook,
}

/// Room for the searches in a program.
pub(crate) fn new_state_buffers(alloc: Global, program: &Program) -> Result<StateBuffers, Memory>
    ensures { IfOk result (λ s. AreStateBuffers program.now s) }
{
    let knowing = new_knowing(alloc, program)?;
    let tried = new_tried(alloc, program)?;
    let sight = new_batch_look(alloc, program)?;
    Ok(StateBuffers {
        knowing,
        tried,
        sight,
    })
}
