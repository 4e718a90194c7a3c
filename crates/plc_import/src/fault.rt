//! Why a project has no program text.

use draw_program::DrawFault;
use plc_text::PlcFault;
use st_program::{Refusal, StFault};
use thiserror::Error;

/// Why a project has no program text.
#[derive(Clone, Copy, Debug, Error)]
pub enum PlcImportFault {
    #[error("out of memory")]
    Memory,
    /// There is no such unit, or it has something that no program has.
    #[error("{0}")]
    Unit(PlcFault),
    /// What it says is refused in Structured Text.
    #[error("{0}")]
    Statements(StFault),
    /// In a drawing two names would be one.
    #[error("in a drawing two names would be one")]
    AlikeNames,
    /// So many rungs, more than a program may have.
    #[error("a drawing of {0} rungs")]
    TooManyRungs(usize),
    /// So many variables, with the helpers of the drawing, more than a program may have.
    #[error("a drawing of {0} variables")]
    TooManyVariables(usize),
    /// So many timers, counters and bistables, more than a program may have.
    #[error("a drawing of {0} blocks")]
    TooManyBlocks(usize),
    /// A fault of this library: the text isn't found to do what the unit does.
    #[error("the drawing isn't found to do what the diagram does")]
    NotFaithful,
}

impl From<std::alloc::AllocError> for PlcImportFault {
    /// An import that needed memory that there isn't.
    fn from(_error: std::alloc::AllocError) -> PlcImportFault {
        PlcImportFault::Memory
    }
}

/// Why the program that a unit is can't be drawn.
pub(crate) fn undrawn(fault: DrawFault) -> PlcImportFault {
    match fault {
        DrawFault::Memory | DrawFault::Text(StFault::Words(Refusal::Memory)) => {
            PlcImportFault::Memory
        }
        DrawFault::TooManyRungs(count) => PlcImportFault::TooManyRungs(count),
        DrawFault::TooManyVariables(count) => PlcImportFault::TooManyVariables(count),
        DrawFault::TooManyBlocks(count) => PlcImportFault::TooManyBlocks(count),
        DrawFault::Text(fault) => PlcImportFault::Statements(fault),
        DrawFault::AlikeNames { .. } => PlcImportFault::AlikeNames,
        DrawFault::NotFaithful => PlcImportFault::NotFaithful,
    }
}
