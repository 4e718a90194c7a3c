//! Why a text isn't drawn.

ghost use Rattle.std.specs.Prelude.{◌≡◌};
ghost use Rattle.draw_program.specs.declared.fault.DrawFault.TheVariants.{Memory};

use st_program::StFault;
use std::alloc::{AllocError, AllocFailed};
use thiserror::Error;

/// Why a text isn't drawn.
#[derive(Clone, Copy, Debug, Error)]
pub enum DrawFault {
    #[error("out of memory")]
    Memory,
    /// The text is no program in Structured Text.
    #[error("{0}")]
    Text(StFault),
    /// In a drawing two names would be one; the later one begins at this place.
    #[error("in a drawing two names would be one")]
    AlikeNames { at: usize },
    /// The drawing would have more rungs than a program can have: this many.
    #[error("{0} rungs: a program has at most 100")]
    TooManyRungs(usize),
    /// The drawing would have more variables than a program can have: this many.
    #[error("{0} variables: a program has at most 256")]
    TooManyVariables(usize),
    /// More timers, counters and bistables are declared than a program can have: this many.
    #[error("{0} blocks: a program has at most 64")]
    TooManyBlocks(usize),
    /// What was drawn isn't found to do what the statements do.
    #[error("the drawing isn't the statements")]
    NotFaithful,
}

impl From<AllocError> for DrawFault {
    ghost from_gives = { λ _ e. e ≡ Memory };

    /// Drawing needed memory that there isn't.
    fn from(_error: AllocError) -> DrawFault {
        DrawFault::Memory
    }
}

impl<T: Drop> From<AllocFailed<T>> for DrawFault {
    ghost from_gives = { λ _ e. e ≡ Memory };

    /// The same, where the value that found no room is handed back; it is dropped.
    fn from(_error: AllocFailed<T>) -> DrawFault {
        DrawFault::Memory
    }
}
