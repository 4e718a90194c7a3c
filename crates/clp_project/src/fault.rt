//! Why a text is no project that can be read.

ghost use Rattle.std.specs.Prelude.{◌≡◌};
ghost use Rattle.clp_project.specs.declared.fault.ClpFault.TheVariants.{Memory};

use std::alloc::{AllocError, AllocFailed};
use thiserror::Error;

/// The tables of a project that are read line by line.
#[derive(Clone, Copy, Debug)]
pub enum Table {
    /// `timers.csv`.
    Timers,
    /// `monostables.csv`.
    Monostables,
    /// `timers_iec.csv`.
    IecTimers,
    /// `sections.csv`.
    Sections,
}

/// Why a text is no project that can be read.
#[derive(Clone, Copy, Debug, Error)]
pub enum ClpFault {
    #[error("out of memory")]
    Memory,
    /// The first line isn't `_FILES_CLASSICLADDER`.
    #[error("this is no ClassicLadder project")]
    NoProject,
    /// The part of a rung isn't 6 rows of 10 elements, or doesn't say which rung is next.
    #[error("rung {rung}: this is no rung of 6 rows of 10 elements")]
    BadRung { rung: u32 },
    /// A line of a table isn't the numbers that it should be.
    #[error("a table has a line that isn't numbers")]
    BadTable { table: Table },
    /// A section is a sequential chart, or in another language that isn't ladder.
    #[error("section {section} isn't a ladder diagram")]
    NotLadder { section: u32 },
    /// From the first rung of a section the next ones don't lead to its last.
    #[error("section {section}: the rungs after its first one don't lead to its last")]
    BrokenWay { section: u32 },
}

impl From<AllocError> for ClpFault {
    ghost from_gives = { λ _ e. e ≡ Memory };

    /// Reading needed memory that there isn't.
    fn from(_error: AllocError) -> ClpFault {
        ClpFault::Memory
    }
}

impl<T: Drop> From<AllocFailed<T>> for ClpFault {
    ghost from_gives = { λ _ e. e ≡ Memory };

    /// The same, where the value that found no room is handed back; it is dropped.
    fn from(_error: AllocFailed<T>) -> ClpFault {
        ClpFault::Memory
    }
}
