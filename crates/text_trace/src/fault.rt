//! Why a simulation ends early.

use thiserror::Error;

/// Why a simulation ends before the end of its stimulus. Records are counted from 1, the header included.
#[derive(Clone, Copy, Debug, Drop, Error, PartialEq, Eq)]
pub enum SimFault {
    /// X2: a record isn't of its form.
    #[error("record {row} is bad")]
    BadRow { row: u64 },
    /// X3: a word of the header isn't the name of an input.
    #[error("record {row} names no input")]
    UnknownName { row: u64 },
    /// X4: a moment before that of the state.
    #[error("record {row} goes back in time")]
    MomentBack { row: u64 },
    /// X5: there are more records than a simulation takes.
    #[error("record {row} is one too many")]
    TooLong { row: u64 },
    /// X6: the writer of what is recorded failed.
    #[error("the writer failed")]
    Write,
    /// X7: out of memory.
    #[error("out of memory")]
    Memory,
}

/// Why a simulation ends early whose lines tell how far it is.
#[derive(Clone, Copy, Debug, PartialEq, Eq)]
pub enum WatchFault {
    /// The simulation does.
    Sim(SimFault),
    /// X6: the writer of the lines failed.
    Lines,
}
