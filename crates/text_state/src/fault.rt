//! Why a text is no state.

use thiserror::Error;

/// Why a text is no state of a program.
#[derive(Clone, Copy, Debug, Drop, Error, PartialEq, Eq)]
pub enum StateFault {
    /// The record of this number, counted from 1, is the first that isn't of its form. It may be missing, or one too many.
    #[error("record {row} is bad")]
    BadRow { row: u64 },
    #[error("out of memory")]
    Memory,
}
