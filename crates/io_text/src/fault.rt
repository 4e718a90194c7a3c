//! Why a text could not be read or written.

use thiserror::Error;

/// Why a text could not be read.
#[derive(Clone, Copy, Debug, Drop, Error, PartialEq, Eq)]
pub enum ReadFault {
    /// A call of the reader failed.
    #[error("the reader failed")]
    Read,
    /// More bytes came than the limit allows.
    #[error("the text is too long")]
    TooLong,
    #[error("out of memory")]
    Memory,
}

/// A call of the writer failed. What it took before is a prefix of the text.
#[derive(Clone, Copy, Debug, Drop, Error, PartialEq, Eq)]
#[error("the writer failed")]
pub struct WriteFault;
