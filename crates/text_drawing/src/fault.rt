//! Why a drawing isn't shown.

use thiserror::Error;

/// Why a drawing isn't shown to its end.
#[derive(Clone, Copy, Debug, Drop, Error, PartialEq, Eq)]
pub enum ShowFault {
    /// Nothing was written.
    #[error("out of memory")]
    Memory,
    /// What was written is a prefix of the text.
    #[error("the writer failed")]
    Write,
}
