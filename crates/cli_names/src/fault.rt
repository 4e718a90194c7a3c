//! Why an advice ends early.

use thiserror::Error;

/// Why an advice was not told whole.
#[derive(Clone, Copy, Debug, PartialEq, Eq, Error)]
pub enum AdviceFault {
    #[error("the writer failed")]
    Write,
    /// What is said was not found.
    #[error("out of memory")]
    Memory,
}
