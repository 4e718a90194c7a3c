//! Why tokens are not read as an expression.

ghost use Rattle.std.specs.Prelude.{◌≡◌};
ghost use Rattle.st_expression.specs.declared.fault.ReadFault.TheVariants.{Memory};

use std::alloc::{AllocError, AllocFailed};
use thiserror::Error;

/// Why tokens are not read as an expression.
#[derive(Clone, Copy, Debug, PartialEq, Eq, Error)]
pub enum ReadFault {
    #[error("out of memory")]
    Memory,
    #[error("this is no expression")]
    NoExpression,
    /// More than `DEPTH` parentheses, NOTs and operators stand within one another.
    #[error("the expression is nested too deep")]
    TooDeep,
}

impl From<AllocError> for ReadFault {
    ghost from_gives = { λ _ e. e ≡ Memory };

    /// Reading needed memory that there isn't.
    fn from(_error: AllocError) -> ReadFault {
        ReadFault::Memory
    }
}

impl<T: Drop> From<AllocFailed<T>> for ReadFault {
    ghost from_gives = { λ _ e. e ≡ Memory };

    /// The same, where the value that found no room is handed back; it is dropped.
    fn from(_error: AllocFailed<T>) -> ReadFault {
        ReadFault::Memory
    }
}
