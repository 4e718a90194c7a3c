//! Why a text is no assumption.

ghost use Rattle.std.specs.Prelude.{◌≡◌};
ghost use Rattle.assume_reading.specs.declared.fault.AssumptionFault.TheVariants.{Memory};

use std::alloc::{AllocError, AllocFailed};
use thiserror::Error;

/// Why a text is no assumption.
#[derive(Clone, Copy, Debug, PartialEq, Eq, Error)]
pub enum AssumptionFault {
    #[error("out of memory")]
    Memory,
    /// No word begins with this byte, or it begins a comment that has no end.
    #[error("a character that isn't allowed here, or a comment with no end")]
    Character { at: usize },
    /// The word from `start` to before `end` is the first that is neither one of an expression nor the name of an input.
    #[error("this is no input")]
    NotAnInput { start: usize, end: usize },
    /// The words are those of an expression, but make none, or more than one.
    #[error("this is no expression")]
    NoExpression,
    /// More than 100 parentheses, NOTs and operators stand within one another.
    #[error("the expression is nested too deep")]
    TooDeep,
}

impl From<AllocError> for AssumptionFault {
    ghost from_gives = { λ _ e. e ≡ Memory };

    /// Reading needed memory that there isn't.
    fn from(_error: AllocError) -> AssumptionFault {
        AssumptionFault::Memory
    }
}

impl<T: Drop> From<AllocFailed<T>> for AssumptionFault {
    ghost from_gives = { λ _ e. e ≡ Memory };

    /// The same, where the value that found no room is handed back; it is dropped.
    fn from(_error: AllocFailed<T>) -> AssumptionFault {
        AssumptionFault::Memory
    }
}

/// Which of several texts is refused first, counted from 1, and why.
#[derive(Clone, Copy, Debug, PartialEq, Eq, Error)]
#[error("assumption {number}: {fault}")]
pub struct RefusedText {
    pub number: usize,
    pub fault: AssumptionFault,
}
