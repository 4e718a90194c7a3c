//! The faults of a question that has no list of causes, or no scan that can be shown.

use thiserror::Error;

/// Why there is no list of causes, or no scan that can be shown. Where a question breaks several rules, the first in this order is returned.
#[derive(Clone, Copy, Debug, PartialEq, Eq, Error)]
pub enum CauseFault {
    /// C1: the moment is before the stored one.
    #[error("C1: the moment is before the stored one")]
    MomentBack,
    /// C2: there is no such variable, or no coil writes it.
    #[error("C2: no coil writes this variable")]
    NotACoil,
    /// C3: more inputs are listed than [`LISTED_LIMIT`](crate::limit::LISTED_LIMIT).
    #[error("C3: too many inputs are listed")]
    TooManyFree,
    /// C4: a listed variable isn't an input, or isn't there.
    #[error("C4: a listed variable isn't an input")]
    NotAnInput,
    /// C5: an input is listed twice.
    #[error("C5: an input is listed twice")]
    RepeatedInput,
    /// C6: no assignment has this number: there are only 2 ^ k for k listed inputs.
    #[error("C6: there is no such number")]
    AfterOutOfRange,
    /// C7: out of memory.
    #[error("C7: out of memory")]
    Memory,
}
