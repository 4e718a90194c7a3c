//! Why a text is no program.

ghost use Rattle.std.specs.Prelude.{◌≡◌};
ghost use Rattle.st_program.specs.declared.fault.Refusal.TheVariants.{Memory};
ghost use Rattle.st_program.specs.declared.fault.StFault.TheVariants.{Words};

use crate::mark::Mark;
use std::alloc::{AllocError, AllocFailed};
use thiserror::Error;

/// Which word is due at a place.
#[derive(Clone, Copy, Debug)]
pub enum Expected {
    Mark(Mark),
    /// A name that can be declared: a letter or an underscore, then letters, digits and underscores, and no keyword.
    Name,
    /// A place such as `%IX0.0`.
    Address,
    /// `TRUE` or `FALSE`.
    Constant,
    /// `PT` of a timer or `PV` of a counter.
    Parameter,
    /// A duration such as `T#5s`, or a number up to 32767.
    Preset,
    /// A number up to 32767, which an INT is to have.
    Number,
    /// The name of an INT.
    Integer,
    Expression,
    /// A statement, or the end of those before.
    Statement,
    /// An input, a preset or an output of the block that is called, which isn't given yet.
    Argument,
    /// The end of the text.
    End,
}

/// Why words are no program, and the place of the word where that is seen; None at the end of the text.
#[derive(Clone, Copy, Debug, Error)]
pub enum Refusal {
    #[error("out of memory")]
    Memory,
    #[error("another word is due")]
    Due {
        at: Option<usize>,
        expected: Expected,
    },
    #[error("the name isn't declared, or declared twice")]
    Name {
        at: Option<usize>,
    },
    #[error("a type that a program can't have")]
    Type {
        at: Option<usize>,
    },
    #[error("a statement or an operator that can't be drawn")]
    Undrawable {
        at: Option<usize>,
    },
    #[error("an INT that is neither set to a number, compared with one nor chosen by CASE")]
    Integer {
        at: Option<usize>,
    },
    #[error("what a program can't read or write of a block")]
    Member {
        at: Option<usize>,
    },
    #[error("an input is written")]
    Input {
        at: Option<usize>,
    },
    #[error("a block that is called twice, or has no preset or two")]
    Call {
        at: Option<usize>,
    },
    #[error("too many statements or names")]
    TooMany {
        at: Option<usize>,
    },
    #[error("the expression is nested too deep")]
    TooDeep {
        at: Option<usize>,
    },
}

impl From<AllocError> for Refusal {
    ghost from_gives = { λ _ e. e ≡ Memory };

    /// Reading needed memory that there isn't.
    fn from(_error: AllocError) -> Refusal {
        Refusal::Memory
    }
}

impl<T: Drop> From<AllocFailed<T>> for Refusal {
    ghost from_gives = { λ _ e. e ≡ Memory };

    /// The same, where the value that found no room is handed back; it is dropped.
    fn from(_error: AllocFailed<T>) -> Refusal {
        Refusal::Memory
    }
}

/// Why a text is no program.
#[derive(Clone, Copy, Debug, Error)]
pub enum StFault {
    /// No word begins at this place, and no comment that has an end.
    #[error("a character that isn't allowed here, or a comment with no end")]
    Character { at: usize },
    /// Its words are no program, or memory runs out.
    #[error("{0}")]
    Words(Refusal),
}

impl From<Refusal> for StFault {
    ghost from_gives = { λ refusal e. e ≡ Words refusal };

    /// The words are refused.
    fn from(refusal: Refusal) -> StFault {
        StFault::Words(refusal)
    }
}
