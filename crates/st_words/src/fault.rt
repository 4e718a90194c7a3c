//! Why a text is no list of words.

ghost use Rattle.std.specs.Prelude.{◌≡◌};
ghost use Rattle.st_words.specs.declared.fault.WordFault.TheVariants.{Memory};

use std::alloc::{AllocError, AllocFailed};
use thiserror::Error;

/// Why a text is no list of words.
#[derive(Clone, Copy, Debug, PartialEq, Eq, Error)]
pub enum WordFault {
    #[error("out of memory")]
    Memory,
    /// No word begins with this byte, or it begins a comment that has no end.
    #[error("a character that isn't allowed here, or a comment with no end")]
    Character { at: usize },
}

impl From<AllocError> for WordFault {
    ghost from_gives = { λ _ e. e ≡ Memory };

    /// Reading needed memory that there isn't.
    fn from(_error: AllocError) -> WordFault {
        WordFault::Memory
    }
}

impl<T: Drop> From<AllocFailed<T>> for WordFault {
    ghost from_gives = { λ _ e. e ≡ Memory };

    /// The same, where the value that found no room is handed back; it is dropped.
    fn from(_error: AllocFailed<T>) -> WordFault {
        WordFault::Memory
    }
}
