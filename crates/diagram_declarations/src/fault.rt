//! The rules of a block of declarations, and the faults of a text.

ghost use Rattle.std.specs.Prelude.{◌≡◌};
ghost use Rattle.diagram_declarations.specs.declared.fault.Stopped.TheVariants.{NoMemory, Broken};

use std::alloc::{AllocError, AllocFailed};
use thiserror::Error;

/// The rules of a block of declarations.
#[derive(Clone, Copy, Debug, PartialEq, Eq, Error)]
pub enum VarRule {
    /// V1: outside comments a byte is a space, a tab, a line end or from 0x21 to 0x7E.
    #[error("V1: this byte may stand in comments only")]
    BadByte,
    /// V2: the tokens are those of the grammar.
    #[error("V2: this token may not stand here")]
    BadToken,
    /// V3: a name is no keyword and has at most 11 characters, that of an instance at most 9, and of a bistable at most 8.
    #[error("V3: this is no name")]
    BadName,
    /// V4: each name is declared once, whatever the case of its letters.
    #[error("V4: this name was declared before")]
    Duplicate,
    /// V5: each address is declared once.
    #[error("V5: this address was declared before")]
    DuplicateAddress,
    /// V6: a preset is a duration or a number within its limits.
    #[error("V6: this is no preset for the block")]
    BadPreset,
    /// V7: there are at most 256 variables and 64 instances.
    #[error("V7: there are too many variables or instances")]
    TooMany,
    /// V8: the block and its comments end.
    #[error("V8: the text ends too early")]
    Unfinished,
    /// V9: out of memory; no rule of the text.
    #[error("V9: out of memory")]
    Memory,
}

/// A rule that a text breaks, and the line where it shows, counted from 1; line 0 with `Memory`.
#[derive(Clone, Copy, Debug, PartialEq, Eq, Error)]
#[error("line {line}: {rule}")]
pub struct VarFault {
    pub rule: VarRule,
    pub line: usize,
}

/// A rule that a text breaks, and how many of its bytes are left where reading stops.
#[derive(Clone, Copy)]
pub(crate) struct Fault {
    pub rule: VarRule,
    pub left: usize,
}

/// Why a text was not read.
#[derive(Drop)]
pub(crate) enum Stopped {
    NoMemory,
    Broken(Fault),
}

impl From<AllocError> for Stopped {
    ghost from_gives = { λ _ e. e ≡ NoMemory };

    /// Reading needed memory that there isn't.
    fn from(_error: AllocError) -> Stopped {
        Stopped::NoMemory
    }
}

impl<T: Drop> From<AllocFailed<T>> for Stopped {
    ghost from_gives = { λ _ e. e ≡ NoMemory };

    /// The same, where the value that found no room is handed back; it is dropped.
    fn from(_error: AllocFailed<T>) -> Stopped {
        Stopped::NoMemory
    }
}

impl From<Fault> for Stopped {
    ghost from_gives = { λ f e. e ≡ Broken f };

    /// The text breaks a rule.
    fn from(fault: Fault) -> Stopped {
        Stopped::Broken(fault)
    }
}
