//! Why a program isn't exported.

ghost use Rattle.std.specs.Prelude.{◌≡◌};
ghost use Rattle.export_program.specs.declared.fault.ExportFault.TheVariants.{Memory};

use std::alloc::AllocError;
use thiserror::Error;

/// Why a program isn't exported.
#[derive(Clone, Copy, Debug, PartialEq, Eq, Error)]
pub enum ExportFault {
    #[error("out of memory")]
    Memory,
    /// The name that the program is to have is no name in Structured Text, or something is declared by it.
    #[error("the program can't have this name")]
    ProgramName,
    /// Addresses are to be written by byte and bit, and that of this variable, the first such one, has two numbers already.
    #[error("an address has two numbers already")]
    TwoNumbers { variable: usize },
    /// What was written has more statements or more names than are read again.
    #[error("the text has too many statements or names")]
    TooLarge,
    /// What was written isn't found to be the program.
    #[error("the text isn't the program")]
    NotFaithful,
}

impl From<AllocError> for ExportFault {
    ghost from_gives = { λ _ e. e ≡ Memory };

    /// Exporting needed memory that there isn't.
    fn from(_error: AllocError) -> ExportFault {
        ExportFault::Memory
    }
}
