//! Why a project has no program that can be read.

use std::fmt;
use thiserror::Error;
use xml_document::Span;

/// Why a project has no program that can be read. The spans are those of the document.
#[derive(Clone, Copy, Error)]
pub enum PlcFault {
    #[error("out of memory")]
    Memory,
    /// The root isn't a `project` with `types` and `pous` in it.
    #[error("this is no PLCopen project")]
    NoProject,
    /// No `pou` is a program, or none has the name that was asked for.
    #[error("no such program is in the project")]
    NoProgram,
    /// Several are programs, or have that name.
    #[error("several such programs are in the project")]
    SeveralPrograms,
    /// The body isn't one `LD`.
    #[error("the program isn't a ladder diagram")]
    OtherLanguage,
    #[error("{reason}")]
    Variable {
        /// The name of the variable, of the program, or of the list that the variable is in.
        name: Span,
        reason: PlcReason,
    },
    #[error("{reason}")]
    Element {
        /// The `localId` of the element; no bytes where it has none.
        number: Span,
        reason: PlcReason,
    },
    #[error("the program is too large")]
    TooLarge,
}

impl fmt::Debug for PlcFault {
    /// Writes the sentence.
    fn fmt<W: fmt::Write>(&self, f: &mut fmt::Formatter<W>) -> fmt::Result {
        fmt::Display::fmt(self, f)
    }
}

/// What a program can't have.
#[derive(Clone, Copy, Debug, Error)]
pub enum PlcReason {
    #[error("a name that has other characters than letters, digits and underscores")]
    Name,
    #[error("a name that is declared twice")]
    Twice,
    #[error("a list of variables that are retained or constant")]
    Retain,
    #[error("an address that can't be read")]
    Address,
    #[error("an address that another variable has")]
    AddressTwice,
    #[error("an initial value that can't be read")]
    Initial,
    #[error("a name that isn't declared")]
    Undeclared,
    #[error("a type that a program can't have, or another one than is due here")]
    Type,
    #[error("an element that isn't known")]
    Unknown,
    #[error("two elements with this number")]
    SameNumber,
    #[error("a position, a number or an attribute that can't be read")]
    Value,
    #[error("an edge")]
    Edge,
    #[error("a negation or a storage that it can't have")]
    Modifier,
    #[error("a block that isn't known")]
    Block,
    #[error("an input or an output of a block that isn't known, or twice")]
    Formal,
    #[error("a preset that is no literal, or one that the block can't have")]
    Preset,
    #[error("a block with no preset")]
    NoPreset,
    #[error("a jump that leads up, to no label or to several, or into or out of what another one passes over")]
    Jump,
    #[error("a connection with a number that no element has")]
    Connection,
    #[error("something that has no power is connected")]
    Powerless,
    #[error("a contact with nothing connected on its left")]
    Unconnected,
    #[error("a coil beside others that are connected, with a rail or several connections on its left")]
    Parallel,
    #[error("a second use of a block")]
    Second,
    #[error("a block that is called after something that its output leads to, or by it")]
    Late,
}
