//! The rules of a drawing, and where reading one stops.

ghost use Rattle.std.specs.Prelude.{◌≡◌};
ghost use Rattle.diagram_reader.specs.declared.grid_rule.Stop.TheVariants.{NoMemory};

use std::alloc::{AllocError, AllocFailed};
use thiserror::Error;

/// The rules of a drawing.
#[derive(Clone, Copy, Debug, PartialEq, Eq, Error)]
pub enum GridRule {
    /// G1: past place 120 there are spaces alone.
    #[error("G1: past the right rail there may be spaces alone")]
    TooWide,
    /// G2: a rung has at most 12 lines.
    #[error("G2: a rung has at most 12 lines")]
    TooTall,
    /// G3: each cell has one of the forms.
    #[error("G3: this is no form of a cell")]
    BadCell,
    /// G4: a joint has the characters that may be there, and they fit the cells beside it.
    #[error("G4: this is no joint")]
    BadJoint,
    /// G5: a vertical link ends at a `+` or a bar above and below.
    #[error("G5: this vertical link has a loose end")]
    BrokenVertical,
    /// G6: a cell that begins with a dash past the first column is fed.
    #[error("G6: nothing feeds this cell")]
    Unfed,
    /// G7: a contact, a coil and a block have a name over them.
    #[error("G7: a name is missing over this symbol")]
    NameMissing,
    /// G8: other cells have no text over them.
    #[error("G8: there is no symbol under this text")]
    NameWithoutSymbol,
    /// G9: the name is declared.
    #[error("G9: this name isn't declared")]
    Undeclared,
    /// G10: the name is one that the symbol may have.
    #[error("G10: this symbol can't have this name")]
    WrongKind,
    /// G11: a block with a second input has its lower cell below it, and a lower cell its block above.
    #[error("G11: the upper or the lower cell of a block is missing")]
    BlockShape,
    /// G12: an instance is drawn once.
    #[error("G12: this instance was drawn before")]
    DrawnTwice,
    /// G13: a gap line is blank or a label; a rung has one label, and no two the same; a jump goes to a later rung.
    #[error("G13: this label or jump can't stand here")]
    LabelFault,
    /// G14: a rung has at most one jump or return.
    #[error("G14: a rung has at most one jump or return")]
    TwoJumps,
    /// G15: there are at most 100 rungs.
    #[error("G15: there are too many rungs")]
    TooManyRungs,
}

/// A rule that the drawing can break: two are rules of the whole text.
#[derive(Clone, Copy)]
pub enum Rule {
    /// V1.
    BadByte,
    /// V8.
    Unfinished,
    Grid(GridRule),
}

/// Why a drawing was not read: out of memory, or a rule that is broken, with the rung and the line of the drawing, both from 0.
#[derive(Clone, Copy)]
pub enum Stop {
    NoMemory,
    Broken {
        rule: Rule,
        rung: usize,
        line: usize,
    },
}

impl From<AllocError> for Stop {
    ghost from_gives = { λ _ e. e ≡ NoMemory };

    /// Reading needed memory that there isn't.
    fn from(_error: AllocError) -> Stop {
        Stop::NoMemory
    }
}

impl<T: Drop> From<AllocFailed<T>> for Stop {
    ghost from_gives = { λ _ e. e ≡ NoMemory };

    /// The same, where the value that found no room is handed back; it is dropped.
    fn from(_error: AllocFailed<T>) -> Stop {
        Stop::NoMemory
    }
}
