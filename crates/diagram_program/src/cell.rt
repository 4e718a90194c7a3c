//! The cells and joints of a program.

ghost use Rattle.std.specs.Prelude.{◌≡◌};
ghost use Rattle.diagram_program.specs.Program.{block_in, coil_in, contact_in, has_memory, is_coil_of};

use crate::mode::{CoilMode, Mode};

/// What a contact reads, by its number in order of declaration.
#[derive(Clone, Copy, Debug, PartialEq, Eq)]
pub enum Operand {
    /// A variable.
    Var(usize),
    /// The output of a block instance, Q or Q1.
    Output(usize),
}

/// The joint on the left of a cell, in the columns past the first.
#[derive(Clone, Copy, Debug, PartialEq, Eq)]
pub enum Joint {
    /// Nothing is joined.
    Blank,
    /// `-`: the cells on both sides, in their row alone.
    Dash,
    /// `+`: the cells on both sides, and the vertical links that meet it.
    Plus,
    /// `|`: the vertical links that meet it, and no cell.
    Bar,
}

/// A cell of a program. Variables, instances and memories go by their numbers; a target is the number of a rung.
#[derive(Clone, Copy, Debug, PartialEq, Eq)]
pub enum Cell {
    /// Nothing is drawn there.
    Empty,
    /// A wire through the whole cell.
    Wire,
    /// A contact; an edge contact has a memory.
    Contact {
        mode: Mode,
        operand: Operand,
        memory: Option<usize>,
    },
    /// A coil; an edge coil has a memory.
    Coil {
        mode: CoilMode,
        var: usize,
        memory: Option<usize>,
    },
    /// The upper cell of a block.
    Block {
        inst: usize,
    },
    /// The lower cell of a counter or a bistable, below its block; `linked` says whether it has a left link.
    Lower {
        inst: usize,
        linked: bool,
    },
    /// A jump to a later rung.
    Jump {
        target: usize,
    },
    /// A jump past the last rung.
    Return,
}

impl Cell {
    /// The mode of a contact, and what it reads.
    pub fn contact(self) -> Option<(Mode, Operand)>
        ensures { result ≡ contact_in self }
    {
        match self {
            Cell::Contact { mode, operand, .. } => Some((mode, operand)),
            Cell::Empty
            | Cell::Wire
            | Cell::Coil { .. }
            | Cell::Block { .. }
            | Cell::Lower { .. }
            | Cell::Jump { .. }
            | Cell::Return => None,
        }
    }

    /// The mode of a coil, and the variable that it writes.
    pub fn coil(self) -> Option<(CoilMode, usize)>
        ensures { result ≡ coil_in self }
    {
        match self {
            Cell::Coil { mode, var, .. } => Some((mode, var)),
            Cell::Empty
            | Cell::Wire
            | Cell::Contact { .. }
            | Cell::Block { .. }
            | Cell::Lower { .. }
            | Cell::Jump { .. }
            | Cell::Return => None,
        }
    }

    /// The instance of a block.
    pub fn block(self) -> Option<usize>
        ensures { result ≡ block_in self }
    {
        match self {
            Cell::Block { inst } => Some(inst),
            Cell::Empty
            | Cell::Wire
            | Cell::Contact { .. }
            | Cell::Coil { .. }
            | Cell::Lower { .. }
            | Cell::Jump { .. }
            | Cell::Return => None,
        }
    }

    /// Whether it is a coil on the variable with this number.
    pub fn is_coil_of(self, var: usize) -> bool
        ensures { result ≡ is_coil_of var self }
    {
        match self.coil() {
            Some((_, written)) => written == var,
            None => false,
        }
    }

    /// Whether the cell is an edge contact or an edge coil: these have a memory of what they saw one scan before.
    pub fn has_memory(self) -> bool
        ensures { result ≡ has_memory self }
    {
        match self {
            Cell::Contact { memory, .. } | Cell::Coil { memory, .. } => memory.is_some(),
            Cell::Empty
            | Cell::Wire
            | Cell::Block { .. }
            | Cell::Lower { .. }
            | Cell::Jump { .. }
            | Cell::Return => false,
        }
    }
}
