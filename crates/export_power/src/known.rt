//! What variables stand for while the statements of a rung are run.

use crate::ends::Ends;
use diagram_program::Operand;

/// What a variable has the value of.
#[derive(Clone, Copy)]
pub enum Meaning {
    /// What an operand of a contact was at the start of the rung.
    Start(Operand),
    /// Whether the contact at this place of the rung is closed.
    Closed(usize),
    /// The power on the right of some rows, just before a column.
    Power(Ends),
}

/// A variable that the program doesn't have, and what it stands for.
#[derive(Clone, Copy)]
pub struct Known {
    pub variable: usize,
    pub meaning: Meaning,
}
