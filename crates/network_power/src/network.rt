//! Networks of elements that are connected by their numbers.

use st_expression::Operand;

/// A range of the list of connections: from `start` to before `end`. It has the numbers of the elements that are connected on the left of
/// something.
#[derive(Clone, Copy)]
pub struct Links {
    pub start: usize,
    pub end: usize,
}

/// What is in a network, by what it does to power.
#[derive(Clone, Copy)]
pub enum Element {
    /// A left rail. There may be several.
    Rail,
    /// A contact, with what is connected on its left.
    Contact {
        negated: bool,
        operand: Operand,
        left: Links,
    },
    /// What passes power on, as a coil does.
    Coil {
        left: Links,
    },
    /// An output of a block, which has the value of an operand.
    Output {
        operand: Operand,
    },
}

/// Elements by their numbers, and the connections of all of them, one after the other. They may be in any order, and form rings.
#[derive(Clone, Copy)]
pub struct Network<'a> {
    pub elements: &'a [Element],
    pub connections: &'a [usize],
}
