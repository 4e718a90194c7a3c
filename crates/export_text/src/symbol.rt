//! What names stand for.

/// What a name of the text stands for, by its number.
#[derive(Clone, Copy, PartialEq)]
pub(crate) enum Symbol {
    /// A variable of the program.
    Variable(usize),
    /// The output of a block, as a contact reads it: as the rung found it.
    Output(usize),
    /// The output of a block, as it leaves its cell: after the call.
    Called(usize),
    /// Whether the edge contact at a place of the rung is closed. It has a helper in the text.
    Edge(usize),
    /// What an edge contact or an edge coil saw one scan before.
    Memory(usize),
    /// Whether a jump was taken.
    Flag(usize),
    /// What stands for something within a rung.
    Helper(usize),
}
