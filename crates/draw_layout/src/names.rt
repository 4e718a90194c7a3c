//! What is written over the cells, and between the rungs.

use diagram_declarations::{BlockKind, Name};

/// An instance of a timer, a counter or a bistable.
#[derive(Clone, Copy)]
pub struct NamedInstance {
    pub name: Name,
    pub kind: BlockKind,
}

/// The names of what statements go by numbers for.
#[derive(Clone, Copy)]
pub struct Names<'n> {
    pub variables: &'n [Name],
    pub instances: &'n [NamedInstance],
    /// What the names of helper variables begin with. A number follows, from 1 on.
    pub helper: &'n [u8],
    /// What labels begin with. A number follows, from 1 on.
    pub label: &'n [u8],
}

/// A comment in front of a statement.
#[derive(Clone, Copy)]
pub struct Comment<'n> {
    /// How many statements begin before it in the text.
    pub statement: usize,
    /// The comment with the characters that begin and end it, without the end of its line.
    pub text: &'n [u8],
}
