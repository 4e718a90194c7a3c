//! Parts of a list.

/// Neighbours in a table: from one place on, to before another one.
#[derive(Clone, Copy)]
pub struct Part {
    pub from: usize,
    pub to: usize,
}

/// No neighbours.
pub const NOTHING: Part = Part { from: 0, to: 0 };
