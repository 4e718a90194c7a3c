//! A program, and the variables of statements that do what it does.

use diagram_program::Program;

/// A program, and how many variables its statements have: those of the program, one for each memory, one for each jump, and others that
/// stand for something within a rung.
#[derive(Clone, Copy)]
pub struct Scan<'a> {
    pub program: &'a Program,
    pub variables: usize,
    /// How many jumps to a rung the program has.
    pub jumps: usize,
}
