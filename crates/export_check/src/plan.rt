//! What is compared.

use crate::jumps::Jump;
use diagram_program::Program;

/// A program with its jumps to a rung, and statements with so many variables.
#[derive(Clone, Copy)]
pub(crate) struct Plan<'a> {
    pub program: &'a Program,
    pub variables: usize,
    pub jumps: &'a [Jump],
    /// The variable that is the flag of the first jump; those of the other jumps come behind it.
    pub first: usize,
}
