//! What it is settled by that something stays so.

use diagram_program::Program;
use invariant_cases::{Assumption, Writers};

/// What claims and pairs are settled by.
#[derive(Clone, Copy)]
pub(crate) struct Basis<'a> {
    pub program: &'a Program,
    /// Where the program writes what.
    pub writers: &'a Writers,
    /// What is assumed of the inputs.
    pub assumption: Assumption<'a>,
    /// How many scans may settle one of them.
    pub scans: u32,
}
