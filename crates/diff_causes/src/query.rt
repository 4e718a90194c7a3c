//! What is asked of one of two programs.

use diagram_program::Program;
use scan_cycle::State;

/// What is asked of one of two programs: in which state, the moment of the scan, the coil's variable and the listed inputs, by their
/// numbers in that program.
#[derive(Clone, Copy)]
pub struct ProgramQuery<'a> {
    pub program: &'a Program,
    pub state: &'a State,
    /// The moment of the scan, in milliseconds.
    pub now: u64,
    pub coil: usize,
    pub listed: &'a [usize],
}
