//! What a look at a prefix is asked: the question, with what was made ready for its looks.

use causes_query::source::InputSource;
use diagram_program::Program;
use scan_cycle::State;
use scan_symbolic::Slice;

/// The question, with what was made ready for its looks.
#[derive(Clone, Copy)]
pub(crate) struct LookQuery<'a> {
    pub program: &'a Program,
    pub state: &'a State,
    pub now: u64,
    pub coil: usize,
    /// The steps of the program that matter to the coil's variable.
    pub slice: &'a Slice<'a>,
    pub listed: &'a [usize],
    /// Where each input takes its value from.
    pub sources: &'a [InputSource],
    /// The places of the listed inputs among the inputs, the last listed one first.
    pub places: &'a [usize],
}
