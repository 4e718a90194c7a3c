//! What is asked over several scans.

use causes_query::source::InputSource;
use diagram_program::Program;
use scan_cycle::State;
use scan_held::Watched;

/// What is asked over several scans, with what was made ready for its looks.
#[derive(Clone, Copy)]
pub(crate) struct HeldQuery<'a> {
    pub program: &'a Program,
    pub state: &'a State,
    pub watched: Watched,
    pub listed: &'a [usize],
    /// Where each input takes its value from.
    pub sources: &'a [InputSource],
    /// The places of the listed inputs among the inputs, the last listed one first.
    pub places: &'a [usize],
}
