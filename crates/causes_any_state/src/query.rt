//! What is asked, and what the answers are found with.

ghost use Rattle.std.specs.Prelude.{IfOk};
ghost use Rattle.causes_any_state.specs.Searching.{IsKnowing, IsTried};

use crate::content::MOMENT;
use crate::states::States;
use diagram_program::Program;
use invariant_cases::{CaseBuffers, Writers};
use invariant_sets::Set;
use scan_cycle::{Memory, State};
use std::alloc::Global;

/// What is asked of which number.
#[derive(Clone, Copy)]
pub(crate) struct StateQuery<'a> {
    pub program: &'a Program,
    pub coil: usize,
    pub listed: &'a [usize],
    pub states: &'a States,
    /// The value of the coil that is sought after a scan.
    pub sought: bool,
    pub number: u64,
    /// How many scans over three values a search for the number makes at most, and how many a proof that there is no such state.
    pub looks: u32,
}

/// What is known in a search.
#[derive(Drop)]
pub(crate) struct Knowing {
    /// It claims nothing: what is known where it is so is what is known of any state.
    pub none: Set,
    /// What is known before a scan, and after it.
    pub buffers: CaseBuffers,
    /// Where the program writes what.
    pub writers: Writers,
}

/// What is tried in a search.
#[derive(Drop)]
pub(crate) struct Tried {
    /// A state that may leave the coil at the sought value.
    pub state: State,
    /// The same after a scan.
    pub scanned: State,
}

/// What a search of the program knows things in.
pub(crate) fn new_knowing(alloc: Global, program: &Program) -> Result<Knowing, Memory>
    ensures { IfOk result (λ k. IsKnowing program.now k) }
{
    Ok(Knowing {
        none: Set::none(alloc, program)?,
        buffers: CaseBuffers::new(alloc, program)?,
        writers: Writers::new(alloc, program)?,
    })
}

/// The states of the program that a search tries, at the moment at which all are.
pub(crate) fn new_tried(alloc: Global, program: &Program) -> Result<Tried, Memory>
    ensures { IfOk result (λ t. IsTried program.now t) }
{
    let scanned = State::fresh(alloc, program)?;
    let mut state = State::fresh(alloc, program)?;
    state.set_moment(MOMENT);
    Ok(Tried { state, scanned })
}
