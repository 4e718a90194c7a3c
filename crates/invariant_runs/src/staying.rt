//! What stays so in each state that a run reaches.

ghost use Rattle.std.specs.Prelude.{IfOk};
ghost use Rattle.scan_cycle.specs.Standing.{Fits};
ghost use Rattle.invariant_cases.specs.Assuming.{assumed_of};
ghost use Rattle.invariant_sets.specs.Invariants.{IsStaying, IsStayingAssuming};
ghost use Rattle.invariant_sets.specs.Pairs.{HasToldApart};
ghost use Rattle.invariant_runs.specs.Reached.{AreReached, AreReachedAssuming};

use crate::laws;
use diagram_program::Program;
use invariant_cases::Assumption;
use invariant_sets::{Staying, staying_assuming, staying_from};
use scan_cycle::{Memory, State};
use std::alloc::Global;

/// What stays so in each state that a run from the state reaches, as [`staying_from`] finds it.
///
/// # Errors
///
/// `Memory` when out of memory.
pub fn staying_in_runs(
    alloc: Global,
    program: &Program,
    state: &State,
    scans: u32,
    pair_scans: u32,
) -> Result<Staying, Memory>
    requires { Fits program.now state.now }
    ensures settled { IfOk result (λ staying. IsStaying program.now state.now staying) }
    ensures told { IfOk result (λ staying. HasToldApart program.now state.now staying.steady staying.apart) }
    ensures reached { IfOk result (λ staying. AreReached program.now state.now staying) }
{
    laws::reached(program);
    state.checked();
    staying_from(alloc, program, state, scans, pair_scans)
}

/// What stays so in each state that a run from the state reaches in whose scans what is assumed of the inputs is true, as [`staying_assuming`]
/// finds it.
///
/// # Errors
///
/// `Memory` when out of memory.
pub fn staying_in_runs_assuming(
    alloc: Global,
    program: &Program,
    state: &State,
    assumption: Assumption<'_>,
    scans: u32,
    pair_scans: u32,
) -> Result<Staying, Memory>
    requires { Fits program.now state.now }
    ensures settled { IfOk result (λ staying. IsStayingAssuming program.now (assumed_of assumption.entry) state.now staying) }
    ensures told { IfOk result (λ staying. HasToldApart program.now state.now staying.steady staying.apart) }
    ensures reached { IfOk result (λ staying. AreReachedAssuming program.now (assumed_of assumption.entry) state.now staying) }
{
    laws::reached_assuming(program);
    state.checked();
    staying_assuming(alloc, program, state, assumption, scans, pair_scans)
}
