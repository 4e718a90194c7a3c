//! A set that is so in a state and stays so by itself.

ghost use Rattle.std.specs.Prelude.{◌≡◌, [], IfOk, List};
ghost use Rattle.scan_cycle.specs.Programs.{diagram_of};
ghost use Rattle.scan_cycle.specs.Standing.{Fits};
ghost use Rattle.invariant_cases.specs.Assuming.{assumed_of};
ghost use Rattle.invariant_sets.specs.Invariants.{AreAllowed, IsSteady, IsSteadyAssuming};
ghost use Rattle.scan_cycle.specs.Runs.{OneScan, after_each};
ghost use Rattle.invariant_sets.specs.Never.{IsSo, Stays};

use crate::basis::Basis;
use crate::first_claims::begin;
use crate::laws;
use crate::removing_claims::settle;
use crate::set::Set;
use diagram_program::Program;
use invariant_cases::{Assumption, CaseBuffers, Writers};
use scan_cycle::{Memory, State};
use scan_partial::Knowledge;
use std::alloc::Global;

/// Variables and Qs that never change from the state on: each is as it is there after any scans, with any inputs and at any moments.
///
/// None is an input, and from any state in which all of them are so a scan leaves them so, as scans over three values settle by cases, in
/// each round at most so many `scans` for one of them. Without any it is the largest set that one such scan settles. That set is within
/// each other result, and with more scans more may be found, and with pairs that are never both ON, as [`crate::staying_from`] finds them.
///
/// # Errors
///
/// `Memory` when out of memory.
pub fn never_changing(
    alloc: Global,
    program: &Program,
    state: &State,
    scans: u32,
) -> Result<Set, Memory>
    requires { Fits program.now state.now }
    ensures is { IfOk result (λ z. IsSteady program.now state.now z []) }
    ensures plain { scans ≡ 0 → IfOk result (λ z. Stays program.now z) }
    ensures so { IfOk result (λ z. (scans : List OneScan) → IsSo z (after_each (diagram_of program.now) scans state.now.held)) }
{
    laws::nothing_assumed(program);
    never_assuming(alloc, program, state, Assumption::nothing(), scans)
}

/// Variables and Qs that never change from the state on in scans in which what is assumed of the inputs is true, as [`never_changing`] finds them
/// where nothing is.
///
/// # Errors
///
/// `Memory` when out of memory.
pub fn never_assuming(
    alloc: Global,
    program: &Program,
    state: &State,
    assumption: Assumption<'_>,
    scans: u32,
) -> Result<Set, Memory>
    requires { Fits program.now state.now }
    ensures is { IfOk result (λ z. IsSteadyAssuming program.now (assumed_of assumption.entry) state.now z []) }
    ensures plain { scans ≡ 0 → IfOk result (λ z. Stays program.now z) }
    ensures so { IfOk result (λ z. (scans : List OneScan) → AreAllowed program.now (assumed_of assumption.entry) scans state.now.held
        → IsSo z (after_each (diagram_of program.now) scans state.now.held)) }
{
    laws::stays_assuming(program);
    state.checked();
    let mut set = begin(alloc, program, state)?;
    let mut after = Knowledge::new(alloc, program)?;
    let writers = Writers::new(alloc, program)?;
    let mut buffers = CaseBuffers::new(alloc, program)?;
    let basis = Basis {
        program,
        writers: &writers,
        assumption,
        scans,
    };
    settle(basis, &mut set, &mut after, &mut buffers);
    Ok(set)
}
