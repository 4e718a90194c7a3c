//! What stays so from a state on.

ghost use Rattle.std.specs.Prelude.{IfOk, List, []};
ghost use Rattle.scan_cycle.specs.Programs.{diagram_of};
ghost use Rattle.scan_cycle.specs.Standing.{Fits};
ghost use Rattle.invariant_cases.specs.Allowing.{AreApart};
ghost use Rattle.invariant_cases.specs.Assuming.{assumed_of};
ghost use Rattle.invariant_sets.specs.Invariants.{AreAllowed, IsStaying, IsStayingAssuming, IsSteadyAssuming};
ghost use Rattle.scan_cycle.specs.Runs.{OneScan, after_each};
ghost use Rattle.invariant_sets.specs.Never.{IsSo};
ghost use Rattle.invariant_sets.specs.Pairs.{HasToldApart};

use crate::first_claims::begin_with;
use crate::history::History;
use crate::laws;
use crate::never::never_assuming;
use crate::pairs::Pairs;
use crate::set::Set;
use crate::together::{Start, apart_from, settle};
use diagram_program::Program;
use invariant_cases::{Assumption, CaseBuffers, Writers};
use scan_cycle::{Memory, State};
use scan_partial::Knowledge;
use std::alloc::Global;

/// How many scans may settle one variable or output of a block, in each round of the search of a request.
pub const SCANS: u32 = 1_000;

/// How many scans may settle one pair, in each round of the search of a request.
pub const PAIR_SCANS: u32 = 256;

/// What stays so from a state on.
#[derive(Drop)]
pub struct Staying {
    /// What is OFF, and what is ON.
    pub steady: Set,
    /// Pairs of which not both are ON.
    pub apart: Pairs,
}

/// What stays so from the start on: at least what stays so alone.
fn staying_of(alloc: Global, start: Start<'_>, alone: Set) -> Result<Staying, Memory>
    requires fits { Fits start.program.now start.state.now }
    requires alone { IsSteadyAssuming start.program.now (assumed_of start.assumption) start.state.now alone [] }
    ensures stays { IfOk result (λ staying. IsStayingAssuming start.entry.program.now (assumed_of start.entry.assumption) start.entry.state.now staying) }
    ensures told { IfOk result (λ staying. HasToldApart start.entry.program.now start.entry.state.now staying.steady staying.apart) }
{
    let program = start.program;
    let mut after = Knowledge::new(alloc, program)?;
    let mut buffers = CaseBuffers::new(alloc, program)?;
    let mut set = begin_with(alloc, program, start.state, start.history, &alone)?;
    let pairs = settle(alloc, start, &mut set, &mut after, &mut buffers)?;
    if set.has_all_of(&alone) {
        return Ok(Staying {
            steady: set,
            apart: Pairs { pairs },
        });
    }
    let pairs = apart_from(alloc, start, &alone, &mut after, &mut buffers)?;
    Ok(Staying {
        steady: alone,
        apart: Pairs { pairs },
    })
}

/// What stays so from the state on: variables and outputs of blocks that never change, and pairs that are never both ON.
///
/// The claims of the set are of no input. They are so in the state, of no pair both are ON in it, and from any state in which that is so a scan
/// leaves it so, as scans over three values settle by cases, in each round at most so many `scans` for one claim, and so many `pair_scans` for
/// one pair, and at least one. The set may be kept up by the pairs, and these by the set. All that one scan settles is among them: the set has
/// each set that one such scan leaves so, and the pairs are all of what is outside the set of which one scan from there tells that they stay
/// apart. What isn't among them may stay so all the same: more scans may settle it.
///
/// # Errors
///
/// `Memory` when out of memory.
pub fn staying_from(
    alloc: Global,
    program: &Program,
    state: &State,
    scans: u32,
    pair_scans: u32,
) -> Result<Staying, Memory>
    requires { Fits program.now state.now }
    ensures stays { IfOk result (λ staying. IsStaying program.now state.now staying) }
    ensures told { IfOk result (λ staying. HasToldApart program.now state.now staying.steady staying.apart) }
    ensures so { IfOk result (λ staying. (scans : List OneScan)
        → IsSo staying.steady (after_each (diagram_of program.now) scans state.now.held) × AreApart staying.apart (after_each (diagram_of program.now) scans state.now.held)) }
{
    laws::nothing_assumed(program);
    staying_assuming(
        alloc,
        program,
        state,
        Assumption::nothing(),
        scans,
        pair_scans,
    )
}

/// What stays so from a state on in scans in which what is assumed of the inputs is true, as [`staying_from`] finds it where nothing is.
///
/// # Errors
///
/// `Memory` when out of memory.
pub fn staying_assuming(
    alloc: Global,
    program: &Program,
    state: &State,
    assumption: Assumption<'_>,
    scans: u32,
    pair_scans: u32,
) -> Result<Staying, Memory>
    requires { Fits program.now state.now }
    ensures stays { IfOk result (λ staying. IsStayingAssuming program.now (assumed_of assumption.entry) state.now staying) }
    ensures told { IfOk result (λ staying. HasToldApart program.now state.now staying.steady staying.apart) }
    ensures so { IfOk result (λ staying. (scans : List OneScan) → AreAllowed program.now (assumed_of assumption.entry) scans state.now.held
        → IsSo staying.steady (after_each (diagram_of program.now) scans state.now.held) × AreApart staying.apart (after_each (diagram_of program.now) scans state.now.held)) }
{
    laws::stays_assuming(program);
    state.checked();
    let alone = never_assuming(alloc, program, state, assumption, scans)?;
    let history = History::new(alloc, program, state, assumption)?;
    let writers = Writers::new(alloc, program)?;
    let start = Start {
        program,
        state,
        history: &history,
        writers: &writers,
        assumption,
        scans,
        pair_scans,
    };
    staying_of(alloc, start, alone)
}
