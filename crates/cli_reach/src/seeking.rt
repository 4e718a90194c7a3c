//! A search for a run that tells how far it is.

ghost use Rattle.std.specs.Prelude.{◌≤◌, IfOk};
ghost use Rattle.scan_cycle.specs.Standing.{Fits};
ghost use Rattle.reach_runs.specs.Asking.{StaysOff, question_of};
ghost use Rattle.reach_search.specs.Levels.{IsSearching};
ghost use Rattle.reach_search.specs.Searches.{IsVerdict};
ghost use Rattle.cli_reach.specs.Telling.{TellsOne, TellsSearch};

use crate::telling::put_step;
use diagram_program::Program;
use io_text::{Sink, WriteFault};
use reach_runs::RunQuery;
use reach_search::{Limits, MOST_STEPS, Searching, Sought};
use std::alloc::Global;

/// Why a search that tells how far it is has no answer.
#[derive(Clone, Copy, PartialEq, Eq)]
pub(crate) enum SearchFault {
    /// It is out of memory.
    Memory,
    /// A line could not be written.
    Write,
}

/// The work of a second, in instructions, roughly.
const SECOND: u64 = 3_000_000_000;

/// The work of a look, and what each step of the program adds to it.
const LOOK_WORK: u64 = 2_000;

const STEP_WORK: u64 = 150;

/// The work of a search, counted in looks, so that no clock is asked.
#[derive(Drop)]
struct Pace {
    /// What a look takes.
    look: u64,
    /// How much was done when this was last asked and it was due.
    done: u64,
}

impl Pace {
    /// No work was done yet. A look is taken for as much work as the program has steps, each by its measured share.
    fn new(program: &Program) -> Pace {
        let steps = program.steps().len() as u64;
        Pace {
            look: steps.saturating_mul(STEP_WORK).saturating_add(LOOK_WORK),
            done: 0,
        }
    }

    /// Whether about a second's work was done since the last time it was.
    fn is_due(&mut self, looks: u64) -> bool {
        let work = looks.wrapping_mul(self.look);
        if work.wrapping_sub(self.done) < SECOND {
            return false;
        }
        self.done = work;
        true
    }
}

/// Tells how far a search is, if lines are asked for and about a second passed.
fn tell<E: Sink>(
    lines: bool,
    pace: &mut Pace,
    query: RunQuery<'_>,
    searching: &Searching,
    err: &mut E,
) -> Result<(), WriteFault>
    requires { IsSearching (question_of query) searching.now }
    ensures { TellsOne lines (question_of query.entry) (E.log err.old) (E.log err.new) result }
{
    let progress = searching.progress(query);
    if !lines || !pace.is_due(progress.looks) {
        return Ok(());
    }
    put_step(progress.states as u64, progress.scans, err)
}

/// Searches on until the search ends, and tells about once a second how far it is, if lines are asked for.
fn settle_telling<E: Sink>(
    alloc: Global,
    query: RunQuery<'_>,
    limits: Limits,
    lines: bool,
    searching: &mut Searching,
    err: &mut E,
) -> Result<Sought, SearchFault>
    requires state { Fits query.program.now query.state.now }
    requires from { query.state.now.moment ≤ query.from }
    requires searching { IsSearching (question_of query) searching.old }
    ensures verdict { IfOk result (λ s. IsVerdict (question_of query.entry) s.verdict) }
    ensures off { IfOk result (λ s. StaysOff (question_of query.entry) s.scans) }
    ensures told { TellsSearch lines (question_of query.entry) (E.log err.old) (E.log err.new) result }
{
    let mut pace = Pace::new(query.program);
    for _ in 0..MOST_STEPS {
        let Ok(found) = searching.go_on(alloc, query, limits) else {
            return Err(SearchFault::Memory);
        };
        if let Some(sought) = found {
            return Ok(sought);
        }
        let Ok(()) = tell(lines, &mut pace, query, searching, err) else {
            return Err(SearchFault::Write);
        };
    }
    Ok(searching.unsettled(query))
}

/// Searches for a run, and tells about once a second how far the search is, if lines are asked for.
pub(crate) fn seek_telling<E: Sink>(
    alloc: Global,
    query: RunQuery<'_>,
    limits: Limits,
    lines: bool,
    err: &mut E,
) -> Result<Sought, SearchFault>
    requires state { Fits query.program.now query.state.now }
    requires from { query.state.now.moment ≤ query.from }
    ensures verdict { IfOk result (λ s. IsVerdict (question_of query.entry) s.verdict) }
    ensures off { IfOk result (λ s. StaysOff (question_of query.entry) s.scans) }
    ensures told { TellsSearch lines (question_of query.entry) (E.log err.old) (E.log err.new) result }
{
    let Ok(mut searching) = Searching::new(alloc, query) else {
        return Err(SearchFault::Memory);
    };
    let sought = settle_telling(alloc, query, limits, lines, &mut searching, err);
    // By a call, which is one step of the proof.
    drop(searching);
    sought
}
