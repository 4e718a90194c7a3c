//! What is found of a question.

ghost use Rattle.std.specs.Prelude.{◌≡◌, ◌≤◌, IfOk, true};
ghost use Rattle.cli_reach.specs.Telling.{TellsSearch};
ghost use Rattle.scan_cycle.specs.Standing.{Fits};
ghost use Rattle.reach_runs.specs.Asking.{NeverOn, StaysOff};
ghost use Rattle.reach_search.specs.Searches.{IsVerdict};
ghost use Rattle.cli_reach.specs.Asking.{question_of};
ghost use Rattle.cli_reach.specs.Finding.{IsFound, verdict_text};

use crate::asking::Asked;
use crate::replaying::is_replayed;
use crate::seeking::{SearchFault, seek_telling};
use invariant_sets::{SCANS, never_changing};
use io_text::Sink;
use reach_search::{Limits, Sought, Verdict, is_shut_out};
use scan_cycle::Memory;
use std::alloc::Global;

/// What is found of a question, with the number of scans of a run.
#[derive(Clone, Copy, PartialEq, Eq)]
pub enum Found {
    /// A run of so many scans.
    Run(u64),
    /// That there is none.
    Never,
    /// That there is none of at most so many scans, as is asked.
    NotIn(u64),
    /// Only that there is none of at most so many scans.
    Unsettled(u64),
}

/// Whether what never changes from the state on shuts the target out, which is quickly settled.
fn is_excluded(alloc: Global, asked: &Asked) -> Result<bool, Memory>
    requires { Fits asked.now.program asked.now.state }
    ensures { IfOk result (λ b. b ≡ true → NeverOn (question_of asked.now)) }
{
    let steady = never_changing(alloc, &asked.program, &asked.state, SCANS)?;
    Ok(is_shut_out(&steady, &asked.target))
}

/// Searches for a run, where what never changes doesn't shut the target out, and tells how far the search is, if lines are asked for.
///
/// # Errors
///
/// `Memory` when out of memory, or `Write` when a line could not be written.
pub(crate) fn sought_of<E: Sink>(
    alloc: Global,
    asked: &Asked,
    limits: Limits,
    lines: bool,
    err: &mut E,
) -> Result<Sought, SearchFault>
    requires fits { Fits asked.now.program asked.now.state }
    requires from { asked.now.state.moment ≤ asked.now.from }
    ensures verdict { IfOk result (λ s. IsVerdict (question_of asked.now) s.verdict) }
    ensures off { IfOk result (λ s. StaysOff (question_of asked.now) s.scans) }
    ensures told { TellsSearch lines (question_of asked.now) (E.log err.old) (E.log err.new) result }
{
    let Ok(excluded) = is_excluded(alloc, asked) else {
        return Err(SearchFault::Memory);
    };
    if excluded {
        return Ok(Sought {
            verdict: Verdict::Never,
            scans: 0,
            states: 0,
        });
    }
    seek_telling(alloc, asked.query(), limits, lines, err)
}

/// What a search found of what is asked, where runs of at most so many scans are asked about.
pub(crate) fn found_of(asked: &Asked, sought: &Sought, most: Option<u64>) -> Found
    requires fits { Fits asked.now.program asked.now.state }
    requires from { asked.now.state.moment ≤ asked.now.from }
    requires verdict { IsVerdict (question_of asked.now) sought.now.verdict }
    requires off { StaysOff (question_of asked.now) sought.now.scans }
    ensures { IsFound (question_of asked.now) most result (verdict_text asked.now.timing asked.now.program sought.now.verdict) }
{
    match (&sought.verdict, most) {
        (Verdict::Run(run), _) => {
            is_replayed(asked, run);
            Found::Run(run.len() as u64)
        }
        (Verdict::Never, _) => Found::Never,
        (Verdict::Open, Some(most)) if most == sought.scans => Found::NotIn(most),
        (Verdict::Open, _) => Found::Unsettled(sought.scans),
    }
}
