//! The judging of two programs that were read.

ghost use Rattle.std.specs.Prelude.{◌≡◌, IfErr, IfOk};
ghost use Rattle.diagram_reader.specs.Titled.{HasProgram};
ghost use Rattle.io_text.specs.Log.{PutsAll, PutsPrefix, WriteLog};
ghost use Rattle.cli_inputs.specs.Reports.{logs};
ghost use Rattle.cli_inputs.specs.Setting.{given_by};
ghost use Rattle.cli_questions.specs.Ending.{Ends, counts_line, unless_quiet};
ghost use Rattle.cli_run_verdicts.specs.Assuming.{assumption};
ghost use Rattle.cli_run_verdicts.specs.Ending.{FailsToFindRuns, FailsToJudgeRuns, FindsKeepingAsked, FindsKeepingAssuming};

use crate::assuming::{RunsAssuming, assuming_by};
use crate::writing::{Kept, Written, write_runs};
use cli_arguments::DiffRunsRequest;
use cli_diff::{Assumes, DiffTexts, SidedFault, report};
use cli_questions::put_counts;
use cli_verdicts::{Programs, read_what_is_assumed};
use diff_runs::laws::nothing_assumed;
use io_text::Sink;
use reach_search::Limits;
use std::alloc::Global;

/// How many states a search keeps at most, where the request doesn't say it.
const STATES: u64 = 100_000;

/// How far apart the scans of a run are where they can be, in ms.
const GAP: u64 = 10;

/// How far a search goes.
fn limits_of(request: &DiffRunsRequest) -> Limits {
    Limits {
        states: request.states.unwrap_or(STATES) as usize,
        scans: u64::MAX,
        gap: GAP,
    }
}

/// Writes the line of counts of what was written, and returns what is kept.
fn put_written<E: Sink>(quiet: bool, written: Written, err: &mut E) -> Result<Kept, u8>
    ensures done { IfOk result (λ kept. (kept ≡ written.kept) × PutsAll (E.log err.old) (E.log err.new) (unless_quiet quiet (counts_line written.counts))) }
    ensures status { IfErr result (λ status. status ≡ 1) }
    ensures failed { IfErr result (λ status. PutsPrefix (E.log err.old) (E.log err.new) (unless_quiet quiet (counts_line written.counts))) }
{
    match put_counts(quiet, written.counts, err) {
        Ok(()) => Ok(written.kept),
        Err(_) => {
            drop(written);
            Err(1)
        }
    }
}

/// Judges two programs over runs in which what is assumed is true, and returns what belongs together in them, and what searches found.
///
/// # Errors
///
/// The status 1 where memory ran out or a writer failed, once the line of the fault is on `err`, as far as that takes it.
fn judge_programs<O: Sink, E: Sink>(
    alloc: Global,
    request: &DiffRunsRequest,
    texts: &DiffTexts,
    programs: &Programs,
    assuming: RunsAssuming<'_>,
    out: &mut O,
    err: &mut E,
) -> Result<Kept, u8>
    ensures done { IfOk result (λ kept. Ends (FindsKeepingAssuming (assumption assuming.entry) programs.now.old programs.now.new kept.matching kept.found)
        request.now.quiet (O.log out.old) (O.log out.new) (PutsAll (E.log err.old) (E.log err.new))) }
    ensures status { IfErr result (λ status. status ≡ 1) }
    ensures failed { (save : WriteLog) → IfErr result (λ status.
        FailsToFindRuns (assumption assuming.entry) (given_by texts.now.old) (given_by texts.now.new) request.now programs.now.old programs.now.new (logs (O.log out.old) save (E.log err.old)) (logs (O.log out.new) save (E.log err.new))) }
{
    let limits = limits_of(request);
    match write_runs(alloc, limits, &programs.old, &programs.new, assuming, out) {
        Ok(written) => put_written(request.quiet, written, err),
        Err(fault) => Err(report(texts, SidedFault { side: None, fault }, err)),
    }
}

/// Judges two programs that were read over runs in which what the request assumes of their inputs is true, if it assumes something, and returns what
/// belongs together in them, and what searches found.
///
/// # Errors
///
/// The status 1 where what is assumed is refused, memory ran out or a writer failed, once the line of the fault is on `err`, as far as that takes it.
pub(crate) fn judge_read<O: Sink, E: Sink>(
    alloc: Global,
    request: &DiffRunsRequest,
    texts: &DiffTexts,
    programs: &Programs,
    out: &mut O,
    err: &mut E,
) -> Result<Kept, u8>
    requires old { HasProgram (given_by texts.now.old).aliases (given_by texts.now.old).program programs.now.old }
    requires new { HasProgram (given_by texts.now.new).aliases (given_by texts.now.new).program programs.now.new }
    ensures done { IfOk result (λ kept. Ends (FindsKeepingAsked (given_by texts.now.old) (given_by texts.now.new) request.now programs.now.old programs.now.new kept.matching kept.found)
        request.now.quiet (O.log out.old) (O.log out.new) (PutsAll (E.log err.old) (E.log err.new))) }
    ensures status { IfErr result (λ status. status ≡ 1) }
    ensures failed { (save : WriteLog) → IfErr result (λ status.
        FailsToJudgeRuns (given_by texts.now.old) (given_by texts.now.new) request.now (logs (O.log out.old) save (E.log err.old)) (logs (O.log out.new) save (E.log err.new))) }
{
    let expressions = request.assumed.as_slice();
    let assumes = Assumes {
        expressions,
        takes_comments: request.takes_comments,
    };
    match read_what_is_assumed(alloc, assumes, texts, &programs.old, &programs.new) {
        Ok(read) => {
            let assuming = assuming_by(&read);
            let kept = judge_programs(alloc, request, texts, programs, assuming, out, err);
            drop(read);
            nothing_assumed(&programs.old, &programs.new);
            kept
        }
        Err(fault) => Err(report(texts, fault, err)),
    }
}
