//! The judging of two programs, once their texts were read.

ghost use Rattle.std.specs.Prelude.{◌≡◌, ◌≤◌, ◌⊎◌, IfErr, IfOk};
ghost use Rattle.diagram_reader.specs.Titled.{HasProgram};
ghost use Rattle.io_text.specs.Log.{PutsAll, PutsPrefix, WriteLog};
ghost use Rattle.cli_inputs.specs.Reports.{logs};
ghost use Rattle.cli_inputs.specs.Setting.{given_by};
ghost use Rattle.cli_questions.specs.Ending.{Ends, counts_line, unless_quiet};
ghost use Rattle.cli_diff.specs.Ending.{RefusesOf};
ghost use Rattle.cli_assumed_both.specs.Together.{IsAssumedWhere};
ghost use Rattle.cli_verdicts.specs.Ending.{BreaksVerdicts, CountsVerdicts, FailsToJudge, FindsAsked, HasVerdictFault, assumes_of, assumption_of};

use crate::assuming::{AssumedOfBoth, as_assumed};
use crate::reading::{Programs, read_assumed, read_programs};
use crate::writing::{Kept, Wanted, Written, write_verdicts};
use cli_arguments::VerdictRequest;
use cli_diff::{DiffTexts, SidedFault, report};
use cli_questions::put_counts;
use io_text::Sink;
use std::alloc::Global;

/// How many looks a verdict takes at most, where nothing is said of it.
const LOOKS: u32 = 10_000;

/// How many looks a verdict takes at most.
fn looks_of(looks: Option<u64>) -> u32 {
    match looks {
        Some(looks) => u32::try_from(looks).unwrap_or(u32::MAX),
        None => LOOKS,
    }
}

/// Writes the line of counts of what was written, and returns what is kept.
fn put_written<E: Sink>(quiet: bool, written: Written, err: &mut E) -> Result<Kept, u8>
    ensures done { IfOk result (λ kept. (kept ≡ written.kept) × PutsAll (E.log err.old) (E.log err.new) (unless_quiet quiet (counts_line written.counts))) }
    ensures status { IfErr result (λ status. status ≡ 1) }
    ensures failed { IfErr result (λ status. PutsPrefix (E.log err.old) (E.log err.new) (unless_quiet quiet (counts_line written.counts))) }
{
    match put_counts(quiet, written.counts, err) {
        Ok(()) => Ok(written.kept),
        Err(_) => {
            drop(written);
            Err(1)
        }
    }
}

/// Whether states that show differences are kept, and what is assumed of the inputs, where something is.
#[derive(Clone, Copy)]
struct Terms<'a> {
    keeps: bool,
    assumed: Option<AssumedOfBoth<'a>>,
}

/// Judges two programs, as [`judge_programs`] does, by what is assumed of them.
fn judge_assumed<O: Sink, E: Sink>(
    alloc: Global,
    request: &VerdictRequest,
    texts: &DiffTexts,
    programs: &Programs,
    terms: Terms<'_>,
    out: &mut O,
    err: &mut E,
) -> Result<Kept, u8>
    requires old { HasProgram (given_by texts.now.old).aliases (given_by texts.now.old).program programs.now.old }
    requires new { HasProgram (given_by texts.now.new).aliases (given_by texts.now.new).program programs.now.new }
    requires assumed { IsAssumedWhere (given_by texts.now.old) (given_by texts.now.new) (assumes_of request.now) programs.now.old programs.now.new (assumption_of terms.assumed) }
    ensures done { IfOk result (λ kept. Ends (FindsAsked (given_by texts.now.old) (given_by texts.now.new) request.now terms.entry.keeps programs.now.old programs.now.new kept.matching kept.witnesses.items)
        request.now.quiet (O.log out.old) (O.log out.new) (PutsAll (E.log err.old) (E.log err.new))) }
    ensures status { IfErr result (λ status. status ≡ 1) }
    ensures failed { (save : WriteLog) → IfErr result (λ status.
        FailsToJudge (given_by texts.now.old) (given_by texts.now.new) request.now (logs (O.log out.old) save (E.log err.old)) (logs (O.log out.new) save (E.log err.new))) }
{
    let wanted = Wanted {
        looks: looks_of(request.looks),
        reachable: request.reachable,
        keeps: terms.keeps,
        assumed: terms.assumed,
    };
    match write_verdicts(alloc, wanted, &programs.old, &programs.new, out) {
        Ok(written) => put_written(request.quiet, written, err),
        Err(fault) => Err(report(texts, SidedFault { side: None, fault }, err)),
    }
}

/// Judges two programs, as [`judge`] does, and returns what belongs together in them, and the states that show each difference where they are to be
/// kept.
///
/// # Errors
///
/// The status 1 where what is assumed is refused, memory ran out or a writer failed, once the line of the fault is on `err`, as far as that takes it.
pub fn judge_programs<O: Sink, E: Sink>(
    alloc: Global,
    request: &VerdictRequest,
    texts: &DiffTexts,
    programs: &Programs,
    keeps: bool,
    out: &mut O,
    err: &mut E,
) -> Result<Kept, u8>
    requires old { HasProgram (given_by texts.now.old).aliases (given_by texts.now.old).program programs.now.old }
    requires new { HasProgram (given_by texts.now.new).aliases (given_by texts.now.new).program programs.now.new }
    ensures done { IfOk result (λ kept. Ends (FindsAsked (given_by texts.now.old) (given_by texts.now.new) request.now keeps programs.now.old programs.now.new kept.matching kept.witnesses.items)
        request.now.quiet (O.log out.old) (O.log out.new) (PutsAll (E.log err.old) (E.log err.new))) }
    ensures status { IfErr result (λ status. status ≡ 1) }
    ensures failed { (save : WriteLog) → IfErr result (λ status.
        FailsToJudge (given_by texts.now.old) (given_by texts.now.new) request.now (logs (O.log out.old) save (E.log err.old)) (logs (O.log out.new) save (E.log err.new))) }
{
    let read = match read_assumed(alloc, request, texts, programs, err) {
        Ok(read) => read,
        Err(status) => return Err(status),
    };
    let assumed = as_assumed(&read);
    let terms = Terms { keeps, assumed };
    let judged = judge_assumed(alloc, request, texts, programs, terms, out, err);
    drop(read);
    judged
}

/// Judges two programs that were read, and returns the status.
fn judge_read<O: Sink, E: Sink>(
    alloc: Global,
    request: &VerdictRequest,
    texts: &DiffTexts,
    programs: &Programs,
    out: &mut O,
    err: &mut E,
) -> u8
    requires old { HasProgram (given_by texts.now.old).aliases (given_by texts.now.old).program programs.now.old }
    requires new { HasProgram (given_by texts.now.new).aliases (given_by texts.now.new).program programs.now.new }
    ensures status { result ≤ 1 }
    ensures done { result ≡ 0 → CountsVerdicts (given_by texts.now.old) (given_by texts.now.new) request.now (O.log out.old) (O.log out.new) (PutsAll (E.log err.old) (E.log err.new)) }
    ensures failed { (save : WriteLog) → result ≡ 1
        → FailsToJudge (given_by texts.now.old) (given_by texts.now.new) request.now (logs (O.log out.old) save (E.log err.old)) (logs (O.log out.new) save (E.log err.new)) }
{
    match judge_programs(alloc, request, texts, programs, false, out, err) {
        Ok(kept) => {
            drop(kept);
            0
        }
        Err(status) => status,
    }
}

/// Judges two programs: writes on `out` what is found of them, name by name, and on `err` the line of counts, with `equivalent` after it
/// where no run tells them apart, or what stopped it. Returns the status: 0 where all was written, 1 otherwise.
pub fn judge<O: Sink, E: Sink>(
    alloc: Global,
    request: &VerdictRequest,
    texts: &DiffTexts,
    out: &mut O,
    err: &mut E,
) -> u8
    ensures status { result ≤ 1 }
    ensures done { result ≡ 0 → CountsVerdicts (given_by texts.now.old) (given_by texts.now.new) request.now (O.log out.old) (O.log out.new) (PutsAll (E.log err.old) (E.log err.new)) }
    ensures failed { (save : WriteLog) → result ≡ 1
        → RefusesOf (given_by texts.now.old) (given_by texts.now.new) (HasVerdictFault (given_by texts.now.old) (given_by texts.now.new) request.now) (logs (O.log out.old) save (E.log err.old)) (logs (O.log out.new) save (E.log err.new))
        ⊎ BreaksVerdicts (given_by texts.now.old) (given_by texts.now.new) request.now (logs (O.log out.old) save (E.log err.old)) (logs (O.log out.new) save (E.log err.new)) }
{
    match read_programs(alloc, texts, err) {
        Ok(programs) => {
            let status = judge_read(alloc, request, texts, &programs, out, err);
            drop(programs);
            status
        }
        Err(status) => status,
    }
}
