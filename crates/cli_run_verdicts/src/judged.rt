//! Two programs that were judged over runs, and the runs that show each difference.

ghost use Rattle.std.specs.Prelude.{◌≡◌, IfErr, IfOk, is_some, length, option_map};
ghost use Rattle.io_text.specs.Log.{PutsAll, WriteLog};
ghost use Rattle.cli_inputs.specs.Reports.{logs};
ghost use Rattle.cli_inputs.specs.Setting.{given_by};
ghost use Rattle.cli_run_verdicts.specs.Ending.{CountsRuns, FailsToJudgeRuns, KeepsRuns};
ghost use Rattle.cli_run_verdicts.specs.Judged.{all_found, found_at, shown_at};

use crate::judging::judge_read;
use crate::writing::Kept;
use cli_arguments::DiffRunsRequest;
use cli_diff::DiffTexts;
use cli_verdicts::{Programs, read_programs};
use diagram_program::Program;
use diff_matching::Matching;
use diff_search::{RunDifference, TwoRuns};
use io_text::Sink;
use std::alloc::Global;
use std::marker::Model;

/// Two programs that were judged over runs, what belongs together in them, and what searches found of each name.
#[derive(Drop)]
pub struct RunsJudged {
    programs: Programs,
    kept: Kept,
    why: bool,
}

impl Model for RunsJudged {
    ghost use Rattle.cli_run_verdicts.specs.Judged.{JudgedInRuns};

    ghost Value = { JudgedInRuns };

    ghost view = { λ j. record {
      old = j.programs.old;
      new = j.programs.new;
      matching = j.kept.matching;
      found = j.kept.found;
      why = j.why;
    } };
}

impl RunsJudged {
    /// How many names were judged: variables that no program has as an input, and instances.
    pub fn count(&self) -> usize
        ensures { result ≡ length (all_found self.now) }
    {
        self.kept.found.variables.len() + self.kept.found.instances.len()
    }

    /// What was found of a name: those of variables are counted first, and then those of instances.
    fn found(&self, number: usize) -> Option<&RunDifference>
        ensures { option_map (λ found. found.now) result ≡ found_at self.entry.now number }
    {
        let variables = &self.kept.found.variables;
        if number < variables.len() {
            return variables.get(number);
        }
        self.kept.found.instances.get(number - variables.len())
    }

    /// The runs that were found that show that a name differs.
    pub(crate) fn runs(&self, number: usize) -> Option<&TwoRuns>
        ensures { option_map (λ runs. runs.now) result ≡ shown_at self.entry.now number }
    {
        match self.found(number)? {
            RunDifference::Shown(runs) => Some(runs),
            RunDifference::Never | RunDifference::Open(_) => None,
        }
    }

    /// Whether runs were found that show that a name differs, by its number, counted from 0: variables first, and then instances.
    pub fn is_shown(&self, number: usize) -> bool
        ensures { result ≡ is_some (shown_at self.now number) }
    {
        self.runs(number).is_some()
    }

    /// The old program.
    pub(crate) fn old(&self) -> &Program
        ensures { result.now ≡ self.entry.now.old }
    {
        &self.programs.old
    }

    /// The new program.
    pub(crate) fn new(&self) -> &Program
        ensures { result.now ≡ self.entry.now.new }
    {
        &self.programs.new
    }

    /// What belongs together in them.
    pub(crate) fn matching(&self) -> &Matching
        ensures { result.now ≡ self.entry.now.matching }
    {
        &self.kept.matching
    }

    /// Whether a fault is explained, after its line.
    pub(crate) fn why(&self) -> bool
        ensures { result ≡ self.now.why }
    {
        self.why
    }
}

/// Judges two programs over runs from their fresh states: writes on `out` what is found of them, name by name, and on `err` the line of counts, and
/// keeps the runs that show each difference. A name is the same where no runs ever leave it different, whatever the inputs and the moments, and it
/// differs where some do, with what the last of their scans leaves. Where the request assumes something of the inputs, only runs count in each scan of
/// which it is true in both programs.
///
/// # Errors
///
/// The status 1 where a fault or a writer stopped it, once the line of the fault is on `err`.
pub fn judge_runs<O: Sink, E: Sink>(
    alloc: Global,
    request: &DiffRunsRequest,
    texts: &DiffTexts,
    out: &mut O,
    err: &mut E,
) -> Result<RunsJudged, u8>
    ensures done { IfOk result (λ j. CountsRuns (given_by texts.now.old) (given_by texts.now.new) request.now (O.log out.old) (O.log out.new) (PutsAll (E.log err.old) (E.log err.new))) }
    ensures kept { IfOk result (λ j. KeepsRuns (given_by texts.now.old) (given_by texts.now.new) request.now j (O.log out.old) (O.log out.new) (PutsAll (E.log err.old) (E.log err.new))) }
    ensures why { IfOk result (λ j. j.why ≡ texts.now.old.why) }
    ensures status { IfErr result (λ status. status ≡ 1) }
    ensures failed { (save : WriteLog) → IfErr result (λ status.
        FailsToJudgeRuns (given_by texts.now.old) (given_by texts.now.new) request.now (logs (O.log out.old) save (E.log err.old)) (logs (O.log out.new) save (E.log err.new))) }
{
    let programs = match read_programs(alloc, texts, err) {
        Ok(programs) => programs,
        Err(status) => return Err(status),
    };
    match judge_read(alloc, request, texts, &programs, out, err) {
        Ok(kept) => Ok(RunsJudged {
            programs,
            kept,
            why: texts.old.why,
        }),
        Err(status) => {
            drop(programs);
            Err(status)
        }
    }
}
