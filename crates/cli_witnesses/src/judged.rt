//! Two programs that were judged, and the states that show each difference.

ghost use Rattle.std.specs.Prelude.{◌≡◌, ◌⊎◌, All, IfErr, IfOk, length};
ghost use Rattle.io_text.specs.Log.{PutsAll, WriteLog};
ghost use Rattle.scan_cycle.specs.Standing.{Fits};
ghost use Rattle.cli_inputs.specs.Reports.{logs};
ghost use Rattle.cli_inputs.specs.Setting.{given_by};
ghost use Rattle.cli_diff.specs.Ending.{RefusesOf};
ghost use Rattle.cli_verdicts.specs.Ending.{BreaksVerdicts, CountsVerdicts, HasVerdictFault};
ghost use Rattle.cli_witnesses.specs.Ending.{KeepsWitnesses};

use cli_arguments::VerdictRequest;
use cli_diff::DiffTexts;
use cli_verdicts::{Kept, Programs, judge_programs, read_programs};
use diagram_program::Program;
use diff_matching::Matching;
use diff_meaning::Witness;
use io_text::Sink;
use std::alloc::Global;
use std::marker::Model;

/// Two programs that were judged, what belongs together in them, and the states that show each difference.
#[derive(Drop)]
pub struct Judged {
    programs: Programs,
    kept: Kept,
    why: bool,
}

impl Model for Judged {
    ghost use Rattle.std.specs.Prelude.{All};
    ghost use Rattle.scan_cycle.specs.Standing.{Fits};
    ghost use Rattle.cli_witnesses.specs.Witnessed.{Witnessed};

    ghost Value = { Witnessed };

    ghost view = { λ j. record {
      old = j.programs.old;
      new = j.programs.new;
      matching = j.kept.matching;
      witnesses = j.kept.witnesses.items;
      why = j.why;
    } };

    ghost invariant = { λ j. All (λ w. Fits j.programs.old w.old_state × Fits j.programs.new w.new_state) j.kept.witnesses.items };
}

impl Judged {
    /// How many differences there are, each with states that show it.
    pub fn count(&self) -> usize
        ensures { result ≡ length self.now.witnesses }
    {
        self.kept.witnesses.len()
    }

    /// Does nothing: its contract is what holds of the states, that each is of its program.
    pub(crate) fn checked(&self)
        ensures { All (λ w. Fits self.now.old w.old_state × Fits self.now.new w.new_state) self.now.witnesses }
    {
        let _why = self.why;
    }

    /// The program before the change.
    pub(crate) fn old(&self) -> &Program
        ensures { result.now ≡ self.entry.now.old }
    {
        &self.programs.old
    }

    /// The program after it.
    pub(crate) fn new(&self) -> &Program
        ensures { result.now ≡ self.entry.now.new }
    {
        &self.programs.new
    }

    /// What belongs together in them.
    pub(crate) fn matching(&self) -> &Matching
        ensures { result.now ≡ self.entry.now.matching }
    {
        &self.kept.matching
    }

    /// All states that show differences.
    pub(crate) fn witnesses(&self) -> &[Witness]
        ensures { result.now ≡ self.entry.now.witnesses }
    {
        &self.kept.witnesses
    }

    /// Whether a fault is explained, after its line.
    pub(crate) fn why(&self) -> bool
        ensures { result ≡ self.now.why }
    {
        self.why
    }
}

/// Judges two programs as [`judge`](cli_verdicts::judge) does, with the rows on `out` and the counts on `err`, and keeps states that show each
/// difference.
///
/// # Errors
///
/// The status 1 where a fault or a writer stopped it, once the line of the fault is on `err`.
pub fn judge_keeping<O: Sink, E: Sink>(
    alloc: Global,
    request: &VerdictRequest,
    texts: &DiffTexts,
    out: &mut O,
    err: &mut E,
) -> Result<Judged, u8>
    ensures done { IfOk result (λ j. CountsVerdicts (given_by texts.now.old) (given_by texts.now.new) request.now (O.log out.old) (O.log out.new) (PutsAll (E.log err.old) (E.log err.new))) }
    ensures kept { IfOk result (λ j. KeepsWitnesses (given_by texts.now.old) (given_by texts.now.new) request.now j (O.log out.old) (O.log out.new) (PutsAll (E.log err.old) (E.log err.new))) }
    ensures why { IfOk result (λ j. j.why ≡ texts.now.old.why) }
    ensures status { IfErr result (λ status. status ≡ 1) }
    ensures failed { (save : WriteLog) → IfErr result (λ status.
        RefusesOf (given_by texts.now.old) (given_by texts.now.new) (HasVerdictFault (given_by texts.now.old) (given_by texts.now.new) request.now) (logs (O.log out.old) save (E.log err.old)) (logs (O.log out.new) save (E.log err.new))
        ⊎ BreaksVerdicts (given_by texts.now.old) (given_by texts.now.new) request.now (logs (O.log out.old) save (E.log err.old)) (logs (O.log out.new) save (E.log err.new))) }
{
    let programs = match read_programs(alloc, texts, err) {
        Ok(programs) => programs,
        Err(status) => return Err(status),
    };
    match judge_programs(alloc, request, texts, &programs, true, out, err) {
        Ok(kept) => Ok(Judged {
            programs,
            kept,
            why: texts.old.why,
        }),
        Err(status) => {
            drop(programs);
            Err(status)
        }
    }
}
