//! The writing of runs that show a difference.

ghost use Rattle.std.specs.Prelude.{◌≡◌, ◌≤◌};
ghost use Rattle.cli_inputs.specs.Reports.{IsReported, unread};
ghost use Rattle.cli_inputs.specs.declared.fault.ToolFault.TheVariants.{Write};
ghost use Rattle.io_text.specs.Log.{Puts};
ghost use Rattle.cli_run_verdicts.specs.Judged.{shown_at};
ghost use Rattle.cli_run_verdicts.specs.Saving.{BreaksRun, SavesRun, run_file};

use crate::judged::RunsJudged;
use cli_inputs::{ToolFault, report_unread};
use diff_search::TwoRuns;
use io_text::{Sink, WriteFault};
use search_differences::Side;
use text_runs::write_run;

/// Writes the run of one of the programs.
fn write_side<W: Sink>(
    judged: &RunsJudged,
    runs: &TwoRuns,
    side: Side,
    writer: &mut W,
) -> Result<(), WriteFault>
    ensures { Puts (W.log writer.old) (W.log writer.new) result (run_file side judged.now runs.now) }
{
    match side {
        Side::Old => write_run(judged.old(), &runs.old, writer),
        Side::New => write_run(judged.new(), &runs.new, writer),
    }
}

/// Writes the run of one of the programs that shows that a name differs, by the name's number, counted from 0, as a stimulus for that program. Both
/// runs have their scans at the same moments, and give inputs that belong together the same values. Where no runs were found nothing is written.
/// Returns the status: 0, or 1 where the writer failed, whose fault is on `err` then.
pub fn save_run<W: Sink, E: Sink>(
    judged: &RunsJudged,
    number: usize,
    side: Side,
    writer: &mut W,
    err: &mut E,
) -> u8
    ensures status { result ≤ 1 }
    ensures done { result ≡ 0 → SavesRun side judged.now (shown_at judged.now number) (W.log writer.old) (W.log writer.new) }
    ensures unsaid { result ≡ 0 → E.log err.new ≡ E.log err.old }
    ensures failed { result ≡ 1 → BreaksRun side judged.now (shown_at judged.now number) (W.log writer.old) (W.log writer.new) }
    ensures said { result ≡ 1 → IsReported (unread judged.now.why) (E.log err.old) (E.log err.new) Write }
{
    let Some(runs) = judged.runs(number) else {
        return 0;
    };
    match write_side(judged, runs, side, writer) {
        Ok(()) => 0,
        Err(_) => report_unread(judged.why(), &ToolFault::Write, err),
    }
}
