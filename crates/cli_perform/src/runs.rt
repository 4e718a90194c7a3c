//! Two programs whose runs are judged, and the files of a folder that get the runs that show what differs.

ghost use Rattle.std.specs.Prelude.{◌≤◌};

use crate::difference_folder::DifferenceFolder;
use crate::stream::Standard;
use crate::two_texts::{refuse_text, texts_of};
use crate::warning::warn_of_judged;
use cli_arguments::DiffRunsRequest;
use cli_diff::{DiffTexts, Manner};
use cli_inputs::ToolFault;
use cli_run_verdicts::{RunsJudged, judge_runs, save_run};
use io_text::CountedWriter;
use search_differences::Side;
use std::alloc::Global;

/// What follows the name of what differs in the name of the file of a run.
fn ending_of(side: Side) -> &'static str {
    match side {
        Side::Old => ".old.run.csv",
        Side::New => ".new.run.csv",
    }
}

/// Saves the run of one program that shows a difference, by the name of what differs. Returns whether it was.
fn save_side(
    folder: DifferenceFolder<'_>,
    judged: &RunsJudged,
    number: usize,
    name: &[u8],
    side: Side,
) -> bool {
    match folder.file(name, ending_of(side)) {
        Ok(mut made) => {
            let mut err = CountedWriter::new(folder.rt.stderr());
            let status = save_run(judged, number, side, &mut made, &mut err);
            drop(made);
            status == 0
        }
        Err(_) => {
            folder.refuse(&ToolFault::Memory);
            false
        }
    }
}

/// Saves the runs of both programs that show a difference. Returns whether both were.
fn save(folder: DifferenceFolder<'_>, judged: &RunsJudged, number: usize) -> bool {
    let Ok(name) = judged.name(folder.alloc, number) else {
        folder.refuse(&ToolFault::Memory);
        return false;
    };
    let are_saved = save_side(folder, judged, number, &name, Side::Old)
        && save_side(folder, judged, number, &name, Side::New);
    drop(name);
    are_saved
}

/// Saves the runs that show each difference. Returns the largest status.
fn save_all(folder: DifferenceFolder<'_>, judged: &RunsJudged) -> u8
    ensures { result ≤ 1 }
{
    let mut are_saved = true;
    for number in 0..judged.count() {
        if judged.is_shown(number) && !save(folder, judged, number) {
            are_saved = false;
        }
    }
    if are_saved { 0 } else { 1 }
}

/// Judges the runs of the programs of these texts, and saves those that show each difference, where there is a folder. Returns the status.
fn judge(folder: DifferenceFolder<'_>, request: &DiffRunsRequest, texts: &DiffTexts) -> u8
    ensures { result ≤ 1 }
{
    let standard = Standard::new(folder.rt);
    let mut out = standard.out();
    let mut err = standard.err();
    let judged = judge_runs(folder.alloc, request, texts, &mut out, &mut err);
    drop(err);
    drop(out);
    drop(standard);
    match judged {
        Ok(judged) => {
            let status = match &request.save {
                Some(_) => save_all(folder, &judged),
                None => 0,
            };
            drop(judged);
            status
        }
        Err(_) => 1,
    }
}

/// Judges the runs of two programs, and saves those that show each difference, where a folder is named. Returns the status, the largest of all:
/// 0 done, 1 a fault, 2 wrong usage.
pub(crate) fn run_runs(rt: &HostRuntime, alloc: Global, request: &DiffRunsRequest) -> u8
    ensures { result ≤ 2 }
{
    let (old, new) = (request.old.as_str(), request.new.as_str());
    let folder = DifferenceFolder {
        rt,
        alloc,
        folder: match &request.save {
            Some(folder) => folder.as_str(),
            None => "",
        },
        old,
        new,
        why: request.why,
    };
    let manner = Manner {
        why: request.why,
        aliases: request.aliases,
    };
    match texts_of(rt, alloc, manner, old, new) {
        Ok(texts) => {
            let mut status = if request.save.is_some() {
                folder.prepare()
            } else {
                0
            };
            if status == 0 {
                let (quiet, assumed) = (request.quiet, request.assumed.as_slice());
                status = judge(folder, request, &texts);
                status = warn_of_judged(rt, alloc, status, quiet, assumed, &texts);
            }
            drop(texts);
            status
        }
        Err(fault) => refuse_text(rt, request.why, &fault),
    }
}
