//! A list of rows that tells how far it is.

ghost use Rattle.std.specs.Prelude.{◌≡◌, ◌≢◌, ◌≤◌, ◌⊎◌, IfNone, IfSome, length};
ghost use Rattle.scan_cycle.specs.Standing.{Fits};
ghost use Rattle.io_text.specs.Log.{WriteLog};
ghost use Rattle.cli_arguments.specs.declared.request.DiffForm.TheVariants as form;
ghost use Rattle.cli_inputs.specs.Reports.{IsReported, logs};
ghost use Rattle.cli_inputs.specs.Setting.{given_by};
ghost use Rattle.cli_questions.specs.Query.{question_of};
ghost use Rattle.cli_diff.specs.Assumed.{assumption};
ghost use Rattle.cli_diff.specs.AssumedEnding.{BreaksOffAssumed, CountsAssumed};
ghost use Rattle.cli_diff.specs.Ending.{IsUntold, RefusesOf};
ghost use Rattle.cli_diff.specs.Faults.{IsRefusedOf};

use crate::asking::DiffQuery;
use crate::assuming::{Assuming, rows_by};
use crate::listing::{Bounds, differences_of};
use crate::sided::{report, unwritten};
use crate::texts::DiffTexts;
use cli_arguments::{DiffForm, DiffRequest};
use cli_inputs::ToolFault;
use cli_questions::put_counts;
use io_text::Sink;
use std::alloc::Global;
use text_causes::ProgressFault;
use text_differences::write_difference_progress;

/// Which rows are listed, where the list is to tell how far it is.
pub(crate) fn told_bounds(asked: DiffForm) -> Option<Bounds>
    ensures told { IfSome result (λ b. asked ≡ form.Progress b.after b.upto) }
    ensures untold { IfNone result (IsUntold asked) }
{
    match asked {
        DiffForm::Progress { after, upto } => Some(Bounds { after, upto }),
        DiffForm::Rows { after, upto } => None,
        DiffForm::Held { scans, every } => None,
        DiffForm::Groups(grouping) => None,
    }
}

/// Says that the rows could not be written. Of lines that can't be written nothing is said, since nothing can be.
fn end_at<E: Sink>(texts: &DiffTexts, fault: ProgressFault, err: &mut E) -> u8
    ensures status { result ≤ 1 }
    ensures failed { result ≢ 0 }
    ensures rows { fault ≡ ProgressFault.Rows → IsReported (given_by texts.now.old) (E.log err.old) (E.log err.new) ToolFault.Write }
    ensures lines { fault ≡ ProgressFault.Lines → E.log err.new ≡ E.log err.old }
{
    match fault {
        ProgressFault::Rows => report(texts, unwritten(), err),
        ProgressFault::Lines => 1,
    }
}

/// What is listed: the rows of a request after a number and up to another, where there are such, with what is assumed.
#[derive(Clone, Copy)]
pub(crate) struct ToldRows<'a> {
    pub request: &'a DiffRequest,
    pub bounds: Bounds,
    pub assumed: Assuming<'a>,
}

/// Writes the rows of what is asked and assumed, and tells how far the list is.
pub(crate) fn tell_asked<O: Sink, E: Sink>(
    alloc: Global,
    rows: ToldRows<'_>,
    asked: &DiffQuery,
    texts: &DiffTexts,
    out: &mut O,
    err: &mut E,
) -> u8
    requires old { Fits asked.now.of_old.program asked.now.of_old.state }
    requires new { Fits asked.now.of_new.program asked.now.of_new.state }
    requires same { length asked.now.of_old.inputs.items ≡ length asked.now.of_new.inputs.items }
    ensures status { result ≤ 1 }
    ensures done { (save : WriteLog) → result ≡ 0
        → CountsAssumed (form.Progress rows.entry.bounds.after rows.entry.bounds.upto) (assumption rows.entry.assumed) rows.entry.request.now (question_of asked.now.of_old) (question_of asked.now.of_new)
        (logs (O.log out.old) save (E.log err.old)) (logs (O.log out.new) save (E.log err.new)) }
    ensures failed { (save : WriteLog) → result ≡ 1
        → RefusesOf (given_by texts.now.old) (given_by texts.now.new) (IsRefusedOf (form.Progress rows.entry.bounds.after rows.entry.bounds.upto) (question_of asked.now.of_old) (question_of asked.now.of_new))
        (logs (O.log out.old) save (E.log err.old)) (logs (O.log out.new) save (E.log err.new))
        ⊎ BreaksOffAssumed (form.Progress rows.entry.bounds.after rows.entry.bounds.upto) (given_by texts.now.old) (assumption rows.entry.assumed) rows.entry.request.now (question_of asked.now.of_old) (question_of asked.now.of_new)
        (logs (O.log out.old) save (E.log err.old)) (logs (O.log out.new) save (E.log err.new)) }
{
    let ToldRows {
        request,
        bounds,
        assumed,
    } = rows;
    let mut differences = match differences_of(alloc, bounds, asked, assumed) {
        Ok(differences) => differences,
        Err(fault) => return report(texts, fault, err),
    };
    let written = write_difference_progress(&mut differences, bounds.upto, request.limit, out, err);
    drop(differences);
    let rows = match written {
        Ok(rows) => rows,
        Err(fault) => return end_at(texts, fault, err),
    };
    let Ok(()) = put_counts(request.quiet, rows_by(assumed.expressions, rows), err) else {
        return 1;
    };
    0
}
