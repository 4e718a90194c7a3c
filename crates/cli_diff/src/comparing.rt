//! The comparison of two programs, once their texts were read.

ghost use Rattle.std.specs.Prelude.{◌≡◌, ◌≤◌, ◌⊎◌, false, length};
ghost use Rattle.scan_cycle.specs.Standing.{Fits};
ghost use Rattle.io_text.specs.Log.{PutsAll, WriteLog};
ghost use Rattle.cli_inputs.specs.Reports.{logs};
ghost use Rattle.cli_inputs.specs.Setting.{given_by};
ghost use Rattle.cli_questions.specs.Query.{question_of};
ghost use Rattle.cli_questions.specs.Ending.{BreaksOff, Ends};
ghost use Rattle.cli_diff.specs.Asking.{AreAsked};
ghost use Rattle.cli_diff.specs.Assumed.{AssumedList, IsEverTrueInBoth, assumption};
ghost use Rattle.cli_diff.specs.AssumedEnding.{BreaksAllDiff, BreaksOffAssumed, CountsAllDiff, CountsAssumed, HasAllDiffFault, IsRefusedAssuming};
ghost use Rattle.cli_diff.specs.AssumedEnding as ending;
ghost use Rattle.cli_diff.specs.Ending.{RefusesOf, WritesOf};
ghost use Rattle.cli_diff.specs.Faults.{IsRefusedOf};

use crate::asking::{DiffQuery, read_query};
use crate::assuming::{Assuming, assumed_by, assumes_nothing, nothing, read_both};
use crate::grouping::write_groups;
use crate::holding::write_held;
use crate::listing::{Bounds, write_rows};
use crate::possible::check_possible_in_both;
use crate::sided::{SidedFault, report};
use crate::telling::{ToldRows, tell_asked, told_bounds};
use crate::texts::DiffTexts;
use cli_arguments::{DiffForm, DiffRequest};
use cli_questions::{ListCounts, put_counts};
use io_text::Sink;
use scan_held::Scans;
use std::alloc::Global;

/// Writes the list of what is asked and assumed in its form.
fn write_list<O: Sink>(
    alloc: Global,
    form: DiffForm,
    limit: Option<u64>,
    asked: &mut DiffQuery,
    assumed: Assuming<'_>,
    out: &mut O,
) -> Result<ListCounts, SidedFault>
    requires old { Fits asked.old.of_old.program asked.old.of_old.state }
    requires new { Fits asked.old.of_new.program asked.old.of_new.state }
    requires same { length asked.old.of_old.inputs.items ≡ length asked.old.of_new.inputs.items }
    ensures { WritesOf (AssumedList (assumption assumed.entry) form limit (question_of asked.old.of_old) (question_of asked.old.of_new))
        (IsRefusedOf form (question_of asked.old.of_old) (question_of asked.old.of_new)) (O.log out.old) (O.log out.new) result }
{
    match form {
        DiffForm::Rows { after, upto } => {
            let bounds = Bounds { after, upto };
            write_rows(alloc, bounds, limit, &*asked, assumed, out)
        }
        DiffForm::Progress { after, upto } => {
            let bounds = Bounds { after, upto };
            write_rows(alloc, bounds, limit, &*asked, assumed, out)
        }
        DiffForm::Held { scans, every } => {
            let scans = Scans {
                count: scans,
                every,
            };
            write_held(alloc, scans, limit, &*asked, assumed, out)
        }
        DiffForm::Groups(grouping) => {
            let DiffQuery { of_old, of_new } = asked;
            write_groups(alloc, grouping, limit, of_old, of_new, assumed, out)
        }
    }
}

/// Writes the list of what is asked and assumed, and then the line of its counts.
fn list_asked<O: Sink, E: Sink>(
    alloc: Global,
    request: &DiffRequest,
    asked: &mut DiffQuery,
    assumed: Assuming<'_>,
    texts: &DiffTexts,
    out: &mut O,
    err: &mut E,
) -> u8
    requires old { Fits asked.old.of_old.program asked.old.of_old.state }
    requires new { Fits asked.old.of_new.program asked.old.of_new.state }
    requires same { length asked.old.of_old.inputs.items ≡ length asked.old.of_new.inputs.items }
    ensures status { result ≤ 1 }
    ensures done { result ≡ 0 → Ends (AssumedList (assumption assumed.entry) request.now.form request.now.limit (question_of asked.old.of_old) (question_of asked.old.of_new)) request.now.quiet
        (O.log out.old) (O.log out.new) (PutsAll (E.log err.old) (E.log err.new)) }
    ensures failed { (save : WriteLog) → result ≡ 1
        → RefusesOf (given_by texts.now.old) (given_by texts.now.new) (IsRefusedOf request.now.form (question_of asked.old.of_old) (question_of asked.old.of_new)) (logs (O.log out.old) save (E.log err.old)) (logs (O.log out.new) save (E.log err.new))
        ⊎ BreaksOff (given_by texts.now.old) (AssumedList (assumption assumed.entry) request.now.form request.now.limit (question_of asked.old.of_old) (question_of asked.old.of_new)) request.now.quiet (logs (O.log out.old) save (E.log err.old)) (logs (O.log out.new) save (E.log err.new)) }
{
    let counts = match write_list(alloc, request.form, request.limit, asked, assumed, out) {
        Ok(counts) => counts,
        Err(fault) => return report(texts, fault, err),
    };
    let Ok(()) = put_counts(request.quiet, counts, err) else {
        return 1;
    };
    0
}

/// Writes the list of what is asked and assumed, and then the line of its counts; where the list is to tell how far it is, lines of that before.
fn compare_asked<O: Sink, E: Sink>(
    alloc: Global,
    request: &DiffRequest,
    asked: &mut DiffQuery,
    assumed: Assuming<'_>,
    texts: &DiffTexts,
    out: &mut O,
    err: &mut E,
) -> u8
    requires old { Fits asked.old.of_old.program asked.old.of_old.state }
    requires new { Fits asked.old.of_new.program asked.old.of_new.state }
    requires same { length asked.old.of_old.inputs.items ≡ length asked.old.of_new.inputs.items }
    ensures status { result ≤ 1 }
    ensures done { (save : WriteLog) → result ≡ 0
        → CountsAssumed request.now.form (assumption assumed.entry) request.now (question_of asked.old.of_old) (question_of asked.old.of_new) (logs (O.log out.old) save (E.log err.old)) (logs (O.log out.new) save (E.log err.new)) }
    ensures failed { (save : WriteLog) → result ≡ 1
        → RefusesOf (given_by texts.now.old) (given_by texts.now.new) (IsRefusedOf request.now.form (question_of asked.old.of_old) (question_of asked.old.of_new)) (logs (O.log out.old) save (E.log err.old)) (logs (O.log out.new) save (E.log err.new))
        ⊎ BreaksOffAssumed request.now.form (given_by texts.now.old) (assumption assumed.entry) request.now (question_of asked.old.of_old) (question_of asked.old.of_new) (logs (O.log out.old) save (E.log err.old)) (logs (O.log out.new) save (E.log err.new)) }
{
    match told_bounds(request.form) {
        Some(bounds) => {
            let rows = ToldRows {
                request,
                bounds,
                assumed,
            };
            tell_asked(alloc, rows, &*asked, texts, out, err)
        }
        None => list_asked(alloc, request, asked, assumed, texts, out, err),
    }
}

/// Writes it where some combination makes true in both programs what is assumed.
fn compare_counted<O: Sink, E: Sink>(
    alloc: Global,
    request: &DiffRequest,
    asked: &mut DiffQuery,
    assumed: Assuming<'_>,
    texts: &DiffTexts,
    out: &mut O,
    err: &mut E,
) -> u8
    requires old { Fits asked.old.of_old.program asked.old.of_old.state }
    requires new { Fits asked.old.of_new.program asked.old.of_new.state }
    requires same { length asked.old.of_old.inputs.items ≡ length asked.old.of_new.inputs.items }
    ensures status { result ≤ 1 }
    ensures done { (save : WriteLog) → result ≡ 0
        → IsEverTrueInBoth (assumption assumed.entry).old (assumption assumed.entry).new (question_of asked.old.of_old) (question_of asked.old.of_new)
        × CountsAssumed request.now.form (assumption assumed.entry) request.now (question_of asked.old.of_old) (question_of asked.old.of_new) (logs (O.log out.old) save (E.log err.old)) (logs (O.log out.new) save (E.log err.new)) }
    ensures failed { (save : WriteLog) → result ≡ 1
        → RefusesOf (given_by texts.now.old) (given_by texts.now.new) (IsRefusedAssuming request.now.form (assumption assumed.entry) (question_of asked.old.of_old) (question_of asked.old.of_new)) (logs (O.log out.old) save (E.log err.old)) (logs (O.log out.new) save (E.log err.new))
        ⊎ (IsEverTrueInBoth (assumption assumed.entry).old (assumption assumed.entry).new (question_of asked.old.of_old) (question_of asked.old.of_new)
        × BreaksOffAssumed request.now.form (given_by texts.now.old) (assumption assumed.entry) request.now (question_of asked.old.of_old) (question_of asked.old.of_new) (logs (O.log out.old) save (E.log err.old)) (logs (O.log out.new) save (E.log err.new))) }
{
    match check_possible_in_both(alloc, &*asked, assumed) {
        Ok(()) => compare_asked(alloc, request, asked, assumed, texts, out, err),
        Err(fault) => report(texts, fault, err),
    }
}

/// Reads what is assumed of both programs, and writes the list of what is asked among the combinations with which it is true in both.
fn compare_assuming<O: Sink, E: Sink>(
    alloc: Global,
    request: &DiffRequest,
    asked: &mut DiffQuery,
    texts: &DiffTexts,
    out: &mut O,
    err: &mut E,
) -> u8
    requires old { Fits asked.old.of_old.program asked.old.of_old.state }
    requires new { Fits asked.old.of_new.program asked.old.of_new.state }
    requires same { length asked.old.of_old.inputs.items ≡ length asked.old.of_new.inputs.items }
    requires asked { AreAsked (given_by texts.now.old) (given_by texts.now.new) request.now (question_of asked.old.of_old) (question_of asked.old.of_new) }
    requires assuming { ending.assumes_nothing request.now ≡ false }
    ensures status { result ≤ 1 }
    ensures done { (save : WriteLog) → result ≡ 0
        → CountsAllDiff (given_by texts.now.old) (given_by texts.now.new) request.now (logs (O.log out.old) save (E.log err.old)) (logs (O.log out.new) save (E.log err.new)) }
    ensures failed { (save : WriteLog) → result ≡ 1
        → RefusesOf (given_by texts.now.old) (given_by texts.now.new) (HasAllDiffFault (given_by texts.now.old) (given_by texts.now.new) request.now) (logs (O.log out.old) save (E.log err.old)) (logs (O.log out.new) save (E.log err.new))
        ⊎ BreaksAllDiff (given_by texts.now.old) (given_by texts.now.new) request.now (logs (O.log out.old) save (E.log err.old)) (logs (O.log out.new) save (E.log err.new)) }
{
    let read = match read_both(alloc, request, &*asked, texts) {
        Ok(read) => read,
        Err(fault) => return report(texts, fault, err),
    };
    let status = compare_counted(alloc, request, asked, assumed_by(&read), texts, out, err);
    drop(read);
    status
}

/// Writes the list of what is asked, with what the request assumes where it does.
fn compare_read<O: Sink, E: Sink>(
    alloc: Global,
    request: &DiffRequest,
    asked: &mut DiffQuery,
    texts: &DiffTexts,
    out: &mut O,
    err: &mut E,
) -> u8
    requires old { Fits asked.old.of_old.program asked.old.of_old.state }
    requires new { Fits asked.old.of_new.program asked.old.of_new.state }
    requires same { length asked.old.of_old.inputs.items ≡ length asked.old.of_new.inputs.items }
    requires asked { AreAsked (given_by texts.now.old) (given_by texts.now.new) request.now (question_of asked.old.of_old) (question_of asked.old.of_new) }
    ensures status { result ≤ 1 }
    ensures done { (save : WriteLog) → result ≡ 0
        → CountsAllDiff (given_by texts.now.old) (given_by texts.now.new) request.now (logs (O.log out.old) save (E.log err.old)) (logs (O.log out.new) save (E.log err.new)) }
    ensures failed { (save : WriteLog) → result ≡ 1
        → RefusesOf (given_by texts.now.old) (given_by texts.now.new) (HasAllDiffFault (given_by texts.now.old) (given_by texts.now.new) request.now) (logs (O.log out.old) save (E.log err.old)) (logs (O.log out.new) save (E.log err.new))
        ⊎ BreaksAllDiff (given_by texts.now.old) (given_by texts.now.new) request.now (logs (O.log out.old) save (E.log err.old)) (logs (O.log out.new) save (E.log err.new)) }
{
    if assumes_nothing(request) {
        return compare_asked(alloc, request, asked, nothing(), texts, out, err);
    }
    compare_assuming(alloc, request, asked, texts, out, err)
}

/// Compares two programs: writes on `out` with which combinations they leave a coil different, and on `err` the line of counts, or what
/// stopped the list. Where something is assumed of the inputs, by the request or by the comments of the programs that it takes, only the
/// combinations count with which it is true in both programs. Returns the status: 0 where all was written, 1 otherwise.
pub fn compare<O: Sink, E: Sink>(
    alloc: Global,
    request: &DiffRequest,
    texts: &DiffTexts,
    out: &mut O,
    err: &mut E,
) -> u8
    ensures status { result ≤ 1 }
    ensures done { (save : WriteLog) → result ≡ 0
        → CountsAllDiff (given_by texts.now.old) (given_by texts.now.new) request.now (logs (O.log out.old) save (E.log err.old)) (logs (O.log out.new) save (E.log err.new)) }
    ensures failed { (save : WriteLog) → result ≡ 1
        → RefusesOf (given_by texts.now.old) (given_by texts.now.new) (HasAllDiffFault (given_by texts.now.old) (given_by texts.now.new) request.now) (logs (O.log out.old) save (E.log err.old)) (logs (O.log out.new) save (E.log err.new))
        ⊎ BreaksAllDiff (given_by texts.now.old) (given_by texts.now.new) request.now (logs (O.log out.old) save (E.log err.old)) (logs (O.log out.new) save (E.log err.new)) }
{
    let mut asked = match read_query(alloc, request, texts) {
        Ok(asked) => asked,
        Err(fault) => return report(texts, fault, err),
    };
    let status = compare_read(alloc, request, &mut asked, texts, out, err);
    drop(asked);
    status
}
