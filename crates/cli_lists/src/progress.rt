//! A request for a list of causes that tells how far it is.

ghost use Rattle.std.specs.Prelude.{◌≡◌, ◌≢◌, ◌≤◌, ◌⊎◌, None, false, option_map};
ghost use Rattle.io_text.specs.Log.{WriteLog};
ghost use Rattle.cli_questions.specs.Query.{question_of};
ghost use Rattle.cli_questions.specs.Ending.{IsAsked};
ghost use Rattle.cli_assumed.specs.Assumed.{AssumedFault, IsEverTrue};
ghost use Rattle.cli_lists.specs.Assumed.{HasCausesFault, assumes_nothing};
ghost use Rattle.cli_lists.specs.AssumedProgress.{BreaksAllProgress, BreaksRows, CountsAllProgress, TellsRows, counts_by};
ghost use Rattle.cli_lists.specs.Lists.{list_refusal};
ghost use Rattle.scan_cycle.specs.Standing.{Fits};
ghost use Rattle.cli_inputs.specs.Reports.{HasCauseFault, IsReported, Refuses, logs};
ghost use Rattle.cli_inputs.specs.Setting.{given_by};

use crate::listing::{CauseRows, assumed_cursor_of};
use cli_arguments::ListRequest;
use cli_assumed::{check_possible, read_assumed};
use cli_inputs::{Texts, ToolFault, report};
use cli_questions::{ListCounts, ListQuery, put_counts, read_request};
use io_text::Sink;
use st_expression::Expression;
use std::alloc::Global;
use text_causes::{ProgressFault, Summary, write_progress};

/// What is listed: the causes after a number and up to another, where there are such.
#[derive(Clone, Copy)]
struct ToldList<'a> {
    request: &'a ListRequest,
    after: Option<u64>,
    upto: Option<u64>,
    /// Of how many expressions it is made what is assumed of the inputs.
    expressions: u64,
}

/// What is counted of a list of which nothing, or so many expressions, is assumed.
fn counts_by(expressions: u64, summary: Summary) -> ListCounts
    ensures { result ≡ counts_by expressions summary }
{
    match expressions {
        0 => ListCounts::Causes(summary),
        assumed => ListCounts::AssumedCauses { summary, assumed },
    }
}

/// Says that the rows could not be written. Of lines that can't be written nothing is said, since nothing can be.
fn end_at<E: Sink>(texts: &Texts, fault: ProgressFault, err: &mut E) -> u8
    ensures status { result ≤ 1 }
    ensures failed { result ≢ 0 }
    ensures rows { fault ≡ ProgressFault.Rows → IsReported (given_by texts.now) (E.log err.old) (E.log err.new) ToolFault.Write }
    ensures lines { fault ≡ ProgressFault.Lines → E.log err.new ≡ E.log err.old }
{
    match fault {
        ProgressFault::Rows => report(texts, &ToolFault::Write, err),
        ProgressFault::Lines => 1,
    }
}

/// Lists the causes of what is asked, and tells how far the list is.
fn tell_asked<O: Sink, E: Sink>(
    alloc: Global,
    list: ToldList<'_>,
    asked: &ListQuery,
    assumed: Option<&Expression>,
    texts: &Texts,
    out: &mut O,
    err: &mut E,
) -> u8
    requires fits { Fits asked.now.program asked.now.state }
    ensures status { result ≤ 1 }
    ensures done { (save : WriteLog) → result ≡ 0
        → (list_refusal list.entry.after list.entry.upto (question_of asked.now) ≡ None)
        × TellsRows list.entry.expressions (option_map (λ e. e.now) assumed.entry) list.entry.request.now list.entry.after list.entry.upto (question_of asked.now)
        (logs (O.log out.old) save (E.log err.old)) (logs (O.log out.new) save (E.log err.new)) }
    ensures failed { (save : WriteLog) → result ≡ 1
        → Refuses (given_by texts.now) (HasCauseFault (list_refusal list.entry.after list.entry.upto (question_of asked.now))) (logs (O.log out.old) save (E.log err.old)) (logs (O.log out.new) save (E.log err.new))
        ⊎ ((list_refusal list.entry.after list.entry.upto (question_of asked.now) ≡ None)
        × BreaksRows (given_by texts.now) list.entry.expressions (option_map (λ e. e.now) assumed.entry) list.entry.request.now list.entry.after list.entry.upto (question_of asked.now)
        (logs (O.log out.old) save (E.log err.old)) (logs (O.log out.new) save (E.log err.new))) }
{
    let ToldList {
        request,
        after,
        upto,
        ..
    } = list;
    let limit = request.limit;
    let rows = CauseRows { after, upto, limit };
    let mut causes = match assumed_cursor_of(alloc, rows, asked, assumed) {
        Ok(causes) => causes,
        Err(fault) => return report(texts, &ToolFault::Cause(fault), err),
    };
    let written = write_progress(&mut causes, upto, limit, out, err);
    drop(causes);
    let summary = match written {
        Ok(summary) => summary,
        Err(fault) => return end_at(texts, fault, err),
    };
    let Ok(()) = put_counts(request.quiet, counts_by(list.expressions, summary), err) else {
        return 1;
    };
    0
}

/// Lists them where some combination counts.
fn tell_counted<O: Sink, E: Sink>(
    alloc: Global,
    list: ToldList<'_>,
    asked: &ListQuery,
    assumed: Option<&Expression>,
    texts: &Texts,
    out: &mut O,
    err: &mut E,
) -> u8
    requires fits { Fits asked.now.program asked.now.state }
    ensures status { result ≤ 1 }
    ensures done { (save : WriteLog) → result ≡ 0
        → IsEverTrue (option_map (λ e. e.now) assumed.entry) (question_of asked.now) × (list_refusal list.entry.after list.entry.upto (question_of asked.now) ≡ None)
        × TellsRows list.entry.expressions (option_map (λ e. e.now) assumed.entry) list.entry.request.now list.entry.after list.entry.upto (question_of asked.now)
        (logs (O.log out.old) save (E.log err.old)) (logs (O.log out.new) save (E.log err.new)) }
    ensures failed { (save : WriteLog) → result ≡ 1
        → Refuses (given_by texts.now) (AssumedFault (option_map (λ e. e.now) assumed.entry) (λ q. HasCauseFault (list_refusal list.entry.after list.entry.upto q)) (question_of asked.now))
        (logs (O.log out.old) save (E.log err.old)) (logs (O.log out.new) save (E.log err.new))
        ⊎ (IsEverTrue (option_map (λ e. e.now) assumed.entry) (question_of asked.now) × (list_refusal list.entry.after list.entry.upto (question_of asked.now) ≡ None)
        × BreaksRows (given_by texts.now) list.entry.expressions (option_map (λ e. e.now) assumed.entry) list.entry.request.now list.entry.after list.entry.upto (question_of asked.now)
        (logs (O.log out.old) save (E.log err.old)) (logs (O.log out.new) save (E.log err.new))) }
{
    match check_possible(alloc, asked, assumed) {
        Ok(()) => tell_asked(alloc, list, asked, assumed, texts, out, err),
        Err(fault) => report(texts, &fault, err),
    }
}

/// Reads what a request assumes of the inputs, and lists the causes of what is asked among the combinations with which it is true.
fn tell_assuming<O: Sink, E: Sink>(
    alloc: Global,
    request: &ListRequest,
    rows: CauseRows,
    asked: &ListQuery,
    texts: &Texts,
    out: &mut O,
    err: &mut E,
) -> u8
    requires fits { Fits asked.now.program asked.now.state }
    requires asked { IsAsked (given_by texts.now) request.now (question_of asked.now) }
    requires assuming { assumes_nothing request.now ≡ false }
    ensures status { result ≤ 1 }
    ensures done { (save : WriteLog) → result ≡ 0
        → CountsAllProgress (given_by texts.now) request.now rows.after rows.upto (logs (O.log out.old) save (E.log err.old)) (logs (O.log out.new) save (E.log err.new)) }
    ensures failed { (save : WriteLog) → result ≡ 1
        → Refuses (given_by texts.now) (HasCausesFault (given_by texts.now) request.now rows.after rows.upto) (logs (O.log out.old) save (E.log err.old)) (logs (O.log out.new) save (E.log err.new))
        ⊎ BreaksAllProgress (given_by texts.now) request.now rows.after rows.upto (logs (O.log out.old) save (E.log err.old)) (logs (O.log out.new) save (E.log err.new)) }
{
    let expressions = request.assumed.as_slice();
    let read = match read_assumed(alloc, &asked.program, expressions) {
        Ok(read) => read,
        Err(fault) => return report(texts, &fault, err),
    };
    let list = ToldList {
        request,
        after: rows.after,
        upto: rows.upto,
        expressions: expressions.len() as u64,
    };
    let status = tell_counted(alloc, list, asked, read.as_ref(), texts, out, err);
    drop(read);
    status
}

/// Lists the causes of the coil in the state of the texts, after a number and up to another where there are such, and tells on `err` about
/// once a second up to which number the list is written; where the request assumes something of the inputs, of the combinations with which it
/// is true.
pub fn list_progress<O: Sink, E: Sink>(
    alloc: Global,
    request: &ListRequest,
    after: Option<u64>,
    upto: Option<u64>,
    texts: &Texts,
    out: &mut O,
    err: &mut E,
) -> u8
    ensures status { result ≤ 1 }
    ensures done { (save : WriteLog) → result ≡ 0
        → CountsAllProgress (given_by texts.now) request.now after upto (logs (O.log out.old) save (E.log err.old)) (logs (O.log out.new) save (E.log err.new)) }
    ensures failed { (save : WriteLog) → result ≡ 1
        → Refuses (given_by texts.now) (HasCausesFault (given_by texts.now) request.now after upto) (logs (O.log out.old) save (E.log err.old)) (logs (O.log out.new) save (E.log err.new))
        ⊎ BreaksAllProgress (given_by texts.now) request.now after upto (logs (O.log out.old) save (E.log err.old)) (logs (O.log out.new) save (E.log err.new)) }
{
    let asked = match read_request(alloc, request, texts) {
        Ok(asked) => asked,
        Err(fault) => return report(texts, &fault, err),
    };
    if request.assumed.as_slice().is_empty() {
        let list = ToldList {
            request,
            after,
            upto,
            expressions: 0,
        };
        return tell_asked(alloc, list, &asked, None, texts, out, err);
    }
    let limit = request.limit;
    let rows = CauseRows { after, upto, limit };
    tell_assuming(alloc, request, rows, &asked, texts, out, err)
}
