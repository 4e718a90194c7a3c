//! A request for the causes of a coil: for all of them, or for those after a number and up to another.

ghost use Rattle.std.specs.Prelude.{◌≡◌, ◌≤◌, ◌⊎◌, IfErr, IfOk, None, option_map};
ghost use Rattle.io_text.specs.Log.{PutsAll, WriteLog};
ghost use Rattle.causes_one_scan.specs.Assuming.{assumed_causes_after, assumed_search_of};
ghost use Rattle.causes_one_scan.specs.Cursor.{first_number, looks_of, searched};
ghost use Rattle.causes_one_scan.specs.Prefixes.{search_of};
ghost use Rattle.cli_questions.specs.Query.{question_of};
ghost use Rattle.cli_lists.specs.Assumed.{assumed_summary, assumed_text};
ghost use Rattle.cli_lists.specs.Writing.{WritesSummed};
ghost use Rattle.cli_lists.specs.Lists.{BreaksList, CountsList, HasListFault, end_refusal, list_refusal};
ghost use Rattle.causes_query.specs.Causes.{causes_after};
ghost use Rattle.scan_cycle.specs.Standing.{Fits};
ghost use Rattle.cli_inputs.specs.Reports.{HasCauseFault, Refuses, logs};
ghost use Rattle.cli_inputs.specs.Setting.{given_by};

use causes_one_scan::{AskedScan, Causes};
use causes_query::CauseFault;
use causes_query::refusal::refusal;
use cli_arguments::ListRequest;
use cli_inputs::{Texts, ToolFault};
use cli_questions::{ListCounts, ListForm, ListQuery, list_request};
use io_text::Sink;
use st_expression::Expression;
use std::alloc::Global;
use text_causes::{Summary, write_upto};

/// A row for each cause: for those after a number and up to another, where there are such.
#[derive(Clone, Copy)]
pub(crate) struct CauseRows {
    pub after: Option<u64>,
    pub upto: Option<u64>,
    pub limit: Option<u64>,
}

/// The first rule that is broken by what is asked with the number to end at, where there is one.
fn end_refusal(upto: Option<u64>, asked: &ListQuery) -> Option<CauseFault>
    ensures { result ≡ end_refusal upto (question_of asked.now) }
{
    match upto {
        Some(last) => refusal(
            &asked.program,
            &asked.state,
            asked.moment,
            asked.coil,
            &asked.inputs,
            Some(last),
        ),
        None => None,
    }
}

/// The cursor over the causes from the first one on that is asked for, among the combinations with which what is assumed is true.
pub(crate) fn assumed_cursor_of<'a>(
    alloc: Global,
    rows: CauseRows,
    asked: &'a ListQuery,
    assumed: Option<&'a Expression>,
) -> Result<Causes<'a>, CauseFault>
    requires fits { Fits asked.now.program asked.now.state }
    ensures program { IfOk result (λ c. c.program ≡ asked.now.program) }
    ensures listed { IfOk result (λ c. c.listed ≡ asked.now.inputs.items) }
    ensures rest { IfOk result (λ c. c.rest ≡ assumed_causes_after (option_map (λ e. e.now) assumed.entry) rows.after (question_of asked.now)) }
    ensures search { IfOk result (λ c. searched c ≡ assumed_search_of (option_map (λ e. e.now) assumed.entry) (question_of asked.now) (first_number rows.after)) }
    ensures looks { IfOk result (λ c. looks_of c ≡ 0) }
    ensures accepted { IfOk result (λ _. list_refusal rows.after rows.upto (question_of asked.now) ≡ None) }
    ensures refused { IfErr result (λ e. HasCauseFault (list_refusal rows.after rows.upto (question_of asked.now)) (ToolFault.Cause e)) }
{
    if let Some(fault) = end_refusal(rows.upto, asked) {
        return Err(fault);
    }
    let scan = AskedScan {
        program: &asked.program,
        state: &asked.state,
        now: asked.moment,
        coil: asked.coil,
    };
    Causes::assuming(alloc, scan, &asked.inputs, rows.after, assumed)
}

/// Writes a row for each cause among the combinations with which what is assumed is true.
pub(crate) fn write_rows<O: Sink>(
    alloc: Global,
    rows: CauseRows,
    asked: &ListQuery,
    assumed: Option<&Expression>,
    out: &mut O,
) -> Result<Summary, ToolFault>
    requires fits { Fits asked.now.program asked.now.state }
    ensures { WritesSummed (HasCauseFault (list_refusal rows.after rows.upto (question_of asked.now))) (list_refusal rows.after rows.upto (question_of asked.now) ≡ None)
        (assumed_text (option_map (λ e. e.now) assumed.entry) rows.limit rows.after rows.upto (question_of asked.now))
        (assumed_summary (option_map (λ e. e.now) assumed.entry) rows.limit rows.after rows.upto (question_of asked.now))
        (O.log out.old) (O.log out.new) result }
{
    let mut causes = match assumed_cursor_of(alloc, rows, asked, assumed) {
        Ok(causes) => causes,
        Err(fault) => return Err(ToolFault::Cause(fault)),
    };
    let written = write_upto(&mut causes, rows.upto, rows.limit, out);
    drop(causes);
    match written {
        Ok(summary) => Ok(summary),
        Err(_) => Err(ToolFault::Write),
    }
}

impl ListForm for CauseRows {
    ghost use Rattle.cli_inputs.specs.Reports.{HasCauseFault};
    ghost use Rattle.cli_lists.specs.Lists.{CauseList, list_refusal};

    ghost is_list = { λ f. CauseList f.limit f.after f.upto };

    ghost refuses = { λ f q. HasCauseFault (list_refusal f.after f.upto q) };

    fn write<O: Sink>(
        &self,
        alloc: Global,
        asked: &mut ListQuery,
        out: &mut O,
    ) -> Result<ListCounts, ToolFault> {
        match write_rows(alloc, *self, asked, None, out) {
            Ok(summary) => Ok(ListCounts::Causes(summary)),
            Err(fault) => Err(fault),
        }
    }
}

/// Lists the causes of the coil in the state of the texts, after a number and up to another where there are such.
pub(crate) fn list_causes<O: Sink, E: Sink>(
    alloc: Global,
    request: &ListRequest,
    after: Option<u64>,
    upto: Option<u64>,
    texts: &Texts,
    out: &mut O,
    err: &mut E,
) -> u8
    ensures status { result ≤ 1 }
    ensures done { result ≡ 0 → CountsList (given_by texts.now) request.now after upto (O.log out.old) (O.log out.new) (PutsAll (E.log err.old) (E.log err.new)) }
    ensures failed { (save : WriteLog) → result ≡ 1
        → Refuses (given_by texts.now) (HasListFault (given_by texts.now) request.now after upto) (logs (O.log out.old) save (E.log err.old)) (logs (O.log out.new) save (E.log err.new))
        ⊎ BreaksList (given_by texts.now) request.now after upto (logs (O.log out.old) save (E.log err.old)) (logs (O.log out.new) save (E.log err.new)) }
{
    let form = CauseRows {
        after,
        upto,
        limit: request.limit,
    };
    list_request(alloc, request, &form, texts, out, err)
}
