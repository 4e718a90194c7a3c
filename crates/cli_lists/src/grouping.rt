//! A request for the causes of a coil in groups.

ghost use Rattle.std.specs.Prelude.{◌≡◌, ◌≤◌, ◌⊎◌, IfErr, IfOk, None, option_map};
ghost use Rattle.scan_cycle.specs.Standing.{Fits};
ghost use Rattle.causes_query.specs.Refusal.{reason, refusal};
ghost use Rattle.io_text.specs.Log.{PutsAll, WriteLog};
ghost use Rattle.cli_questions.specs.Query.{question_of};
ghost use Rattle.cli_inputs.specs.Reports.{HasCauseFault, Refuses, logs};
ghost use Rattle.cli_lists.specs.Assumed.{assumed_group_summary, assumed_groups_text};
ghost use Rattle.cli_lists.specs.Writing.{WritesSummed};
ghost use Rattle.cli_lists.specs.Lists.{BreaksGroups, CountsGroups, HasListFault, ordered};
ghost use Rattle.cli_inputs.specs.Setting.{given_by};

use causes_one_scan::laws::orders;
use causes_one_scan::{AskedScan, Groups, sifted};
use causes_query::CauseFault;
use cli_arguments::{Grouping, InputOrder, ListRequest};
use cli_inputs::{Texts, ToolFault};
use cli_questions::{ListCounts, ListForm, ListQuery, form_of, list_request};
use io_text::Sink;
use st_expression::Expression;
use std::alloc::Global;
use text_causes::{GroupSummary, write_groups};

/// A row for each group of causes, in a form and by an order.
#[derive(Clone, Copy)]
pub(crate) struct GroupRows {
    pub how: Grouping,
    pub limit: Option<u64>,
}

/// Puts the listed inputs in an order.
fn put_in_order(alloc: Global, asked: &mut ListQuery, order: InputOrder) -> Result<(), CauseFault>
    requires fits { Fits asked.old.program asked.old.state }
    ensures fits { Fits asked.new.program asked.new.state }
    ensures ordered { IfOk result (λ _. question_of asked.new ≡ ordered order (question_of asked.old)) }
    ensures refused { IfErr result (λ e. refusal (question_of asked.old) None ≡ reason e) }
{
    if let InputOrder::Sifted = order {
        asked.inputs = sifted(
            alloc,
            &asked.program,
            &asked.state,
            asked.moment,
            asked.coil,
            &asked.inputs,
        )?;
    }
    Ok(())
}

/// Writes a row for each group of causes among the combinations with which what is assumed is true.
pub(crate) fn write_group_rows<O: Sink>(
    alloc: Global,
    rows: GroupRows,
    asked: &mut ListQuery,
    assumed: Option<&Expression>,
    out: &mut O,
) -> Result<GroupSummary, ToolFault>
    requires fits { Fits asked.old.program asked.old.state }
    ensures { WritesSummed (HasCauseFault (refusal (question_of asked.old) None)) (refusal (question_of asked.old) None ≡ None)
        (assumed_groups_text (option_map (λ e. e.now) assumed.entry) rows.how.form rows.limit (ordered rows.how.order (question_of asked.old)))
        (assumed_group_summary (option_map (λ e. e.now) assumed.entry) rows.limit (ordered rows.how.order (question_of asked.old)))
        (O.log out.old) (O.log out.new) result }
{
    match put_in_order(alloc, asked, rows.how.order) {
        Ok(()) => (),
        Err(fault) => return Err(ToolFault::Cause(fault)),
    }
    orders();
    let scan = AskedScan {
        program: &asked.program,
        state: &asked.state,
        now: asked.moment,
        coil: asked.coil,
    };
    let mut groups = match Groups::assuming(alloc, scan, &asked.inputs, assumed) {
        Ok(groups) => groups,
        Err(fault) => return Err(ToolFault::Cause(fault)),
    };
    let form = form_of(rows.how.form, asked.coil);
    let written = write_groups(&mut groups, form, rows.limit, out);
    drop(groups);
    match written {
        Ok(summary) => Ok(summary),
        Err(_) => Err(ToolFault::Write),
    }
}

impl ListForm for GroupRows {
    ghost use Rattle.std.specs.Prelude.{None};
    ghost use Rattle.causes_query.specs.Refusal.{refusal};
    ghost use Rattle.cli_inputs.specs.Reports.{HasCauseFault};
    ghost use Rattle.cli_lists.specs.Lists.{GroupList};

    ghost is_list = { λ f. GroupList f.limit f.how };

    ghost refuses = { λ f q. HasCauseFault (refusal q None) };

    fn write<O: Sink>(
        &self,
        alloc: Global,
        asked: &mut ListQuery,
        out: &mut O,
    ) -> Result<ListCounts, ToolFault> {
        match write_group_rows(alloc, *self, asked, None, out) {
            Ok(summary) => Ok(ListCounts::Groups(summary)),
            Err(fault) => Err(fault),
        }
    }
}

/// Lists the causes of the coil in the state of the texts in groups.
pub(crate) fn list_groups<O: Sink, E: Sink>(
    alloc: Global,
    request: &ListRequest,
    how: Grouping,
    texts: &Texts,
    out: &mut O,
    err: &mut E,
) -> u8
    ensures status { result ≤ 1 }
    ensures done { result ≡ 0 → CountsGroups (given_by texts.now) request.now how (O.log out.old) (O.log out.new) (PutsAll (E.log err.old) (E.log err.new)) }
    ensures failed { (save : WriteLog) → result ≡ 1
        → Refuses (given_by texts.now) (HasListFault (given_by texts.now) request.now None None) (logs (O.log out.old) save (E.log err.old)) (logs (O.log out.new) save (E.log err.new))
        ⊎ BreaksGroups (given_by texts.now) request.now how (logs (O.log out.old) save (E.log err.old)) (logs (O.log out.new) save (E.log err.new)) }
{
    let form = GroupRows {
        how,
        limit: request.limit,
    };
    list_request(alloc, request, &form, texts, out, err)
}
