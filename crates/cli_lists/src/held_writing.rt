//! What is written of the causes of a coil over several scans: a row for each, or for each group.

ghost use Rattle.std.specs.Prelude.{◌≡◌, IfErr, IfOk, None, false, length, option_map, true};
ghost use Rattle.scan_cycle.specs.Standing.{Fits};
ghost use Rattle.scan_held.specs.HeldRefusal.{held_reason, held_refusal};
ghost use Rattle.causes_held.specs.Assuming.{assumed_held_causes, assumed_held_groups};
ghost use Rattle.causes_held.specs.GroupRefusal.{held_group_reason, held_group_refusal};
ghost use Rattle.cli_questions.specs.Query.{question_of};
ghost use Rattle.cli_lists.specs.AssumedHeld.{assumed_held_for, assumed_held_groups_text, assumed_held_summary, assumed_held_text};
ghost use Rattle.cli_lists.specs.Lists.{IsFirstFault, held_fault, held_group_fault, held_refusal_by};
ghost use Rattle.cli_lists.specs.Writing.{WritesSummed};

use causes_held::{HeldCauses, HeldGroupFault, HeldGroups};
use causes_query::CauseFault;
use cli_inputs::ToolFault;
use cli_questions::ListQuery;
use io_text::Sink;
use scan_held::{HeldFault, Scans, Watched};
use st_expression::Expression;
use std::alloc::Global;
use text_causes::GroupSummary;
use text_lists::{write_held_causes, write_held_groups};

/// A list over several scans: a row for each cause, or for each group.
#[derive(Clone, Copy)]
pub(crate) struct HeldRows {
    pub scans: Scans,
    pub limit: Option<u64>,
    pub grouped: bool,
}

/// The fault of a request that has no list over several scans.
fn held_fault(fault: HeldFault) -> ToolFault
    ensures { result ≡ held_fault fault }
{
    match fault {
        HeldFault::Question(fault) => ToolFault::Cause(fault),
        HeldFault::NoScans => ToolFault::NoScans,
    }
}

/// The fault of a request that has no groups over several scans.
fn held_group_fault(fault: HeldGroupFault) -> ToolFault
    ensures { result ≡ held_group_fault fault }
{
    match fault {
        HeldGroupFault::TooManyInputs => ToolFault::Cause(CauseFault::TooManyFree),
        HeldGroupFault::Held(fault) => held_fault(fault),
    }
}

/// The cursor over the causes among the combinations with which what is assumed is true.
fn held_causes_of<'a>(
    alloc: Global,
    asked: &'a ListQuery,
    scans: Scans,
    assumed: Option<&'a Expression>,
) -> Result<HeldCauses<'a>, HeldFault>
    requires fits { Fits asked.now.program asked.now.state }
    ensures program { IfOk result (λ c. c.program ≡ asked.now.program) }
    ensures listed { IfOk result (λ c. c.listed ≡ asked.now.inputs.items) }
    ensures rest { IfOk result (λ c. c.rest ≡ assumed_held_causes (option_map (λ e. e.now) assumed.entry) (question_of asked.now) scans) }
    ensures accepted { IfOk result (λ _. held_refusal (question_of asked.now) scans ≡ None) }
    ensures refused { IfErr result (λ e. held_refusal (question_of asked.now) scans ≡ held_reason e) }
{
    let watched = Watched {
        coil: asked.coil,
        first: asked.moment,
        scans,
    };
    let (program, state) = (&asked.program, &asked.state);
    HeldCauses::assuming(alloc, program, state, watched, &asked.inputs, assumed)
}

/// The cursor over the groups of them.
fn held_groups_of<'a>(
    alloc: Global,
    asked: &'a ListQuery,
    scans: Scans,
    assumed: Option<&Expression>,
) -> Result<HeldGroups<'a>, HeldGroupFault>
    requires fits { Fits asked.now.program asked.now.state }
    ensures program { IfOk result (λ c. c.program ≡ asked.now.program) }
    ensures listed { IfOk result (λ c. c.listed ≡ asked.now.inputs.items) }
    ensures rest { IfOk result (λ c. c.rest ≡ assumed_held_groups (option_map (λ e. e.now) assumed.entry) (question_of asked.now) scans) }
    ensures accepted { IfOk result (λ _. held_group_refusal (question_of asked.now) scans ≡ None) }
    ensures refused { IfErr result (λ e. held_group_refusal (question_of asked.now) scans ≡ held_group_reason e) }
{
    let watched = Watched {
        coil: asked.coil,
        first: asked.moment,
        scans,
    };
    let (program, state) = (&asked.program, &asked.state);
    HeldGroups::assuming(alloc, program, state, watched, &asked.inputs, assumed)
}

/// Writes a row for each cause among the combinations with which what is assumed is true.
pub(crate) fn write_held_rows<O: Sink>(
    alloc: Global,
    rows: HeldRows,
    asked: &ListQuery,
    assumed: Option<&Expression>,
    out: &mut O,
) -> Result<u64, ToolFault>
    requires fits { Fits asked.now.program asked.now.state }
    ensures { WritesSummed (IsFirstFault (held_refusal_by false rows.scans (question_of asked.now))) (held_refusal (question_of asked.now) rows.scans ≡ None)
        (assumed_held_text (option_map (λ e. e.now) assumed.entry) rows.limit rows.scans (question_of asked.now))
        (length (assumed_held_for (option_map (λ e. e.now) assumed.entry) rows.limit rows.scans (question_of asked.now))) (O.log out.old) (O.log out.new) result }
{
    let mut causes = match held_causes_of(alloc, asked, rows.scans, assumed) {
        Ok(causes) => causes,
        Err(fault) => return Err(held_fault(fault)),
    };
    let written = write_held_causes(&mut causes, rows.limit, out);
    drop(causes);
    match written {
        Ok(rows) => Ok(rows),
        Err(_) => Err(ToolFault::Write),
    }
}

/// Writes a row for each group of them.
pub(crate) fn write_held_group_rows<O: Sink>(
    alloc: Global,
    rows: HeldRows,
    asked: &ListQuery,
    assumed: Option<&Expression>,
    out: &mut O,
) -> Result<GroupSummary, ToolFault>
    requires fits { Fits asked.now.program asked.now.state }
    ensures { WritesSummed (IsFirstFault (held_refusal_by true rows.scans (question_of asked.now))) (held_group_refusal (question_of asked.now) rows.scans ≡ None)
        (assumed_held_groups_text (option_map (λ e. e.now) assumed.entry) rows.limit rows.scans (question_of asked.now))
        (assumed_held_summary (option_map (λ e. e.now) assumed.entry) rows.limit rows.scans (question_of asked.now)) (O.log out.old) (O.log out.new) result }
{
    let mut groups = match held_groups_of(alloc, asked, rows.scans, assumed) {
        Ok(groups) => groups,
        Err(fault) => return Err(held_group_fault(fault)),
    };
    let written = write_held_groups(&mut groups, rows.limit, out);
    drop(groups);
    match written {
        Ok(summary) => Ok(summary),
        Err(_) => Err(ToolFault::Write),
    }
}
