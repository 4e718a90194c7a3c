//! A request for what some state, or every one, switches on.

ghost use Rattle.std.specs.Prelude.{◌≡◌, ◌≤◌, ◌⊎◌, ℕ, List, None, length, option_map};
ghost use Rattle.causes_query.specs.Refusal.{refusal};
ghost use Rattle.scan_cycle.specs.Standing.{Fits};
ghost use Rattle.io_text.specs.Log.{PutsAll, WriteLog};
ghost use Rattle.cli_questions.specs.Query.{Writes, question_of};
ghost use Rattle.search_groups.specs.declared.class_walk.ClassGroup.{ClassGroup};
ghost use Rattle.cli_assumed.specs.Assumed.{HasTruthFault, MayBeTrue};
ghost use Rattle.cli_states.specs.Query.{AreCounted, at_stored};
ghost use Rattle.cli_inputs.specs.Reports.{HasCauseFault, Refuses, logs};
ghost use Rattle.cli_states.specs.AnyState.{AssumedPossibleBy, AssumedPossibleRefusal, BreaksPossible, CountsPossible, HasPossibleFault, PossibleGroupListBy, PossibleListBy, PossibleRowsBy, ReachedListBy, possible_group_counts, possible_group_refusal, possible_refusal_by, row_counts};
ghost use Rattle.cli_inputs.specs.Setting.{given_by};

use crate::possible_asking::causes_of;
use crate::possible_grouping::groups_of;
use crate::reached_asking::run_causes_of;
use cli_arguments::{PossibleRequest, RunsWanted};
use cli_assumed::{check_satisfiable, read_assumed};
use cli_inputs::{Texts, ToolFault, report};
use cli_questions::{ListCounts, ListForm, ListQuery, list_asked, read_question};
use io_text::Sink;
use st_expression::Expression;
use std::alloc::Global;
use text_lists::{PossibleGroupSummary, write_possible_causes, write_possible_groups};
use text_runs::write_run_causes;

/// What is counted of rows of which nothing, or so many expressions, is assumed.
fn counts_of(expressions: u64, rows: u64, unsettled: u64) -> ListCounts
    ensures { result ≡ row_counts expressions rows unsettled }
{
    match expressions {
        0 => ListCounts::Possible { rows, unsettled },
        assumed => ListCounts::AssumedPossible {
            rows,
            unsettled,
            assumed,
        },
    }
}

/// What is counted of groups of which nothing, or so many expressions, is assumed.
fn group_counts_of(expressions: u64, summary: PossibleGroupSummary) -> ListCounts
    ensures { (k : ℕ) (groups : List ClassGroup) → AreCounted summary k groups → result ≡ possible_group_counts expressions k groups }
{
    let PossibleGroupSummary {
        rows,
        causes,
        unsettled,
    } = summary;
    match expressions {
        0 => ListCounts::PossibleGroups {
            rows,
            causes,
            unsettled,
        },
        assumed => ListCounts::AssumedPossibleGroups {
            rows,
            causes,
            unsettled,
            assumed,
        },
    }
}

/// Writes a row for each number of what is asked, of the states with which what is assumed is true.
fn write_rows<O: Sink>(
    alloc: Global,
    request: &PossibleRequest,
    asked: &ListQuery,
    assumed: Option<&Expression>,
    expressions: u64,
    out: &mut O,
) -> Result<ListCounts, ToolFault>
    requires fits { Fits asked.now.program asked.now.state }
    ensures { Writes (PossibleListBy (option_map (λ e. e.now) assumed.entry) expressions request.now (at_stored (question_of asked.now))) (HasCauseFault (refusal (at_stored (question_of asked.now)) None)) (O.log out.old) (O.log out.new) result }
{
    let (off, must) = (request.off, request.must);
    let mut causes = match causes_of(alloc, request, off, must, asked, assumed) {
        Ok(causes) => causes,
        Err(fault) => return Err(ToolFault::Cause(fault)),
    };
    let written = write_possible_causes(&mut causes, request.limit, out);
    drop(causes);
    match written {
        Ok(summary) => Ok(counts_of(expressions, summary.rows, summary.unsettled)),
        Err(_) => Err(ToolFault::Write),
    }
}

/// Writes a row for each group of them.
fn write_grouped<O: Sink>(
    alloc: Global,
    request: &PossibleRequest,
    asked: &ListQuery,
    assumed: Option<&Expression>,
    expressions: u64,
    out: &mut O,
) -> Result<ListCounts, ToolFault>
    requires fits { Fits asked.now.program asked.now.state }
    ensures { Writes (PossibleGroupListBy (option_map (λ e. e.now) assumed.entry) expressions request.now (at_stored (question_of asked.now))) (HasCauseFault (possible_group_refusal (at_stored (question_of asked.now)))) (O.log out.old) (O.log out.new) result }
{
    let mut groups = match groups_of(alloc, request, asked, assumed) {
        Ok(groups) => groups,
        Err(fault) => return Err(ToolFault::Cause(fault)),
    };
    let written = write_possible_groups(&mut groups, request.limit, out);
    drop(groups);
    match written {
        Ok(summary) => Ok(group_counts_of(expressions, summary)),
        Err(_) => Err(ToolFault::Write),
    }
}

/// Writes a row for each number of what is asked, unless no run comes to it.
fn write_in_runs<O: Sink>(
    alloc: Global,
    request: &PossibleRequest,
    runs: &RunsWanted,
    asked: &ListQuery,
    assumed: Option<&Expression>,
    expressions: u64,
    out: &mut O,
) -> Result<ListCounts, ToolFault>
    requires fits { Fits asked.now.program asked.now.state }
    ensures { Writes (ReachedListBy (option_map (λ e. e.now) assumed.entry) expressions request.now (at_stored (question_of asked.now))) (HasCauseFault (refusal (at_stored (question_of asked.now)) None)) (O.log out.old) (O.log out.new) result }
{
    let mut causes = match run_causes_of(alloc, request, runs.states, asked, assumed) {
        Ok(causes) => causes,
        Err(fault) => return Err(ToolFault::Cause(fault)),
    };
    let written = write_run_causes(&mut causes, request.limit, out);
    drop(causes);
    match written {
        Ok(summary) => Ok(counts_of(expressions, summary.rows, summary.unsettled)),
        Err(_) => Err(ToolFault::Write),
    }
}

/// Writes a row for each number, also where it is asked of the runs, or for each group.
fn write_any<O: Sink>(
    alloc: Global,
    request: &PossibleRequest,
    asked: &ListQuery,
    assumed: Option<&Expression>,
    expressions: u64,
    out: &mut O,
) -> Result<ListCounts, ToolFault>
    requires fits { Fits asked.now.program asked.now.state }
    ensures { Writes (PossibleRowsBy request.now.runs request.now.grouped (option_map (λ e. e.now) assumed.entry) expressions request.now (at_stored (question_of asked.now)))
        (HasCauseFault (possible_refusal_by request.now.runs request.now.grouped (at_stored (question_of asked.now)))) (O.log out.old) (O.log out.new) result }
{
    if let Some(runs) = &request.runs {
        return write_in_runs(alloc, request, runs, asked, assumed, expressions, out);
    }
    if request.grouped {
        return write_grouped(alloc, request, asked, assumed, expressions, out);
    }
    write_rows(alloc, request, asked, assumed, expressions, out)
}

/// Writes what is asked of what is assumed, where it can be true.
fn write_possible<O: Sink>(
    alloc: Global,
    request: &PossibleRequest,
    asked: &ListQuery,
    assumed: Option<&Expression>,
    out: &mut O,
) -> Result<ListCounts, ToolFault>
    requires fits { Fits asked.now.program asked.now.state }
    ensures { Writes
        (λ text c. MayBeTrue (option_map (λ e. e.now) assumed.entry)
        × PossibleRowsBy request.now.runs request.now.grouped (option_map (λ e. e.now) assumed.entry) (length request.now.assumed.items) request.now (at_stored (question_of asked.now)) text c)
        (λ f. HasTruthFault (option_map (λ e. e.now) assumed.entry) f ⊎ HasCauseFault (possible_refusal_by request.now.runs request.now.grouped (at_stored (question_of asked.now))) f)
        (O.log out.old) (O.log out.new) result }
{
    match check_satisfiable(alloc, assumed) {
        Ok(()) => (),
        Err(fault) => return Err(fault),
    }
    let texts = request.assumed.as_slice();
    let expressions = texts.len() as u64;
    write_any(alloc, request, asked, assumed, expressions, out)
}

/// Writes what is asked of the expressions that are assumed.
fn write_assuming<O: Sink>(
    alloc: Global,
    request: &PossibleRequest,
    asked: &ListQuery,
    out: &mut O,
) -> Result<ListCounts, ToolFault>
    requires fits { Fits asked.now.program asked.now.state }
    ensures { Writes (AssumedPossibleBy request.now (at_stored (question_of asked.now)))
        (AssumedPossibleRefusal request.now (at_stored (question_of asked.now))) (O.log out.old) (O.log out.new) result }
{
    let texts = request.assumed.as_slice();
    let assumed = match read_assumed(alloc, &asked.program, texts) {
        Ok(assumed) => assumed,
        Err(fault) => return Err(fault),
    };
    let written = write_possible(alloc, request, asked, assumed.as_ref(), out);
    drop(assumed);
    written
}

/// A row for each number, or for each group, of what a request asks.
#[derive(Clone, Copy)]
struct PossibleRows<'a> {
    request: &'a PossibleRequest,
}

impl<'a> ListForm for PossibleRows<'a> {
    ghost use Rattle.cli_states.specs.Query.{at_stored};
    ghost use Rattle.cli_states.specs.AnyState.{AnyStateBy, AnyStateRefusal, assumes_nothing};

    ghost is_list = { λ f q. AnyStateBy (assumes_nothing f.request.now) f.request.now (at_stored q) };

    ghost refuses = { λ f q. AnyStateRefusal (assumes_nothing f.request.now) f.request.now (at_stored q) };

    fn write<O: Sink>(
        &self,
        alloc: Global,
        asked: &mut ListQuery,
        out: &mut O,
    ) -> Result<ListCounts, ToolFault> {
        let request = self.request;
        let assumed = request.assumed.as_slice();
        if assumed.is_empty() {
            return write_any(alloc, request, asked, None, 0, out);
        }
        write_assuming(alloc, request, asked, out)
    }
}

/// Lists what some state, or every one, switches on, of the coil of the texts, in groups where these are asked for.
pub fn list_possible<O: Sink, E: Sink>(
    alloc: Global,
    request: &PossibleRequest,
    texts: &Texts,
    out: &mut O,
    err: &mut E,
) -> u8
    ensures status { result ≤ 1 }
    ensures done { result ≡ 0 → CountsPossible (given_by texts.now) request.now (O.log out.old) (O.log out.new) (PutsAll (E.log err.old) (E.log err.new)) }
    ensures failed { (save : WriteLog) → result ≡ 1
        → Refuses (given_by texts.now) (HasPossibleFault (given_by texts.now) request.now) (logs (O.log out.old) save (E.log err.old)) (logs (O.log out.new) save (E.log err.new))
        ⊎ BreaksPossible (given_by texts.now) request.now (logs (O.log out.old) save (E.log err.old)) (logs (O.log out.new) save (E.log err.new)) }
{
    let coil = request.coil.as_str();
    match read_question(
        alloc,
        texts,
        None,
        coil,
        request.all_inputs,
        &request.inputs,
    ) {
        Ok(mut asked) => {
            let rows = PossibleRows { request };
            list_asked(alloc, &rows, &mut asked, request.quiet, texts, out, err)
        }
        Err(fault) => report(texts, &fault, err),
    }
}
