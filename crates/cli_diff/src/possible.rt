//! Refusing what is assumed of the inputs where nothing makes it true in both programs.

ghost use Rattle.std.specs.Prelude.{◌≡◌, ◌≤◌, IfErr, IfOk, Some, length, map, option_map};
ghost use Rattle.diagram_declarations.specs.Decls.{is_input};
ghost use Rattle.scan_cycle.specs.Standing.{Fits};
ghost use Rattle.causes_query.specs.Sources.{sources_of};
ghost use Rattle.causes_query.specs.declared.fault.CauseFault.TheVariants as cause;
ghost use Rattle.causes_query.specs.declared.limit.TheConstants.{LISTED_LIMIT};
ghost use Rattle.search_differences.specs.declared.side.Side.TheVariants.{Old};
ghost use Rattle.cli_inputs.specs.declared.fault.ToolFault.TheVariants as fault;
ghost use Rattle.cli_assumed.specs.Assumed.{IsEverTrue, IsNeverTrue};
ghost use Rattle.cli_questions.specs.Query.{question_of};
ghost use Rattle.cli_diff.specs.Assumed.{IsEverTrueInBoth, IsImpossibleBy, IsNeverTrueInBoth, assumption};

use crate::asking::DiffQuery;
use crate::assuming::Assuming;
use crate::sided::{SidedFault, of};
use assume_possible::is_possible_in_both;
use causes_query::source::{InputSource, sources};
use causes_query::{CauseFault, LISTED_LIMIT};
use cli_assumed::check_possible;
use cli_inputs::ToolFault;
use cli_questions::ListQuery;
use search_differences::Side;
use st_expression::Expression;
use std::alloc::Global;

/// Out of memory: a fault of the old program, as where its list is made.
fn no_memory() -> SidedFault
    ensures { result ≡ record { side = Some Old; fault = fault.Cause cause.Memory } }
{
    of(Side::Old, ToolFault::Cause(CauseFault::Memory))
}

/// Nothing makes it true: a fault of neither program alone.
fn never_true() -> SidedFault
    ensures { result ≡ record { side = None; fault = fault.NeverTrue } }
{
    SidedFault {
        side: None,
        fault: ToolFault::NeverTrue,
    }
}

/// Where each input of a program takes its value from.
fn sources_in(alloc: Global, asked: &ListQuery) -> Result<Vec<InputSource>, SidedFault>
    requires fits { Fits asked.now.program asked.now.state }
    requires few { length asked.now.inputs.items ≤ LISTED_LIMIT }
    ensures sources { IfOk result (λ v. v.items ≡ sources_of (map is_input asked.now.program.decls.vars) asked.now.inputs.items asked.now.state.held.values) }
    ensures fault { IfErr result (λ e. e ≡ record { side = Some Old; fault = fault.Cause cause.Memory }) }
{
    let vars = asked.program.decls().vars();
    match sources(alloc, vars, &asked.inputs, &asked.state) {
        Ok(sources) => Ok(sources),
        Err(_) => Err(no_memory()),
    }
}

/// Refuses what is assumed of one program alone where no combination of the listed inputs makes it true.
fn check_one(
    alloc: Global,
    asked: &ListQuery,
    assumed: Option<&Expression>,
) -> Result<(), SidedFault>
    requires { Fits asked.now.program asked.now.state }
    ensures possible { IfOk result (λ _. length asked.now.inputs.items ≤ LISTED_LIMIT → IsEverTrue (option_map (λ e. e.now) assumed.entry) (question_of asked.now)) }
    ensures refused { IfErr result (IsImpossibleBy (IsNeverTrue (option_map (λ e. e.now) assumed.entry) (question_of asked.now))) }
{
    match check_possible(alloc, asked, assumed) {
        Ok(()) => Ok(()),
        Err(ToolFault::NeverTrue) => Err(never_true()),
        Err(_) => Err(no_memory()),
    }
}

/// Refuses what is assumed of both programs where no combination of the listed inputs makes it true.
fn check_both(
    alloc: Global,
    asked: &DiffQuery,
    old: &Expression,
    new: &Expression,
) -> Result<(), SidedFault>
    requires old { Fits asked.now.of_old.program asked.now.of_old.state }
    requires new { Fits asked.now.of_new.program asked.now.of_new.state }
    requires same { length asked.now.of_old.inputs.items ≡ length asked.now.of_new.inputs.items }
    ensures possible { IfOk result (λ _. length asked.now.of_old.inputs.items ≤ LISTED_LIMIT → IsEverTrueInBoth (Some old.now) (Some new.now) (question_of asked.now.of_old) (question_of asked.now.of_new)) }
    ensures refused { IfErr result (IsImpossibleBy (IsNeverTrueInBoth (Some old.now) (Some new.now) (question_of asked.now.of_old) (question_of asked.now.of_new))) }
{
    let bits = asked.of_old.inputs.len();
    if bits > LISTED_LIMIT {
        return Ok(());
    }
    let old_sources = match sources_in(alloc, &asked.of_old) {
        Ok(sources) => sources,
        Err(fault) => return Err(fault),
    };
    let new_sources = match sources_in(alloc, &asked.of_new) {
        Ok(sources) => sources,
        Err(fault) => {
            drop(old_sources);
            return Err(fault);
        }
    };
    if is_possible_in_both(old, old_sources, new, new_sources, bits) {
        return Ok(());
    }
    Err(never_true())
}

/// Refuses what is assumed where no combination of the listed inputs makes it true in both programs. More inputs than a list may have are
/// refused elsewhere.
pub(crate) fn check_possible_in_both(
    alloc: Global,
    asked: &DiffQuery,
    assumed: Assuming<'_>,
) -> Result<(), SidedFault>
    requires old { Fits asked.now.of_old.program asked.now.of_old.state }
    requires new { Fits asked.now.of_new.program asked.now.of_new.state }
    requires same { length asked.now.of_old.inputs.items ≡ length asked.now.of_new.inputs.items }
    ensures possible { IfOk result (λ _. length asked.now.of_old.inputs.items ≤ LISTED_LIMIT
        → IsEverTrueInBoth (assumption assumed.entry).old (assumption assumed.entry).new (question_of asked.now.of_old) (question_of asked.now.of_new)) }
    ensures refused { IfErr result (IsImpossibleBy
        (IsNeverTrueInBoth (assumption assumed.entry).old (assumption assumed.entry).new (question_of asked.now.of_old) (question_of asked.now.of_new))) }
{
    let Some(old) = assumed.old else {
        return check_one(alloc, &asked.of_new, assumed.new);
    };
    let Some(new) = assumed.new else {
        return check_one(alloc, &asked.of_old, Some(old));
    };
    check_both(alloc, asked, old, new)
}
