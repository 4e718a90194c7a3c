//! A row for each combination with which two programs leave a coil different.

ghost use Rattle.std.specs.Prelude.{◌≡◌, IfErr, IfOk, None, length};
ghost use Rattle.scan_cycle.specs.Standing.{Fits};
ghost use Rattle.diff_causes.specs.Asked.{asked};
ghost use Rattle.diff_causes.specs.Assuming.{assumed_differences_after};
ghost use Rattle.cli_arguments.specs.declared.request.DiffForm.TheVariants.{Rows};
ghost use Rattle.cli_questions.specs.Query.{question_of};
ghost use Rattle.cli_diff.specs.Ending.{WritesOf};
ghost use Rattle.cli_diff.specs.Faults.{IsRefusedOf, bound_refusal, new_refusal, old_refusal};
ghost use Rattle.cli_diff.specs.Assumed.{AssumedList, assumption};

use crate::asking::DiffQuery;
use crate::assuming::{Assuming, rows_by};
use crate::sided::{SidedFault, refused, unwritten};
use causes_query::CauseFault;
use causes_query::refusal::refusal;
use cli_questions::{ListCounts, ListQuery};
use diff_causes::{DifferenceFault, Differences, ProgramQuery};
use io_text::Sink;
use std::alloc::Global;
use text_differences::write_differences;

/// Which rows are listed: those after a number and up to another, where there are such.
#[derive(Clone, Copy)]
pub(crate) struct Bounds {
    pub after: Option<u64>,
    pub upto: Option<u64>,
}

/// What is asked of one of the programs, as the lists take it.
pub(crate) fn program_query<'a>(query: &'a ListQuery) -> ProgramQuery<'a>
    ensures { asked result ≡ question_of query.now }
{
    ProgramQuery {
        program: &query.program,
        state: &query.state,
        now: query.moment,
        coil: query.coil,
        listed: &query.inputs,
    }
}

/// The first rule that is broken by what is asked of the old program with the number to end at, where there is one.
fn bound_refusal(bounds: Bounds, asked: &ListQuery) -> Option<CauseFault>
    ensures { result ≡ bound_refusal bounds.upto (question_of asked.now) }
{
    match bounds.upto {
        Some(last) => refusal(
            &asked.program,
            &asked.state,
            asked.moment,
            asked.coil,
            &asked.inputs,
            Some(last),
        ),
        None => None,
    }
}

/// The differences from the first one on that is asked for, of the combinations with which what is assumed is true in both programs.
pub(crate) fn differences_of<'a>(
    alloc: Global,
    bounds: Bounds,
    asked: &'a DiffQuery,
    assumed: Assuming<'a>,
) -> Result<Differences<'a>, SidedFault>
    requires old { Fits asked.now.of_old.program asked.now.of_old.state }
    requires new { Fits asked.now.of_new.program asked.now.of_new.state }
    requires same { length asked.now.of_old.inputs.items ≡ length asked.now.of_new.inputs.items }
    ensures old { IfOk result (λ c. c.asked_old ≡ question_of asked.now.of_old) }
    ensures rest { IfOk result (λ c. c.rest ≡ assumed_differences_after bounds.after (assumption assumed.entry).old (assumption assumed.entry).new (question_of asked.now.of_old) (question_of asked.now.of_new)) }
    ensures old_accepted { IfOk result (λ _. old_refusal (Rows bounds.after bounds.upto) (question_of asked.now.of_old) ≡ None) }
    ensures new_accepted { IfOk result (λ _. new_refusal (Rows bounds.after bounds.upto) (question_of asked.now.of_new) ≡ None) }
    ensures refused { IfErr result (λ e. IsRefusedOf (Rows bounds.after bounds.upto) (question_of asked.now.of_old) (question_of asked.now.of_new) e.side e.fault) }
{
    if let Some(fault) = bound_refusal(bounds, &asked.of_old) {
        return Err(refused(DifferenceFault::Old(fault)));
    }
    let old = program_query(&asked.of_old);
    let new = program_query(&asked.of_new);
    match Differences::assuming(alloc, old, new, bounds.after, assumed.old, assumed.new) {
        Ok(differences) => Ok(differences),
        Err(fault) => Err(refused(fault)),
    }
}

/// Writes the rows of what is asked and assumed.
pub(crate) fn write_rows<O: Sink>(
    alloc: Global,
    bounds: Bounds,
    limit: Option<u64>,
    asked: &DiffQuery,
    assumed: Assuming<'_>,
    out: &mut O,
) -> Result<ListCounts, SidedFault>
    requires old { Fits asked.now.of_old.program asked.now.of_old.state }
    requires new { Fits asked.now.of_new.program asked.now.of_new.state }
    requires same { length asked.now.of_old.inputs.items ≡ length asked.now.of_new.inputs.items }
    ensures { WritesOf (AssumedList (assumption assumed.entry) (Rows bounds.after bounds.upto) limit (question_of asked.now.of_old) (question_of asked.now.of_new))
        (IsRefusedOf (Rows bounds.after bounds.upto) (question_of asked.now.of_old) (question_of asked.now.of_new)) (O.log out.old) (O.log out.new) result }
{
    let mut differences = match differences_of(alloc, bounds, asked, assumed) {
        Ok(differences) => differences,
        Err(fault) => return Err(fault),
    };
    let written = write_differences(&mut differences, bounds.upto, limit, out);
    drop(differences);
    match written {
        Ok(rows) => Ok(rows_by(assumed.expressions, rows)),
        Err(_) => Err(unwritten()),
    }
}
