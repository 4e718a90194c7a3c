//! A row for each combination that, held over several scans, first switches the coil on in another scan.

ghost use Rattle.std.specs.Prelude.{◌≡◌, length};
ghost use Rattle.scan_cycle.specs.Standing.{Fits};
ghost use Rattle.cli_arguments.specs.declared.request.DiffForm.TheVariants.{Held};
ghost use Rattle.cli_questions.specs.Query.{question_of};
ghost use Rattle.cli_diff.specs.Ending.{WritesOf};
ghost use Rattle.cli_diff.specs.Faults.{IsRefusedOf};
ghost use Rattle.cli_diff.specs.Assumed.{AssumedList, assumption};

use crate::asking::DiffQuery;
use crate::assuming::{Assuming, rows_by};
use crate::listing::program_query;
use crate::sided::{SidedFault, held_refused, unwritten};
use cli_questions::ListCounts;
use diff_held::HeldDifferences;
use io_text::Sink;
use scan_held::Scans;
use std::alloc::Global;
use text_held_differences::write_held_differences;

/// Writes the rows of what is asked and assumed over several scans, the first of which each program has at the moment of its question.
pub(crate) fn write_held<O: Sink>(
    alloc: Global,
    scans: Scans,
    limit: Option<u64>,
    asked: &DiffQuery,
    assumed: Assuming<'_>,
    out: &mut O,
) -> Result<ListCounts, SidedFault>
    requires old { Fits asked.now.of_old.program asked.now.of_old.state }
    requires new { Fits asked.now.of_new.program asked.now.of_new.state }
    requires same { length asked.now.of_old.inputs.items ≡ length asked.now.of_new.inputs.items }
    ensures { WritesOf (AssumedList (assumption assumed.entry) (Held scans.count scans.every) limit (question_of asked.now.of_old) (question_of asked.now.of_new))
        (IsRefusedOf (Held scans.count scans.every) (question_of asked.now.of_old) (question_of asked.now.of_new)) (O.log out.old) (O.log out.new) result }
{
    let old = program_query(&asked.of_old);
    let new = program_query(&asked.of_new);
    let mut differences = match HeldDifferences::assuming(
        alloc,
        old,
        new,
        scans,
        assumed.old,
        assumed.new,
    ) {
        Ok(differences) => differences,
        Err(fault) => return Err(held_refused(fault)),
    };
    let written = write_held_differences(&mut differences, limit, out);
    drop(differences);
    match written {
        Ok(rows) => Ok(rows_by(assumed.expressions, rows)),
        Err(_) => Err(unwritten()),
    }
}
