//! A row for each group of combinations with which two programs leave a coil different.

ghost use Rattle.std.specs.Prelude.{◌≡◌, IfErr, IfOk, None, OnOk, length};
ghost use Rattle.scan_cycle.specs.Standing.{Fits};
ghost use Rattle.causes_query.specs.Refusal.{refusal};
ghost use Rattle.cli_arguments.specs.declared.request.DiffForm.TheVariants as form;
ghost use Rattle.cli_arguments.specs.declared.request.InputOrder.TheVariants.{Given};
ghost use Rattle.cli_questions.specs.Query.{question_of};
ghost use Rattle.diff_causes.specs.GroupCursor.{group_rows_left};
ghost use Rattle.cli_diff.specs.Ending.{WritesOf};
ghost use Rattle.cli_diff.specs.Faults.{IsRefusedOf};
ghost use Rattle.cli_diff.specs.Assumed.{AssumedList, assumed_alone, assumption};
ghost use Rattle.cli_diff.specs.Ordering.{ArePutInOrder};

use crate::assuming::{Assuming, differences_by};
use crate::listing::program_query;
use crate::sided::{SidedFault, refused, unwritten};
use causes_one_scan::laws::orders;
use cli_arguments::{GroupFormat, Grouping, InputOrder};
use cli_questions::{ListCounts, ListQuery, form_of};
use diff_causes::{
    DifferenceFault, DifferenceGroups, OrderedInputs, orders_alike, sifted_together,
};
use io_text::Sink;
use search_differences::Sought;
use std::alloc::Global;
use text_differences::write_difference_groups;

/// Puts the listed inputs of both programs in the order in which sifting leaves those of the old one.
fn sift(alloc: Global, of_old: &mut ListQuery, of_new: &mut ListQuery) -> Result<(), SidedFault>
    requires old { Fits of_old.old.program of_old.old.state }
    requires new { Fits of_new.old.program of_new.old.state }
    requires same { length of_old.old.inputs.items ≡ length of_new.old.inputs.items }
    ensures old { Fits of_old.new.program of_old.new.state }
    ensures new { Fits of_new.new.program of_new.new.state }
    ensures ordered { OnOk result (ArePutInOrder InputOrder.Sifted (question_of of_old.old) (question_of of_new.old) (question_of of_old.new) (question_of of_new.new)) }
    ensures refused { (g : Grouping) → IfErr result (λ e. IsRefusedOf (form.Groups g) (question_of of_old.old) (question_of of_new.old) e.side e.fault) }
{
    let inputs = match sifted_together(alloc, program_query(&*of_old), &of_new.inputs) {
        Ok(inputs) => inputs,
        Err(fault) => return Err(refused(DifferenceFault::Old(fault))),
    };
    orders();
    orders_alike();
    let OrderedInputs { old, new } = inputs;
    of_old.inputs = old;
    of_new.inputs = new;
    Ok(())
}

/// Puts the listed inputs of both programs in an order: those of the new one by those of the old one that they belong together with.
fn put_in_order(
    alloc: Global,
    order: InputOrder,
    of_old: &mut ListQuery,
    of_new: &mut ListQuery,
) -> Result<(), SidedFault>
    requires old { Fits of_old.old.program of_old.old.state }
    requires new { Fits of_new.old.program of_new.old.state }
    requires same { length of_old.old.inputs.items ≡ length of_new.old.inputs.items }
    ensures old { Fits of_old.new.program of_old.new.state }
    ensures new { Fits of_new.new.program of_new.new.state }
    ensures ordered { OnOk result (ArePutInOrder order (question_of of_old.old) (question_of of_new.old) (question_of of_old.new) (question_of of_new.new)) }
    ensures refused { (g : Grouping) → IfErr result (λ e. IsRefusedOf (form.Groups g) (question_of of_old.old) (question_of of_new.old) e.side e.fault) }
{
    match order {
        InputOrder::Given => Ok(()),
        InputOrder::Sifted => sift(alloc, of_old, of_new),
    }
}

/// The groups of the combinations that are sought, of those with which what is assumed is true in both programs.
fn groups_of<'a>(
    alloc: Global,
    sought: Sought,
    of_old: &'a ListQuery,
    of_new: &'a ListQuery,
    assumed: Assuming<'a>,
) -> Result<DifferenceGroups<'a>, SidedFault>
    requires old { Fits of_old.now.program of_old.now.state }
    requires new { Fits of_new.now.program of_new.now.state }
    requires same { length of_old.now.inputs.items ≡ length of_new.now.inputs.items }
    ensures old { IfOk result (λ c. c.asked_old ≡ question_of of_old.now) }
    ensures sought { IfOk result (λ c. c.sought ≡ sought) }
    ensures rows { IfOk result (λ c. group_rows_left c ≡ assumed_alone (assumption assumed.entry) sought (question_of of_old.now) (question_of of_new.now)) }
    ensures old_accepted { IfOk result (λ _. refusal (question_of of_old.now) None ≡ None) }
    ensures new_accepted { IfOk result (λ _. refusal (question_of of_new.now) None ≡ None) }
    ensures refused { (g : Grouping) → IfErr result (λ e. IsRefusedOf (form.Groups g) (question_of of_old.now) (question_of of_new.now) e.side e.fault) }
{
    let old = program_query(of_old);
    let new = program_query(of_new);
    match DifferenceGroups::assuming(alloc, sought, old, new, assumed.old, assumed.new) {
        Ok(groups) => Ok(groups),
        Err(fault) => Err(refused(fault)),
    }
}

/// Writes the groups of what is asked, with the inputs as they are listed: those of the old program alone, and then those of the new one.
fn write_as_listed<O: Sink>(
    alloc: Global,
    shape: GroupFormat,
    limit: Option<u64>,
    of_old: &ListQuery,
    of_new: &ListQuery,
    assumed: Assuming<'_>,
    out: &mut O,
) -> Result<ListCounts, SidedFault>
    requires old { Fits of_old.now.program of_old.now.state }
    requires new { Fits of_new.now.program of_new.now.state }
    requires same { length of_old.now.inputs.items ≡ length of_new.now.inputs.items }
    ensures { WritesOf (AssumedList (assumption assumed.entry) (form.Groups (record { form = shape; order = Given })) limit (question_of of_old.now) (question_of of_new.now))
        (IsRefusedOf (form.Groups (record { form = shape; order = Given })) (question_of of_old.now) (question_of of_new.now)) (O.log out.old) (O.log out.new) result }
{
    let mut old = match groups_of(alloc, Sought::OldAlone, of_old, of_new, assumed) {
        Ok(groups) => groups,
        Err(fault) => return Err(fault),
    };
    let mut new = match groups_of(alloc, Sought::NewAlone, of_old, of_new, assumed) {
        Ok(groups) => groups,
        Err(fault) => {
            drop(old);
            return Err(fault);
        }
    };
    let form = form_of(shape, of_old.coil);
    let written = write_difference_groups(&mut old, &mut new, form, limit, out);
    drop(new);
    drop(old);
    match written {
        Ok(summary) => Ok(differences_by(assumed.expressions, summary.rows, summary.differences)),
        Err(_) => Err(unwritten()),
    }
}

/// Writes the groups of what is asked, in a form and with the inputs in an order: those of the old program alone, and then those of the new one.
pub(crate) fn write_groups<O: Sink>(
    alloc: Global,
    grouping: Grouping,
    limit: Option<u64>,
    of_old: &mut ListQuery,
    of_new: &mut ListQuery,
    assumed: Assuming<'_>,
    out: &mut O,
) -> Result<ListCounts, SidedFault>
    requires old { Fits of_old.old.program of_old.old.state }
    requires new { Fits of_new.old.program of_new.old.state }
    requires same { length of_old.old.inputs.items ≡ length of_new.old.inputs.items }
    ensures { WritesOf (AssumedList (assumption assumed.entry) (form.Groups grouping) limit (question_of of_old.old) (question_of of_new.old))
        (IsRefusedOf (form.Groups grouping) (question_of of_old.old) (question_of of_new.old)) (O.log out.old) (O.log out.new) result }
{
    match put_in_order(alloc, grouping.order, of_old, of_new) {
        Ok(()) => (),
        Err(fault) => return Err(fault),
    }
    write_as_listed(
        alloc,
        grouping.form,
        limit,
        &*of_old,
        &*of_new,
        assumed,
        out,
    )
}
