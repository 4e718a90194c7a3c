//! What is said of one name.

ghost use Rattle.std.specs.Prelude.{◌≡◌, ◌++◌, ◌∷◌, [], OnOk, map};
ghost use Rattle.diff_findings.specs.Findings.{declared_remarks, findings_on, found, input_remarks, instance_remarks, is_old_instance, is_old_variable, is_same, new_edge_remarks, new_instance_remarks, new_variable_remarks, one_if, pair_at, place_of_new, place_of_old, variable_remarks, verdict_at};

use crate::declared::{address_of, initial_of, is_same_bit, is_same_place, is_written, preset_of};
use crate::finding::{Finding, Remark, Sort, Subject};
use crate::listing::Compared;
use diff_matching::Pair;
use diff_meaning::Verdict;
use scan_cycle::Memory;

/// The place of the pair that a number of the old program is in.
fn place_of_old(pairs: &[Pair], number: usize) -> Option<usize>
    ensures { result ≡ place_of_old pairs.now number }
{
    pairs.iter().position(|pair| pair.old == number)
}

/// The place of the pair that a number of the new program is in.
fn place_of_new(pairs: &[Pair], number: usize) -> Option<usize>
    ensures { result ≡ place_of_new pairs.now number }
{
    pairs.iter().position(|pair| pair.new == number)
}

/// The pair at a place.
fn pair_at(pairs: &[Pair], place: usize) -> Pair
    ensures { result ≡ pair_at pairs.now place }
{
    match pairs.get(place) {
        Some(pair) => *pair,
        None => Pair { old: 0, new: 0 },
    }
}

/// The verdict at a place.
fn verdict_at(verdicts: &[Verdict], place: usize) -> Verdict
    ensures { result ≡ verdict_at verdicts.now place }
{
    match verdicts.get(place) {
        Some(verdict) => *verdict,
        None => Verdict::Unsettled,
    }
}

/// Whether a verdict is that both programs do the same.
fn is_same(verdict: Verdict) -> bool
    ensures { result ≡ is_same verdict }
{
    match verdict {
        Verdict::Same => true,
        Verdict::Differs { .. } | Verdict::Unsettled => false,
    }
}

/// Adds what is said of something.
fn add(list: &mut Vec<Finding>, subject: Subject, remark: Remark) -> Result<(), Memory>
    ensures { OnOk result (list.new.items ≡ list.old.items ++ map (found subject) (remark ∷ [])) }
{
    match list.push(Finding { subject, remark }) {
        Ok(()) => Ok(()),
        Err(_) => Err(Memory),
    }
}

/// The same, where it is so.
fn add_if(
    list: &mut Vec<Finding>,
    is_so: bool,
    subject: Subject,
    remark: Remark,
) -> Result<(), Memory>
    ensures { OnOk result (list.new.items ≡ list.old.items ++ map (found subject) (one_if is_so remark)) }
{
    if !is_so {
        return Ok(());
    }
    add(list, subject, remark)
}

/// Adds what is declared of two variables that belong together.
fn add_declared(
    list: &mut Vec<Finding>,
    compared: Compared<'_>,
    subject: Subject,
    pair: Pair,
) -> Result<(), Memory>
    ensures { OnOk result (list.new.items ≡ list.old.items ++ map (found subject) (declared_remarks compared.entry.old.now compared.entry.new.now pair)) }
{
    let old = initial_of(compared.old, pair.old);
    let new = initial_of(compared.new, pair.new);
    add_if(
        list,
        !is_same_bit(old, new),
        subject,
        Remark::Initial { old, new },
    )?;
    let from = address_of(compared.old, pair.old);
    let to = address_of(compared.new, pair.new);
    add_if(
        list,
        !is_same_place(from, to),
        subject,
        Remark::Moved { old: from, new: to },
    )
}

/// Adds what is said of two variables that are no inputs.
fn add_variable(
    list: &mut Vec<Finding>,
    compared: Compared<'_>,
    subject: Subject,
    pair: Pair,
    verdict: Verdict,
) -> Result<(), Memory>
    ensures { OnOk result (list.new.items ≡ list.old.items ++ map (found subject) (variable_remarks compared.entry.old.now compared.entry.new.now pair verdict)) }
{
    let is_judged = is_written(compared.old, compared.new, pair);
    add_if(list, is_judged, subject, Remark::Judged(verdict))?;
    add_declared(list, compared, subject, pair)
}

/// Adds what is said of two instances.
fn add_instance(
    list: &mut Vec<Finding>,
    compared: Compared<'_>,
    subject: Subject,
    pair: Pair,
    verdict: Verdict,
) -> Result<(), Memory>
    ensures { OnOk result (list.new.items ≡ list.old.items ++ map (found subject) (instance_remarks compared.entry.old.now compared.entry.new.now pair verdict)) }
{
    add(list, subject, Remark::Judged(verdict))?;
    let old = preset_of(compared.old, pair.old);
    let new = preset_of(compared.new, pair.new);
    add_if(list, old != new, subject, Remark::Preset { old, new })
}

/// Adds what is said of an input of the new program, or of a variable that it alone has.
fn add_input(
    list: &mut Vec<Finding>,
    compared: Compared<'_>,
    subject: Subject,
) -> Result<(), Memory>
    ensures { OnOk result (list.new.items ≡ list.old.items ++ map (found subject) (input_remarks compared.entry.old.now compared.entry.new.now compared.entry.matching.now subject.number)) }
{
    let inputs = compared.matching.inputs();
    match place_of_new(inputs, subject.number) {
        Some(place) => add_declared(list, compared, subject, pair_at(inputs, place)),
        None => add(list, subject, Remark::Alone),
    }
}

/// Adds what is said of a variable of the new program.
fn add_new_variable(
    list: &mut Vec<Finding>,
    compared: Compared<'_>,
    subject: Subject,
) -> Result<(), Memory>
    ensures { OnOk result (list.new.items ≡ list.old.items ++ map (found subject)
        (new_variable_remarks compared.entry.old.now compared.entry.new.now compared.entry.matching.now compared.entry.verdicts.now subject.number)) }
{
    let variables = compared.matching.variables();
    match place_of_new(variables, subject.number) {
        Some(place) => {
            let verdict = verdict_at(&compared.verdicts.variables, place);
            add_variable(list, compared, subject, pair_at(variables, place), verdict)
        }
        None => add_input(list, compared, subject),
    }
}

/// Adds what is said of an instance of the new program.
fn add_new_instance(
    list: &mut Vec<Finding>,
    compared: Compared<'_>,
    subject: Subject,
) -> Result<(), Memory>
    ensures { OnOk result (list.new.items ≡ list.old.items ++ map (found subject)
        (new_instance_remarks compared.entry.old.now compared.entry.new.now compared.entry.matching.now compared.entry.verdicts.now subject.number)) }
{
    let instances = compared.matching.instances();
    match place_of_new(instances, subject.number) {
        Some(place) => {
            let verdict = verdict_at(&compared.verdicts.instances, place);
            add_instance(list, compared, subject, pair_at(instances, place), verdict)
        }
        None => add(list, subject, Remark::Alone),
    }
}

/// Adds what is said of an edge of the new program, unless both programs do the same with it.
fn add_new_edge(
    list: &mut Vec<Finding>,
    compared: Compared<'_>,
    subject: Subject,
) -> Result<(), Memory>
    ensures { OnOk result (list.new.items ≡ list.old.items ++ map (found subject)
        (new_edge_remarks compared.entry.matching.now compared.entry.verdicts.now subject.number)) }
{
    let Some(place) = place_of_new(compared.matching.memories(), subject.number) else {
        return Ok(());
    };
    let verdict = verdict_at(&compared.verdicts.memories, place);
    add_if(list, !is_same(verdict), subject, Remark::Judged(verdict))
}

/// Whether a variable of the old program is in no pair.
fn is_old_variable(compared: Compared<'_>, number: usize) -> bool
    ensures { result ≡ is_old_variable compared.entry.matching.now number }
{
    place_of_old(compared.matching.variables(), number).is_none()
        && place_of_old(compared.matching.inputs(), number).is_none()
}

/// Whether an instance of the old program is in no pair.
fn is_old_instance(compared: Compared<'_>, number: usize) -> bool
    ensures { result ≡ is_old_instance compared.entry.matching.now number }
{
    place_of_old(compared.matching.instances(), number).is_none()
}

/// Adds what is said of one name, or of one edge.
pub(crate) fn add_remarks(
    list: &mut Vec<Finding>,
    compared: Compared<'_>,
    subject: Subject,
) -> Result<(), Memory>
    ensures { OnOk result (list.new.items ≡ list.old.items ++ findings_on compared.entry.old.now compared.entry.new.now compared.entry.matching.now compared.entry.verdicts.now subject) }
{
    let number = subject.number;
    match subject.sort {
        Sort::NewVariable => add_new_variable(list, compared, subject),
        Sort::NewInstance => add_new_instance(list, compared, subject),
        Sort::OldVariable => {
            let is_alone = is_old_variable(compared, number);
            add_if(list, is_alone, subject, Remark::Alone)
        }
        Sort::OldInstance => {
            let is_alone = is_old_instance(compared, number);
            add_if(list, is_alone, subject, Remark::Alone)
        }
        Sort::NewEdge => add_new_edge(list, compared, subject),
    }
}
