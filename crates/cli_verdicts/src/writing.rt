//! What is found of two programs, written.

ghost use Rattle.std.specs.Prelude.{◌≡◌, IfErr, IfOk, true};
ghost use Rattle.invariant_sets.specs.Invariants.{input_numbers};
ghost use Rattle.diff_cases.specs.Assuming.{assumed_of_both};
ghost use Rattle.diff_matching.specs.Names.{IsByNames};
ghost use Rattle.diff_matching.specs.Runs.{HaveNoInput};
ghost use Rattle.diff_matching.specs.Suited.{IsSuited};
ghost use Rattle.diff_meaning.specs.Counting.{CountAssuming, StayFromFreshAssuming};
ghost use Rattle.diff_meaning.specs.Verdicts.{AreTrue};
ghost use Rattle.diff_meaning.specs.Witnesses.{AreWitnesses};
ghost use Rattle.diff_findings.specs.Findings.{findings as findings_list};
ghost use Rattle.cli_verdicts.specs.Ending.{AreCountedAssuming, FailsToWrite, WritesJudged, WritesKept, assumed_where, assumption_of, counts_by, expressions_in};

use crate::assuming::{AssumedOfBoth, InputsOfBoth, assumptions, inputs_of_both};
use crate::counting::counted_of;
use cli_inputs::ToolFault;
use cli_questions::ListCounts;
use diagram_program::Program;
use diff_findings::{Compared, Finding, are_equivalent, count_verdicts, findings};
use diff_matching::Matching;
use diff_meaning::laws::true_of_all;
use diff_meaning::{Counted, Verdicts, Witness};
use diff_verdicts::{Judge, Judgement, judge_all};
use io_text::Sink;
use scan_cycle::Memory;
use std::alloc::Global;
use text_findings::write_findings;

/// How two programs are judged.
#[derive(Clone, Copy)]
pub(crate) struct Wanted<'a> {
    /// How many looks a verdict takes at most.
    pub looks: u32,
    /// Whether only states count in which it is so what stays so.
    pub reachable: bool,
    /// Whether states that show differences are kept.
    pub keeps: bool,
    /// What is assumed of the inputs, where something is.
    pub assumed: Option<AssumedOfBoth<'a>>,
}

/// What is kept of two programs that were judged.
#[derive(Drop)]
pub struct Kept {
    /// What belongs together in them.
    pub matching: Matching,
    /// The states that show each difference, where they are kept.
    pub witnesses: Vec<Witness>,
}

/// What was written, and the states that show it.
#[derive(Drop)]
pub(crate) struct Told {
    pub counts: ListCounts,
    pub witnesses: Vec<Witness>,
}

/// The same, and what belongs together.
#[derive(Drop)]
pub(crate) struct Written {
    pub counts: ListCounts,
    pub kept: Kept,
}

/// The verdicts on all that belongs together, and the states that show the differences.
fn judged(
    alloc: Global,
    wanted: Wanted<'_>,
    old: &Program,
    new: &Program,
    matching: &Matching,
    counted: &Counted<'_>,
) -> Result<Judgement, Memory>
    requires suited { IsSuited matching.now old.now new.now }
    requires counted { AreCountedAssuming (assumed_where (assumption_of wanted.assumed) old.now new.now) wanted.reachable old.now new.now counted.now }
    ensures verdicts { IfOk result (λ j. AreTrue (CountAssuming counted.now) matching.now old.now new.now j.verdicts) }
    ensures kept { wanted.entry.keeps ≡ true → IfOk result (λ j. AreWitnesses (CountAssuming counted.now) matching.now old.now new.now j.verdicts j.witnesses.items) }
{
    let mut judge = match Judge::new(alloc, old, new, matching, counted) {
        Ok(judge) => judge,
        Err(_) => return Err(Memory),
    };
    judge_all(alloc, &mut judge, wanted.looks, wanted.keeps)
}

/// What is counted of findings, and how many expressions are assumed, where any are.
pub fn verdict_counts(expressions: u64, list: &[Finding], is_equivalent: bool) -> ListCounts
    ensures { result ≡ counts_by expressions list.now is_equivalent }
{
    let tally = count_verdicts(list);
    let same = tally.same as u64;
    let differs = tally.differs as u64;
    let unsettled = tally.unsettled as u64;
    match expressions {
        0 => ListCounts::Verdicts {
            same,
            differs,
            unsettled,
            is_equivalent,
        },
        assumed => ListCounts::AssumedVerdicts {
            same,
            differs,
            unsettled,
            is_equivalent,
            assumed,
        },
    }
}

/// The same of what is assumed, where something is.
fn counts_of(
    assumed: Option<AssumedOfBoth<'_>>,
    list: &[Finding],
    is_equivalent: bool,
) -> ListCounts
    ensures { result ≡ counts_by (expressions_in (assumption_of assumed.entry)) list.now is_equivalent }
{
    match assumed {
        None => verdict_counts(0, list, is_equivalent),
        Some(assumed) => verdict_counts(assumed.expressions, list, is_equivalent),
    }
}

/// Writes findings, and counts them.
fn write_list<O: Sink>(
    alloc: Global,
    compared: Compared<'_>,
    assumed: Option<AssumedOfBoth<'_>>,
    list: &[Finding],
    out: &mut O,
) -> Result<ListCounts, ToolFault>
    requires no_input { HaveNoInput compared.matching.now compared.old.now compared.new.now }
    requires judged { AreTrue (CountAssuming compared.counted.now) compared.matching.now compared.old.now compared.new.now compared.verdicts.now }
    requires stays { StayFromFreshAssuming (assumed_of_both compared.counted.now.assumed) compared.counted.now.states compared.old.now compared.new.now }
    requires assumed { assumed_of_both compared.counted.now.assumed ≡ assumed_where (assumption_of assumed) compared.old.now compared.new.now }
    requires list { list.now ≡ findings_list compared.old.now compared.new.now compared.matching.now compared.verdicts.now }
    ensures { WritesJudged (assumption_of assumed.entry) compared.entry.old.now compared.entry.new.now compared.entry.matching.now compared.entry.verdicts.now (O.log out.old) (O.log out.new) result }
{
    let Ok(is_equivalent) = are_equivalent(alloc, compared, list) else {
        return Err(ToolFault::Memory);
    };
    match write_findings(compared.old, compared.new, list, out) {
        Ok(()) => Ok(counts_of(assumed, list, is_equivalent)),
        Err(_) => Err(ToolFault::Write),
    }
}

/// Writes what is found of two programs, by verdicts that are true.
fn write_judged<O: Sink>(
    alloc: Global,
    compared: Compared<'_>,
    assumed: Option<AssumedOfBoth<'_>>,
    out: &mut O,
) -> Result<ListCounts, ToolFault>
    requires no_input { HaveNoInput compared.matching.now compared.old.now compared.new.now }
    requires judged { AreTrue (CountAssuming compared.counted.now) compared.matching.now compared.old.now compared.new.now compared.verdicts.now }
    requires stays { StayFromFreshAssuming (assumed_of_both compared.counted.now.assumed) compared.counted.now.states compared.old.now compared.new.now }
    requires assumed { assumed_of_both compared.counted.now.assumed ≡ assumed_where (assumption_of assumed) compared.old.now compared.new.now }
    ensures { WritesJudged (assumption_of assumed.entry) compared.entry.old.now compared.entry.new.now compared.entry.matching.now compared.entry.verdicts.now (O.log out.old) (O.log out.new) result }
{
    let list = match findings(alloc, compared) {
        Ok(list) => list,
        Err(_) => return Err(ToolFault::Memory),
    };
    let written = write_list(alloc, compared, assumed, &list, out);
    drop(list);
    written
}

/// The same, once it is known which states count.
fn write_counted<O: Sink>(
    alloc: Global,
    wanted: Wanted<'_>,
    old: &Program,
    new: &Program,
    matching: &Matching,
    counted: &Counted<'_>,
    out: &mut O,
) -> Result<Told, ToolFault>
    requires names { IsByNames matching.now old.now new.now }
    requires suited { IsSuited matching.now old.now new.now }
    requires no_input { HaveNoInput matching.now old.now new.now }
    requires counted { AreCountedAssuming (assumed_where (assumption_of wanted.assumed) old.now new.now) wanted.reachable old.now new.now counted.now }
    ensures done { IfOk result (λ t. WritesKept wanted.entry old.now new.now matching.now (O.log out.old) (O.log out.new) t.witnesses.items t.counts) }
    ensures failed { IfErr result (FailsToWrite (assumption_of wanted.entry.assumed) wanted.entry.reachable old.now new.now (O.log out.old) (O.log out.new)) }
{
    let Judgement {
        verdicts,
        witnesses,
    } = match judged(alloc, wanted, old, new, matching, counted) {
        Ok(judgement) => judgement,
        Err(_) => return Err(ToolFault::Memory),
    };
    let compared = Compared {
        old,
        new,
        matching,
        counted,
        verdicts: &verdicts,
    };
    let written = write_judged(alloc, compared, wanted.assumed, out);
    drop(verdicts);
    true_of_all(old, new);
    match written {
        Ok(counts) => Ok(Told { counts, witnesses }),
        Err(fault) => {
            drop(witnesses);
            Err(fault)
        }
    }
}

/// The same, once it is known which inputs there are.
fn write_assumed<O: Sink>(
    alloc: Global,
    wanted: Wanted<'_>,
    inputs: &InputsOfBoth,
    old: &Program,
    new: &Program,
    matching: &Matching,
    out: &mut O,
) -> Result<Told, ToolFault>
    requires old_inputs { inputs.now.old.items ≡ input_numbers old.now }
    requires new_inputs { inputs.now.new.items ≡ input_numbers new.now }
    requires names { IsByNames matching.now old.now new.now }
    requires suited { IsSuited matching.now old.now new.now }
    requires no_input { HaveNoInput matching.now old.now new.now }
    ensures done { IfOk result (λ t. WritesKept wanted.entry old.now new.now matching.now (O.log out.old) (O.log out.new) t.witnesses.items t.counts) }
    ensures failed { IfErr result (FailsToWrite (assumption_of wanted.entry.assumed) wanted.entry.reachable old.now new.now (O.log out.old) (O.log out.new)) }
{
    let assumed = assumptions(wanted.assumed, inputs, old, new);
    let counted = match counted_of(alloc, wanted.reachable, assumed, old, new) {
        Ok(counted) => counted,
        Err(_) => return Err(ToolFault::Memory),
    };
    let told = write_counted(alloc, wanted, old, new, matching, &counted, out);
    drop(counted);
    told
}

/// The same, once it is known what belongs together.
fn write_matched<O: Sink>(
    alloc: Global,
    wanted: Wanted<'_>,
    old: &Program,
    new: &Program,
    matching: &Matching,
    out: &mut O,
) -> Result<Told, ToolFault>
    requires names { IsByNames matching.now old.now new.now }
    requires suited { IsSuited matching.now old.now new.now }
    requires no_input { HaveNoInput matching.now old.now new.now }
    ensures done { IfOk result (λ t. WritesKept wanted.entry old.now new.now matching.now (O.log out.old) (O.log out.new) t.witnesses.items t.counts) }
    ensures failed { IfErr result (FailsToWrite (assumption_of wanted.entry.assumed) wanted.entry.reachable old.now new.now (O.log out.old) (O.log out.new)) }
{
    let inputs = match inputs_of_both(alloc, old, new) {
        Ok(inputs) => inputs,
        Err(_) => return Err(ToolFault::Memory),
    };
    let told = write_assumed(alloc, wanted, &inputs, old, new, matching, out);
    drop(inputs);
    told
}

/// Judges two programs by what belongs together in them by names, and writes what is found.
///
/// # Errors
///
/// `Memory`, and then nothing was written; `Write` where the writer failed, and then a prefix of the text was.
pub(crate) fn write_verdicts<O: Sink>(
    alloc: Global,
    wanted: Wanted<'_>,
    old: &Program,
    new: &Program,
    out: &mut O,
) -> Result<Written, ToolFault>
    ensures done { IfOk result (λ w. WritesKept wanted.entry old.now new.now w.kept.matching (O.log out.old) (O.log out.new) w.kept.witnesses.items w.counts) }
    ensures failed { IfErr result (FailsToWrite (assumption_of wanted.entry.assumed) wanted.entry.reachable old.now new.now (O.log out.old) (O.log out.new)) }
{
    let matching = match Matching::by_names(alloc, old, new) {
        Ok(matching) => matching,
        Err(_) => return Err(ToolFault::Memory),
    };
    match write_matched(alloc, wanted, old, new, &matching, out) {
        Ok(told) => Ok(Written {
            counts: told.counts,
            kept: Kept {
                matching,
                witnesses: told.witnesses,
            },
        }),
        Err(fault) => {
            drop(matching);
            Err(fault)
        }
    }
}
