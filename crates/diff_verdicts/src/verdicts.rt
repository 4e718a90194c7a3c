//! The verdicts on all that belongs together in two programs.

ghost use Rattle.std.specs.Prelude.{◌≡◌, Bool, [], IfOk, OnOk, Some, false, slice_get, true};
ghost use Rattle.diff_cases.specs.Alike.{LeavesAlike};
ghost use Rattle.diff_matching.specs.Suited.{IsSuited};
ghost use Rattle.diff_meaning.specs.Counting.{CountAssuming};
ghost use Rattle.diff_meaning.specs.Verdicts.{AreTrue, AreTrueOf, CanBeJudged, IsTrueOf, Shows, pairs_of, target_of};
ghost use Rattle.diff_meaning.specs.Witnesses.{AreWitnesses, told, told_by, told_of};
ghost use Rattle.diff_meaning.specs.declared.verdict.Verdict.TheVariants.{Differs};
ghost use Rattle.diff_rungs.specs.Common.{AreLeftAlike};
ghost use Rattle.diff_verdicts.specs.Judging.{JudgesTheSame};
ghost use Rattle.diff_verdicts.specs.Keeping.{AreEmpty, AreInCommon, AreKept};

use crate::judging::Judge;
use crate::sorts::{pairs_of, target_of};
use diff_cases::Target;
use diff_meaning::{PairSort, Verdict, Verdicts, Witness};
use diff_rungs::InCommon;
use scan_cycle::Memory;
use std::alloc::Global;

/// What is found of two programs: the verdicts on all that belongs together, and, where they are kept, the states that show each difference.
#[derive(Drop)]
pub struct Judgement {
    pub verdicts: Verdicts,
    pub witnesses: Vec<Witness>,
}

/// How many looks are made for a proof, and as many for a difference, and whether the states that show one are kept.
#[derive(Clone, Copy)]
pub(crate) struct Effort {
    looks: u32,
    keeps: bool,
}

/// The verdict on a target, of which rungs in common may have told that it is left alike.
fn verdict_on(judge: &mut Judge<'_>, target: Target, is_alike: bool, looks: u32) -> Verdict
    requires target { CanBeJudged judge.old.matching target }
    requires alike { is_alike ≡ true → LeavesAlike judge.old.matching judge.old.old_program judge.old.new_program target }
    ensures truth { IsTrueOf (CountAssuming judge.old.counted) judge.old.matching judge.old.old_program judge.old.new_program target result }
    ensures shown { (a b : Bool) → result ≡ Differs a b
        → Shows (CountAssuming judge.old.counted) judge.old.matching judge.old.old_program judge.old.new_program target judge.new.old_state judge.new.new_state a b }
    ensures same { JudgesTheSame judge.old judge.new }
{
    if is_alike {
        return Verdict::Same;
    }
    judge.judge(target, looks)
}

/// Whether a pair is marked, by its place.
fn is_marked(marks: &[bool], place: usize) -> bool
    ensures { result ≡ true → slice_get marks.now place ≡ Some true }
{
    match marks.get(place) {
        Some(mark) => *mark,
        None => false,
    }
}

/// Keeps the states of the last verdict, where it is that something differs.
fn keep(
    alloc: Global,
    judge: &Judge<'_>,
    target: Target,
    verdict: Verdict,
    witnesses: &mut Vec<Witness>,
) -> Result<(), Memory>
    requires { (a b : Bool) → verdict ≡ Differs a b
        → Shows (CountAssuming judge.now.counted) judge.now.matching judge.now.old_program judge.now.new_program target judge.now.old_state judge.now.new_state a b }
    ensures { OnOk result (AreKept judge.entry.now.counted judge.entry.now.matching judge.entry.now.old_program judge.entry.now.new_program true (told_by target verdict)
        witnesses.old.items witnesses.new.items) }
{
    match verdict {
        Verdict::Differs { old, new } => {
            let witness = judge.copied(alloc, target, old, new)?;
            witnesses.push(witness)?;
            Ok(())
        }
        Verdict::Same | Verdict::Unsettled => Ok(()),
    }
}

/// The verdict on a target, and its witness, where it is kept.
fn judge_pair(
    alloc: Global,
    judge: &mut Judge<'_>,
    target: Target,
    is_alike: bool,
    effort: Effort,
    witnesses: &mut Vec<Witness>,
) -> Result<Verdict, Memory>
    requires target { CanBeJudged judge.old.matching target }
    requires alike { is_alike ≡ true → LeavesAlike judge.old.matching judge.old.old_program judge.old.new_program target }
    ensures truth { IfOk result (IsTrueOf (CountAssuming judge.old.counted) judge.old.matching judge.old.old_program judge.old.new_program target) }
    ensures kept { IfOk result (λ v. AreKept judge.old.counted judge.old.matching judge.old.old_program judge.old.new_program effort.keeps (told_by target v)
        witnesses.old.items witnesses.new.items) }
    ensures same { JudgesTheSame judge.old judge.new }
{
    let verdict = verdict_on(judge, target, is_alike, effort.looks);
    if effort.keeps {
        keep(alloc, judge, target, verdict, witnesses)?;
    }
    Ok(verdict)
}

/// Adds the verdicts on what the pairs of a sort name, and their witnesses, where they are kept; what is marked is left alike.
fn judge_sort(
    alloc: Global,
    judge: &mut Judge<'_>,
    sort: PairSort,
    alike: &[bool],
    effort: Effort,
    verdicts: &mut Vec<Verdict>,
    witnesses: &mut Vec<Witness>,
) -> Result<(), Memory>
    requires alike { AreLeftAlike (target_of sort) (pairs_of sort judge.old.matching) alike.now judge.old.matching judge.old.old_program judge.old.new_program }
    requires none { verdicts.old.items ≡ [] }
    ensures truth { OnOk result (AreTrueOf (CountAssuming judge.old.counted) judge.old.matching judge.old.old_program judge.old.new_program sort verdicts.new.items) }
    ensures kept { OnOk result (AreKept judge.old.counted judge.old.matching judge.old.old_program judge.old.new_program effort.keeps
        (told_of sort (pairs_of sort judge.old.matching) verdicts.new.items) witnesses.old.items witnesses.new.items) }
    ensures same { JudgesTheSame judge.old judge.new }
{
    let pairs = pairs_of(sort, judge.matching());
    for number in 0..pairs.len() {
        let target = target_of(sort, pairs[number]);
        let is_alike = is_marked(alike, number);
        let verdict = judge_pair(alloc, judge, target, is_alike, effort, witnesses)?;
        verdicts.push(verdict)?;
    }
    Ok(())
}

/// Adds the verdicts on all that belongs together, of which rungs in common leave some alike.
fn judge_sorts(
    alloc: Global,
    judge: &mut Judge<'_>,
    alike: &InCommon,
    effort: Effort,
    judgement: &mut Judgement,
) -> Result<(), Memory>
    requires alike { AreInCommon judge.old.matching judge.old.old_program judge.old.new_program alike.now }
    requires empty { AreEmpty judgement.old.verdicts }
    ensures truth { OnOk result (AreTrue (CountAssuming judge.old.counted) judge.old.matching judge.old.old_program judge.old.new_program judgement.new.verdicts) }
    ensures kept { OnOk result (AreKept judge.old.counted judge.old.matching judge.old.old_program judge.old.new_program effort.keeps
        (told judge.old.matching judgement.new.verdicts) judgement.old.witnesses.items judgement.new.witnesses.items) }
    ensures same { JudgesTheSame judge.old judge.new }
{
    let verdicts = &mut judgement.verdicts;
    let kept = &mut judgement.witnesses;
    judge_sort(
        alloc,
        judge,
        PairSort::Variables,
        &alike.variables,
        effort,
        &mut verdicts.variables,
        kept,
    )?;
    judge_sort(
        alloc,
        judge,
        PairSort::Instances,
        &alike.instances,
        effort,
        &mut verdicts.instances,
        kept,
    )?;
    judge_sort(
        alloc,
        judge,
        PairSort::Memories,
        &alike.memories,
        effort,
        &mut verdicts.memories,
        kept,
    )
}

/// Nothing that is found.
fn none_found(alloc: Global) -> Judgement
    ensures verdicts { AreEmpty result.verdicts }
    ensures witnesses { result.witnesses.items ≡ [] }
{
    Judgement {
        verdicts: Verdicts {
            variables: Vec::new(alloc),
            instances: Vec::new(alloc),
            memories: Vec::new(alloc),
        },
        witnesses: Vec::new(alloc),
    }
}

/// Adds the verdicts on all that belongs together.
fn judge_into(
    alloc: Global,
    judge: &mut Judge<'_>,
    effort: Effort,
    judgement: &mut Judgement,
) -> Result<(), Memory>
    requires suited { IsSuited judge.old.matching judge.old.old_program judge.old.new_program }
    requires empty { AreEmpty judgement.old.verdicts }
    ensures truth { OnOk result (AreTrue (CountAssuming judge.old.counted) judge.old.matching judge.old.old_program judge.old.new_program judgement.new.verdicts) }
    ensures kept { OnOk result (AreKept judge.old.counted judge.old.matching judge.old.old_program judge.old.new_program effort.keeps
        (told judge.old.matching judgement.new.verdicts) judgement.old.witnesses.items judgement.new.witnesses.items) }
    ensures same { JudgesTheSame judge.old judge.new }
{
    let alike = judge.in_common(alloc)?;
    let judged = judge_sorts(alloc, judge, &alike, effort, judgement);
    drop(alike);
    judged
}

/// The verdicts on all that belongs together: what rungs in common leave alike is the same without a search, the rest is judged by at most
/// so many looks for a proof and as many for a difference. Where it `keeps` witnesses, there is one of each difference, in the order of the verdicts:
/// of variables, then of instances, then of memories.
///
/// # Errors
///
/// `Memory` when out of memory.
pub fn judge_all(
    alloc: Global,
    judge: &mut Judge<'_>,
    looks: u32,
    keeps: bool,
) -> Result<Judgement, Memory>
    requires { IsSuited judge.old.matching judge.old.old_program judge.old.new_program }
    ensures verdicts { IfOk result (λ j. AreTrue (CountAssuming judge.old.counted) judge.old.matching judge.old.old_program judge.old.new_program j.verdicts) }
    ensures witnesses { IfOk result (λ j. keeps ≡ true
        → AreWitnesses (CountAssuming judge.old.counted) judge.old.matching judge.old.old_program judge.old.new_program j.verdicts j.witnesses.items) }
    ensures none { IfOk result (λ j. keeps ≡ false → j.witnesses.items ≡ []) }
    ensures same { JudgesTheSame judge.old judge.new }
{
    let mut judgement = none_found(alloc);
    match judge_into(alloc, judge, Effort { looks, keeps }, &mut judgement) {
        Ok(()) => Ok(judgement),
        Err(fault) => Err(fault),
    }
}
