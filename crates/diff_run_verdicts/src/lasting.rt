//! What two programs leave alike for ever. No search is needed for it.

ghost use Rattle.std.specs.Prelude.{IfOk, IfSome, IsTrue};
ghost use Rattle.std.specs.List.{All};
ghost use Rattle.diff_matching.specs.Suited.{IsSuited};
ghost use Rattle.diff_meaning.specs.Counting.{AreOfPrograms};
ghost use Rattle.diff_run_verdicts.specs.Lasting.{IsOneOf, StayAlike};

use diagram_program::Program;
use diff_beside::{is_part, is_suited};
use diff_matching::{Matching, Pair};
use diff_meaning::{Counted, CountedStates, Verdict, Verdicts};
use diff_verdicts::{Judge, Judgement, judge_all};
use scan_cycle::Memory;
use std::alloc::{AllocError, Global};

/// How many looks a proof takes at most that one scan of each program leaves something alike.
const LOOKS: u32 = 10_000;

/// How often what isn't left alike is left out at most.
const ROUNDS: usize = 64;

/// Whether two variables begin with the same value.
fn begin_alike(old: &Program, new: &Program, pair: Pair) -> bool {
    match (
        old.decls().vars().get(pair.old),
        new.decls().vars().get(pair.new),
    ) {
        (Some(of_old), Some(of_new)) => of_old.initial == of_new.initial,
        _ => false,
    }
}

/// The pairs of variables that begin with the same value.
fn beginning_alike(
    alloc: Global,
    old: &Program,
    new: &Program,
    pairs: &[Pair],
) -> Result<Vec<Pair>, AllocError> {
    let mut kept: Vec<Pair> = Vec::new(alloc);
    for pair in pairs {
        if begin_alike(old, new, *pair) {
            kept.push(*pair)?;
        }
    }
    Ok(kept)
}

/// All of some pairs.
fn all_of(alloc: Global, pairs: &[Pair]) -> Result<Vec<Pair>, AllocError> {
    let mut kept: Vec<Pair> = Vec::new(alloc);
    for pair in pairs {
        kept.push(*pair)?;
    }
    Ok(kept)
}

/// The pairs that were judged to be left alike.
fn left_alike(
    alloc: Global,
    pairs: &[Pair],
    verdicts: &[Verdict],
) -> Result<Vec<Pair>, AllocError> {
    let mut kept: Vec<Pair> = Vec::new(alloc);
    for number in 0..pairs.len() {
        if verdicts.get(number) == Some(&Verdict::Same) {
            kept.push(pairs[number])?;
        }
    }
    Ok(kept)
}

/// What may be left alike: all that begins alike.
fn first_of(
    alloc: Global,
    old: &Program,
    new: &Program,
    matching: &Matching,
) -> Result<Matching, AllocError> {
    Ok(Matching::of_pairs(
        all_of(alloc, matching.inputs())?,
        beginning_alike(alloc, old, new, matching.variables())?,
        all_of(alloc, matching.instances())?,
        all_of(alloc, matching.memories())?,
    ))
}

/// What was judged to be left alike.
fn kept_of(
    alloc: Global,
    candidate: &Matching,
    verdicts: &Verdicts,
) -> Result<Matching, AllocError> {
    Ok(Matching::of_pairs(
        all_of(alloc, candidate.inputs())?,
        left_alike(alloc, candidate.variables(), &verdicts.variables)?,
        left_alike(alloc, candidate.instances(), &verdicts.instances)?,
        left_alike(alloc, candidate.memories(), &verdicts.memories)?,
    ))
}

/// What is judged of what one scan of each program leaves, from the states that count.
fn judgement_of(
    alloc: Global,
    old: &Program,
    new: &Program,
    candidate: &Matching,
    counted: &Counted<'_>,
) -> Result<Judgement, Memory>
    requires suited { IsSuited candidate.now old.now new.now }
    requires counted { AreOfPrograms counted.now.states old.now new.now }
{
    let mut judge = Judge::new(alloc, old, new, candidate, counted)?;
    let judgement = judge_all(alloc, &mut judge, LOOKS, false);
    drop(judge);
    judgement
}

/// The verdicts on what one scan of each program leaves, from all states that agree on what may be left alike.
fn judged(
    alloc: Global,
    old: &Program,
    new: &Program,
    candidate: &Matching,
) -> Result<Verdicts, Memory>
    requires { IsSuited candidate.now old.now new.now }
{
    let counted = Counted::of(CountedStates::All);
    let judged = judgement_of(alloc, old, new, candidate, &counted);
    drop(counted);
    match judged {
        Ok(judgement) => {
            let Judgement {
                verdicts,
                witnesses,
            } = judgement;
            drop(witnesses);
            Ok(verdicts)
        }
        Err(fault) => Err(fault),
    }
}

/// What is left of it where all is left out that one scan of each program doesn't leave alike.
fn narrowed(
    alloc: Global,
    old: &Program,
    new: &Program,
    candidate: &Matching,
) -> Result<Option<Matching>, Memory> {
    if !is_suited(candidate, old, new) {
        return Ok(None);
    }
    let verdicts = judged(alloc, old, new, candidate)?;
    let kept = kept_of(alloc, candidate, &verdicts);
    drop(verdicts);
    Ok(Some(kept?))
}

/// How many pairs there are.
fn count(matching: &Matching) -> usize {
    matching
        .variables()
        .len()
        .saturating_add(matching.instances().len())
        .saturating_add(matching.memories().len())
}

/// What is left where nothing more is to be left out.
fn settled(
    alloc: Global,
    old: &Program,
    new: &Program,
    matching: &Matching,
) -> Result<Matching, Memory> {
    let mut candidate = first_of(alloc, old, new, matching)?;
    for _ in 0..ROUNDS {
        let Some(kept) = narrowed(alloc, old, new, &candidate)? else {
            return Ok(candidate);
        };
        let is_settled = count(&kept) == count(&candidate);
        candidate = kept;
        if is_settled {
            return Ok(candidate);
        }
    }
    Ok(candidate)
}

/// Whether a pair is one of these.
fn is_among(pair: Pair, pairs: &[Pair]) -> bool
    ensures { IsTrue result → IsOneOf pairs.now pair }
{
    pairs.contains(&pair)
}

/// Whether each of some pairs is one of these.
fn are_among(some: &[Pair], pairs: &[Pair]) -> bool
    ensures { IsTrue result → All (IsOneOf pairs.now) some.now }
{
    for pair in some {
        if !is_among(*pair, pairs) {
            return false;
        }
    }
    true
}

/// Whether each pair of inputs is one of the matching.
fn have_its_inputs(alike: &Matching, matching: &Matching) -> bool
    ensures { IsTrue result → All (IsOneOf matching.now.inputs) alike.now.inputs }
{
    are_among(alike.inputs(), matching.inputs())
}

/// Whether what is in these pairs stays alike for ever.
fn stay_alike(
    alloc: Global,
    old: &Program,
    new: &Program,
    matching: &Matching,
    alike: &Matching,
) -> Result<bool, Memory>
    ensures { IfOk result (λ so. IsTrue so → StayAlike alike.now matching.now old.now new.now) }
{
    if have_its_inputs(alike, matching) {
        return is_part(alloc, alike, old, new, LOOKS);
    }
    Ok(false)
}

/// What two programs leave alike after each scan of all runs from their fresh states, as far as one scan of each tells it. `None` where it tells of
/// nothing.
///
/// # Errors
///
/// `Memory` when out of memory.
pub(crate) fn lasting(
    alloc: Global,
    old: &Program,
    new: &Program,
    matching: &Matching,
) -> Result<Option<Matching>, Memory>
    ensures { IfOk result (λ found. IfSome found (λ alike. StayAlike alike matching.now old.now new.now)) }
{
    let alike = settled(alloc, old, new, matching)?;
    match stay_alike(alloc, old, new, matching, &alike) {
        Ok(true) => Ok(Some(alike)),
        Ok(false) => {
            drop(alike);
            Ok(None)
        }
        Err(fault) => {
            drop(alike);
            Err(fault)
        }
    }
}
