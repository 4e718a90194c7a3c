//! Whether a program stands in another one.

ghost use Rattle.std.specs.Prelude.{IfOk, IsTrue};
ghost use Rattle.scan_cycle.specs.Standing.{fresh};
ghost use Rattle.diff_matching.specs.Matching.{Agree};
ghost use Rattle.diff_matching.specs.Runs.{HaveNoInput};
ghost use Rattle.diff_matching.specs.Suited.{IsSuited};
ghost use Rattle.diff_meaning.specs.Counting.{AreOfPrograms, CountAssuming};
ghost use Rattle.diff_meaning.specs.Verdicts.{AreTrue};
ghost use Rattle.diff_runs.specs.Beside.{AgreeFromFresh, IsPart};

use crate::suiting::is_suited;
use diagram_program::Program;
use diff_matching::{Matching, agree_but_inputs};
use diff_meaning::laws::{fresh_runs_agree, true_of_all};
use diff_meaning::{Counted, CountedStates, are_all_same};
use diff_runs::are_pairs_of_inputs;
use diff_verdicts::{Judge, Judgement, judge_all};
use scan_cycle::{Memory, State};
use std::alloc::Global;

/// Whether the fresh states of two programs agree on what belongs together.
fn start_alike(
    alloc: Global,
    matching: &Matching,
    part: &Program,
    whole: &Program,
) -> Result<bool, Memory>
    ensures { IfOk result (λ b. IsTrue b → Agree matching.now (fresh part.now).held (fresh whole.now).held) }
{
    let of_part = State::fresh(alloc, part)?;
    let of_whole = State::fresh(alloc, whole)?;
    Ok(agree_but_inputs(matching, &of_part, &of_whole))
}

/// The verdicts on what belongs together, over all states that agree where all count.
fn judged(
    alloc: Global,
    matching: &Matching,
    part: &Program,
    whole: &Program,
    counted: &Counted<'_>,
    looks: u32,
) -> Result<Judgement, Memory>
    requires suited { IsSuited matching.now part.now whole.now }
    requires counted { AreOfPrograms counted.now.states part.now whole.now }
    ensures { IfOk result (λ j. AreTrue (CountAssuming counted.now) matching.now part.now whole.now j.verdicts) }
{
    let mut judge = Judge::new(alloc, part, whole, matching, counted)?;
    let judgement = judge_all(alloc, &mut judge, looks, false);
    drop(judge);
    judgement
}

/// Whether one scan of each of two programs leaves all alike that belongs together, from all states that agree. Then all runs do, from the fresh
/// states on, where those agree.
fn stay_alike(
    alloc: Global,
    matching: &Matching,
    part: &Program,
    whole: &Program,
    looks: u32,
) -> Result<bool, Memory>
    requires suited { IsSuited matching.now part.now whole.now }
    requires no_input { HaveNoInput matching.now part.now whole.now }
    requires start { Agree matching.now (fresh part.now).held (fresh whole.now).held }
    ensures { IfOk result (λ b. IsTrue b → AgreeFromFresh matching.now part.now whole.now) }
{
    let counted = Counted::of(CountedStates::All);
    let judgement = judged(alloc, matching, part, whole, &counted, looks)?;
    fresh_runs_agree(part, whole);
    true_of_all(part, whole);
    Ok(are_all_same(&judgement.verdicts))
}

/// Whether a program stands in another one: what belongs together in them is alike after each scan of any runs from the fresh states on, and their
/// inputs are in pairs. Each verdict is looked for by at most so many looks; where one isn't settled, the answer is no.
///
/// # Errors
///
/// `Memory` when out of memory.
pub fn is_part(
    alloc: Global,
    matching: &Matching,
    part: &Program,
    whole: &Program,
    looks: u32,
) -> Result<bool, Memory>
    ensures { IfOk result (λ b. IsTrue b → IsPart matching.now part.now whole.now) }
{
    if !is_suited(matching, part, whole) {
        return Ok(false);
    }
    if !are_pairs_of_inputs(matching.inputs(), part, whole) {
        return Ok(false);
    }
    if !start_alike(alloc, matching, part, whole)? {
        return Ok(false);
    }
    stay_alike(alloc, matching, part, whole, looks)
}
