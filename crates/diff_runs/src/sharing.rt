//! The inputs of two programs that stand side by side in one: whether they are paired as they are to be.

ghost use Rattle.std.specs.Prelude.{◌≡◌, ◌≢◌, ℕ, IsTrue, Some, true, Contains, map, slice_get};
ghost use Rattle.std.specs.List.{All, AllPairs};
ghost use Rattle.diagram_declarations.specs.Decls.{is_input};
ghost use Rattle.diff_matching.specs.declared.matching.Pair.{Pair};
ghost use Rattle.diff_matching.specs.Suited.{AreBoth, AreOnce};
ghost use Rattle.diff_runs.specs.Beside.{ArePairsOfInputs, ShareInputs};

use diagram_program::Program;
use diff_matching::Pair;

/// Whether a number is of an input of a program.
fn is_input_of(program: &Program, var: usize) -> bool
    ensures { IsTrue result → slice_get (map is_input program.now.decls.vars) var ≡ Some true }
{
    match program.decls().vars().get(var) {
        Some(var) => var.is_input(),
        None => false,
    }
}

/// Whether pairs are of inputs of both programs.
fn are_inputs(pairs: &[Pair], part: &Program, both: &Program) -> bool
    ensures { IsTrue result → All (AreBoth true part.now both.now) pairs.now }
{
    pairs.iter().all(|pair| is_input_of(part, pair.old) && is_input_of(both, pair.new))
}

/// Whether neither number of a pair is in another one.
fn is_alone(pair: Pair, others: &[Pair]) -> bool
    ensures { IsTrue result → All (λ x. (x.old ≢ pair.old) × (x.new ≢ pair.new)) others.now }
{
    others
        .iter()
        .all(|other| other.old != pair.old && other.new != pair.new)
}

/// Whether no number is in two pairs.
fn are_once(pairs: &[Pair]) -> bool
    ensures { IsTrue result → AllPairs (λ x y. (x.old ≢ y.old) × (x.new ≢ y.new)) pairs.now }
{
    for number in 0..pairs.len() {
        if !is_alone(pairs[number], &pairs[..number]) {
            return false;
        }
    }
    true
}

/// Whether pairs are of inputs of both programs, and no input is in two of them.
pub fn are_pairs_of_inputs(pairs: &[Pair], part: &Program, both: &Program) -> bool
    ensures { IsTrue result → ArePairsOfInputs part.now both.now pairs.now }
{
    are_inputs(pairs, part, both) && are_once(pairs)
}

/// Whether an input that is with one of these is in a pair with it.
fn is_shared(pairs: &[Pair], old: Pair, of_new: &[Pair]) -> bool
    ensures { IsTrue result → All (λ y. old.new ≡ y.new → Contains pairs.now (record { old = old.old; new = y.old })) of_new.now }
{
    of_new.iter().all(|new| {
        old.new != new.new
            || pairs.contains(&Pair {
                old: old.old,
                new: new.old,
            })
    })
}

/// Whether both of a pair are with the same input.
fn is_together(pair: Pair, of_old: &[Pair], of_new: &[Pair]) -> bool
    ensures { IsTrue result
        → (i : ℕ) × Contains of_old.now (record { old = pair.old; new = i }) × Contains of_new.now (record { old = pair.new; new = i }) }
{
    of_old.iter().any(|old| {
        old.old == pair.old
            && of_new.contains(&Pair {
                old: pair.new,
                new: old.new,
            })
    })
}

/// Whether inputs of two programs are in a pair just where both are with the same input of a third one.
pub(crate) fn share_inputs(pairs: &[Pair], of_old: &[Pair], of_new: &[Pair]) -> bool
    ensures { IsTrue result → ShareInputs pairs.now of_old.now of_new.now }
{
    of_old.iter().all(|old| is_shared(pairs, *old, of_new))
        && pairs.iter().all(|pair| is_together(*pair, of_old, of_new))
}
