//! The search for inputs of two programs that make true what is assumed of both.

ghost use Rattle.std.specs.Prelude.{◌≡◌, ◌<◌, ◌≤◌, ◌+◌, ◌^◌, Bool, IfOk, IsFalse, IsTrue, List, false, length, map, true};
ghost use Rattle.std.specs.List.{All};
ghost use Rattle.assume_both.specs.Both.{AreVariablesOf, CannotBeTrueInBoth, MayBeTrueInBoth, joint_number};
ghost use Rattle.assume_truth.specs.Truth.{is_allowed};
ghost use Rattle.diagram_declarations.specs.declared.limits.TheConstants.{MOST_VARS};
ghost use Rattle.diff_matching.specs.Suited.{IsSuited};
ghost use Rattle.invariant_cases.specs.Assuming.{assumed_of};

use assume_places::{Placed, joined};
use assume_possible::is_satisfiable;
use diagram_program::Program;
use diff_matching::{Matching, Pair};
use invariant_cases::Assumption;
use st_expression::Expression;
use std::alloc::{AllocError, Global};

/// Does nothing: its contract is how many variables a program has.
fn few_variables(program: &Program)
    ensures { length program.now.decls.vars ≤ MOST_VARS }
{
    let _vars = program.decls().vars();
}

/// The number that a variable of the new program has among the variables of both: that of the input of the old one with which it is in a pair, or
/// else one behind all of those.
fn joint_number(pairs: &[Pair], behind: usize, var: usize) -> usize
    requires { behind + var < 2 ^ 64 }
    ensures { result ≡ joint_number pairs.now behind var }
{
    for pair in pairs {
        if pair.new == var {
            return pair.old;
        }
    }
    behind + var
}

/// The numbers of the inputs of the new program.
fn joint_numbers(
    alloc: Global,
    pairs: &[Pair],
    behind: usize,
    inputs: &[usize],
) -> Result<Vec<usize>, AllocError>
    requires { All (λ var. behind + var < 2 ^ 64) inputs.now }
    ensures { IfOk result (λ v. v.items ≡ map (joint_number pairs.now behind) inputs.now) }
{
    let mut numbers = Vec::new(alloc);
    for input in inputs {
        let number = joint_number(pairs, behind, *input);
        numbers.push(number)?;
    }
    Ok(numbers)
}

/// Whether some values make an expression true; any do where there is none.
fn is_ever_true(alloc: Global, joint: Option<Expression>) -> Result<bool, AllocError>
    ensures some { IfOk result (λ found. IsTrue found → (values : List Bool) × (is_allowed joint values ≡ true)) }
    ensures none { IfOk result (λ found. IsFalse found → (values : List Bool) → is_allowed joint values ≡ false) }
{
    let Some(expression) = joint else {
        return Ok(true);
    };
    let found = is_satisfiable(alloc, &expression);
    drop(expression);
    match found {
        Ok(is_found) => Ok(is_found),
        Err(fault) => Err(fault),
    }
}

/// Whether any inputs of two programs, the same where inputs belong together, make true what is assumed of both. The inputs that the expressions
/// name are tried, as `assume_possible::is_satisfiable` tries them.
///
/// # Errors
///
/// An error when out of memory; nothing is said then.
pub fn is_possible_together(
    alloc: Global,
    old: &Program,
    old_assumed: Assumption<'_>,
    new: &Program,
    new_assumed: Assumption<'_>,
    matching: &Matching,
) -> Result<bool, AllocError>
    requires suited { IsSuited matching.now old.now new.now }
    requires old_inputs { AreVariablesOf old.now old_assumed.inputs.now }
    requires new_inputs { AreVariablesOf new.now new_assumed.inputs.now }
    ensures some { IfOk result (λ found. IsTrue found → MayBeTrueInBoth matching.entry.now (assumed_of old_assumed.entry) (assumed_of new_assumed.entry)) }
    ensures none { IfOk result (λ found. IsFalse found → CannotBeTrueInBoth matching.entry.now (assumed_of old_assumed.entry) (assumed_of new_assumed.entry)) }
{
    few_variables(old);
    few_variables(new);
    let behind = old.decls().vars().len();
    let numbers = joint_numbers(alloc, matching.inputs(), behind, new_assumed.inputs)?;
    let of_old = Placed {
        expression: old_assumed.expression,
        places: old_assumed.inputs,
    };
    let of_new = Placed {
        expression: new_assumed.expression,
        places: numbers.as_slice(),
    };
    let made = joined(alloc, of_old, of_new);
    drop(numbers);
    match made {
        Ok(joint) => is_ever_true(alloc, joint),
        Err(fault) => Err(fault),
    }
}
