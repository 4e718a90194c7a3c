//! Whether what is assumed may be true of the inputs of both programs.

ghost use Rattle.std.specs.Prelude.{◌≡◌, ◌⊎◌, IfErr, IfOk, false, true};
ghost use Rattle.cli_inputs.specs.declared.fault.ToolFault.TheVariants.{Memory, NeverTrue};
ghost use Rattle.invariant_sets.specs.Invariants.{input_numbers};
ghost use Rattle.diff_matching.specs.Names.{IsByNames};
ghost use Rattle.diff_matching.specs.Suited.{IsSuited};
ghost use Rattle.cli_assumed_both.specs.Together.{CannotBeTrue, MayBeTrue, assumption_read};

use assume_both::is_possible_together;
use causes_query::source::input_variables;
use cli_diff::ReadAssumed;
use cli_inputs::ToolFault;
use diagram_program::Program;
use diff_matching::Matching;
use invariant_cases::Assumption;
use std::alloc::{AllocError, Global};

/// The numbers of the variables that are inputs of a program, in order of declaration.
#[tactic(auto, using(crate::proofs::Inputs::numbers_of))]
fn inputs_of(alloc: Global, program: &Program) -> Result<Vec<usize>, AllocError>
    ensures { IfOk result (λ v. v.items ≡ input_numbers program.now) }
{
    input_variables(alloc, program.decls().vars())
}

/// Whether what is assumed may be true, where it is known what belongs together.
fn is_possible_by(
    alloc: Global,
    read: &ReadAssumed,
    old: &Program,
    new: &Program,
    matching: &Matching,
) -> Result<bool, AllocError>
    requires suited { IsSuited matching.now old.now new.now }
    requires names { IsByNames matching.now old.now new.now }
    ensures some { IfOk result (λ found. found ≡ true → MayBeTrue old.now new.now (assumption_read read.now)) }
    ensures none { IfOk result (λ found. found ≡ false → CannotBeTrue old.now new.now (assumption_read read.now)) }
{
    let old_inputs = inputs_of(alloc, old)?;
    let new_inputs = inputs_of(alloc, new)?;
    let of_old = Assumption {
        inputs: &old_inputs,
        expression: read.old.as_ref(),
    };
    let of_new = Assumption {
        inputs: &new_inputs,
        expression: read.new.as_ref(),
    };
    is_possible_together(alloc, old, of_old, new, of_new, matching)
}

/// Refuses what is assumed where no values of the inputs, the same for inputs of one name, make it true in both programs.
pub(crate) fn check_together(
    alloc: Global,
    read: &ReadAssumed,
    old: &Program,
    new: &Program,
) -> Result<(), ToolFault>
    ensures possible { IfOk result (λ _. MayBeTrue old.now new.now (assumption_read read.now)) }
    ensures refused { IfErr result (λ f. (f ≡ Memory) ⊎ ((f ≡ NeverTrue) × CannotBeTrue old.now new.now (assumption_read read.now))) }
{
    let Ok(matching) = Matching::by_names(alloc, old, new) else {
        return Err(ToolFault::Memory);
    };
    let found = is_possible_by(alloc, read, old, new, &matching);
    drop(matching);
    match found {
        Ok(true) => Ok(()),
        Ok(false) => Err(ToolFault::NeverTrue),
        Err(_) => Err(ToolFault::Memory),
    }
}
