//! Whether a drawing keeps one value of each INT.

ghost use Rattle.std.specs.Prelude.{◌≡◌, IfOk, IsTrue, length, map};
ghost use Rattle.st_program.specs.Symbols.{integer_values};
ghost use Rattle.draw_check.specs.Meaning.{IsDrawingOf};
ghost use Rattle.draw_program.specs.Drawn.{KeepsIntegers};
ghost use Rattle.draw_program.specs.Integers.{AreNoInputs, IsNoInput};

use diagram_declarations::Var;
use diagram_program::Program;
use st_integers::{IntegerValue, have_one, keep_one};
use st_program::{StProgram, integer_values};
use std::alloc::{AllocError, Global};

/// Whether a variable stands for no value of an INT, or is no input.
fn is_no_input(value: Option<IntegerValue>, v: &Var) -> bool
    ensures { IsTrue result → IsNoInput value v.now }
{
    match value {
        Some(_) => !v.is_input(),
        None => true,
    }
}

/// Whether a drawing has all these variables, and those that stand for a value of an INT are no inputs.
fn are_no_inputs(values: &[Option<IntegerValue>], vs: &[Var]) -> bool
    ensures { IsTrue result → AreNoInputs values.now vs.now }
{
    match (values, vs) {
        ([], _) => true,
        ([value, more @ ..], [v, others @ ..]) => {
            is_no_input(*value, v) && are_no_inputs(more, others)
        }
        _ => false,
    }
}

/// The values of variables at the start.
fn starts_of(alloc: Global, vars: &[Var]) -> Result<Vec<bool>, AllocError>
    ensures { IfOk result (λ starts. starts.items ≡ map (λ v. v.initial) vars.now) }
{
    vars.iter().map(|v| v.initial).collect(alloc)
}

/// Whether of the variables that stand for the values of an INT exactly one is ON, at the start and after each scan of a drawing.
pub(crate) fn keeps_integers(
    alloc: Global,
    program: &StProgram,
    drawing: &Program,
) -> Result<bool, AllocError>
    requires { IsDrawingOf (length program.now.variables.items) program.now.statements drawing.now }
    ensures { IfOk result (λ keeps. IsTrue keeps → KeepsIntegers (integer_values program.now.variables.items) drawing.now) }
{
    let values = integer_values(alloc, &program.variables)?;
    let vars = drawing.decls().vars();
    let starts = starts_of(alloc, vars)?;
    if !are_no_inputs(&values, vars) || !have_one(&values, &starts) {
        return Ok(false);
    }
    Ok(keep_one(&values, &program.statements))
}
