//! Whether declarations came out as those of two programs.

ghost use Rattle.std.specs.Prelude.{◌≡◌, ◌<◌, ◌^◌, IsTrue, Some, length, slice_get};
ghost use Rattle.diagram_declarations.specs.Decls.{is_input_at};
ghost use Rattle.diagram_program.specs.Program.{has_second};
ghost use Rattle.diff_beside.specs.Fitting.{AreInstancesIn, AreVarsIn, FitIn};
ghost use Rattle.diff_beside.specs.Moving.{shift_of};

use crate::moving::{Moving, number_of};
use diagram_declarations::{Decls, Instance, Var};

/// Whether a variable is declared with this number, as an input or as none.
fn is_var_in(there: &[Var], number: usize, input: bool) -> bool
    ensures { IsTrue result → (number < length there.now) × (is_input_at (slice_get there.now number) ≡ input) }
{
    match there.get(number) {
        Some(var) => var.is_input() == input,
        None => false,
    }
}

/// Whether each variable is declared there with its number, as an input just where it is one.
fn are_vars_in(vars: &[Var], numbers: &[usize], there: &[Var]) -> bool
    ensures { IsTrue result → AreVarsIn vars.now numbers.now there.now }
{
    for var in 0..vars.len() {
        if !is_var_in(there, number_of(numbers, var), vars[var].is_input()) {
            return false;
        }
    }
    true
}

/// Whether an instance is declared with this number, with the kind and the preset of another one.
fn is_instance_in(there: &[Instance], number: usize, instance: &Instance) -> bool
    ensures { IsTrue result → (number < length there.now) × (has_second (slice_get there.now number) ≡ has_second (Some instance.now)) }
{
    match there.get(number) {
        Some(other) => other.kind == instance.kind && other.preset == instance.preset,
        None => false,
    }
}

/// Whether each instance is declared there, after so many others.
fn are_instances_in(instances: &[Instance], before: usize, there: &[Instance]) -> bool
    requires { before < 2 ^ 32 }
    ensures { IsTrue result → AreInstancesIn instances.now before there.now }
{
    for inst in 0..instances.len() {
        if !is_instance_in(there, before + inst, &instances[inst]) {
            return false;
        }
    }
    true
}

/// Whether the declarations of a program are among others, with the numbers that they are to have there.
pub(crate) fn fit_in(moving: Moving<'_>, part: &Decls, there: &Decls) -> bool
    ensures { IsTrue result → FitIn (shift_of moving.entry) part.now there.now }
{
    are_vars_in(part.vars(), moving.vars, there.vars())
        && are_instances_in(part.instances(), moving.instances, there.instances())
}
