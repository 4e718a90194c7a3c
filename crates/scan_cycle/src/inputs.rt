//! The values of the input variables, which a scan is given.

ghost use Rattle.std.specs.Prelude.{◌≡◌, ◌≤◌, ◌++◌, drop, length, map, slice_index_or, false};
ghost use Rattle.diagram_declarations.specs.Decls.{is_input};
ghost use Rattle.scan_cycle.specs.Scan.{given};

use diagram_declarations::{Decls, Var};
use scan_signals::Operations;

/// Whether the variable of this number is an input.
fn is_input_at(vars: &[Var], number: usize) -> bool
    ensures { result ≡ slice_index_or (map is_input vars.now) number false }
{
    match vars.get(number) {
        Some(var) => var.is_input(),
        None => false,
    }
}

/// Gives the inputs their values by one copy, where they are the first variables.
fn give_leading<S: Operations>(inputs: &[S], values: &mut [S])
    requires { length inputs.now ≤ length values.old }
    ensures { values.new ≡ inputs.now ++ drop (length inputs.now) values.old }
{
    values[..inputs.len()].copy_from_slice(inputs);
}

/// Gives the input variables their values, in order of declaration. Where the inputs are declared first, as they mostly
/// are, this is one copy.
pub fn give<S: Operations>(decls: &Decls, inputs: &[S], values: &mut [S])
    ensures { values.new ≡ given (map is_input decls.now.vars) inputs.now values.old }
{
    if inputs.len() <= values.len() && inputs.len() <= decls.leading_inputs() {
        give_leading(inputs, values);
        return;
    }
    give_each(decls.vars(), inputs, values);
}

/// Gives the inputs their values one by one, where they are declared among other variables.
fn give_each<S: Operations>(vars: &[Var], inputs: &[S], values: &mut [S])
    ensures { values.new ≡ given (map is_input vars.now) inputs.now values.old }
{
    let mut next = 0;
    for number in 0..values.len() {
        if !is_input_at(vars, number) {
            continue;
        }
        if inputs.len() <= next {
            continue;
        }
        values[number] = inputs[next];
        next += 1;
    }
}
