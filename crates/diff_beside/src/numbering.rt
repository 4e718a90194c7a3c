//! The numbers that variables have where two programs stand in one: those of OLD come first, with the numbers that they have in OLD; an input of
//! NEW that belongs together with one of OLD is that one.

ghost use Rattle.std.specs.Prelude.{◌≤◌, length};
ghost use Rattle.diagram_declarations.specs.declared.limits.TheConstants.{MOST_VARS};

use diagram_declarations::Var;
use diff_matching::Pair;
use std::alloc::{AllocError, Global};

/// The numbers from 0 on.
pub(crate) fn own_numbers(alloc: Global, count: usize) -> Result<Vec<usize>, AllocError> {
    (0..count).collect(alloc)
}

/// The input of OLD that belongs together with a variable of NEW.
fn input_with(pairs: &[Pair], number: usize, var: &Var) -> Option<usize> {
    if !var.is_input() {
        return None;
    }
    let pair = pairs.iter().find(|pair| pair.new == number)?;
    Some(pair.old)
}

/// The number of each variable of NEW, where OLD has so many: that of the input of OLD that belongs together with it, or else the next one.
pub(crate) fn numbers_beside(
    alloc: Global,
    inputs: &[Pair],
    olds: usize,
    vars: &[Var],
) -> Result<Vec<usize>, AllocError>
    requires { olds ≤ MOST_VARS }
{
    let mut numbers: Vec<usize> = Vec::new(alloc);
    let mut next = olds;
    for var in 0..vars.len() {
        match input_with(inputs, var, &vars[var]) {
            Some(input) => numbers.push(input)?,
            None => {
                numbers.push(next)?;
                next += 1;
            }
        }
    }
    Ok(numbers)
}

/// How many of the numbers are past those of OLD.
pub(crate) fn count_past(numbers: &[usize], olds: usize) -> usize
    ensures { result ≤ length numbers.now }
{
    numbers.iter().filter(|number| **number >= olds).count()
}
