//! What belongs together in a program and in one in which it stands beside another.

use crate::moving::{Moving, number_of};
use diagram_declarations::Var;
use diagram_program::Program;
use diff_matching::{Matching, Pair};
use std::alloc::{AllocError, Global};

/// The pairs of inputs, or those of other variables.
fn pairs_of_vars(
    alloc: Global,
    vars: &[Var],
    numbers: &[usize],
    inputs: bool,
) -> Result<Vec<Pair>, AllocError> {
    let mut pairs: Vec<Pair> = Vec::new(alloc);
    for var in 0..vars.len() {
        if vars[var].is_input() == inputs {
            pairs.push(Pair {
                old: var,
                new: number_of(numbers, var),
            })?;
        }
    }
    Ok(pairs)
}

/// The pairs of so many numbers, each with itself after so many others.
fn pairs_after(alloc: Global, count: usize, before: usize) -> Result<Vec<Pair>, AllocError> {
    let mut pairs: Vec<Pair> = Vec::new(alloc);
    for number in 0..count {
        pairs.push(Pair {
            old: number,
            new: before.saturating_add(number),
        })?;
    }
    Ok(pairs)
}

/// What belongs together in a program and where it has these numbers.
pub(crate) fn paired(
    alloc: Global,
    program: &Program,
    moving: Moving<'_>,
) -> Result<Matching, AllocError> {
    let vars = program.decls().vars();
    let instances = program.decls().instances();
    Ok(Matching::of_pairs(
        pairs_of_vars(alloc, vars, moving.vars, true)?,
        pairs_of_vars(alloc, vars, moving.vars, false)?,
        pairs_after(alloc, instances.len(), moving.instances)?,
        pairs_after(alloc, program.memories(), moving.memories)?,
    ))
}
