//! What each search for runs of two programs reads of the program in which they stand side by side.

ghost use Rattle.std.specs.Prelude.{◌≡◌, IfOk, IfSome};
ghost use Rattle.assume_places.specs.Places.{IsJoint};
ghost use Rattle.diff_runs.specs.Assuming.{assumptions};
ghost use Rattle.diff_runs.specs.Pulling.{inputs_of};
ghost use Rattle.diff_search.specs.Differences.{IsPrepared};

use assume_places::{Placed, joined};
use causes_query::source::input_variables;
use diagram_program::Program;
use diff_runs::{Sides, places};
use scan_cycle::{Memory, State};
use st_expression::Expression;
use std::alloc::{AllocError, Global};

/// The fresh state of the program in which two stand, its inputs, for each input of either the place of the input that it is with, and what is
/// assumed of both, said of the inputs there.
#[derive(Drop)]
pub struct Prepared {
    pub(crate) begun: State,
    pub(crate) inputs: Vec<usize>,
    pub(crate) old_places: Vec<usize>,
    pub(crate) new_places: Vec<usize>,
    pub(crate) joint: Option<Expression>,
}

/// The numbers of the inputs, in order of declaration.
#[tactic(auto, unfolding(scan_cycle::specs::Programs::diagram_of))]
fn inputs(alloc: Global, program: &Program) -> Result<Vec<usize>, AllocError>
    ensures { IfOk result (λ v. v.items ≡ inputs_of program.now) }
{
    input_variables(alloc, program.decls().vars())
}

/// What is assumed of both programs, said of the inputs of the one in which they stand.
fn joint(
    alloc: Global,
    sides: Sides<'_>,
    old_places: &[usize],
    new_places: &[usize],
) -> Result<Option<Expression>, AllocError>
    ensures { IfOk result (IsJoint (assumptions sides.entry.assumed).old old_places.now (assumptions sides.entry.assumed).new new_places.now) }
{
    let old = Placed {
        expression: sides.assumed.old,
        places: old_places,
    };
    let new = Placed {
        expression: sides.assumed.new,
        places: new_places,
    };
    joined(alloc, old, new)
}

/// What each search reads. `None` where an input of one of the programs is with none.
///
/// # Errors
///
/// `Memory` when out of memory.
pub fn prepare(alloc: Global, sides: Sides<'_>) -> Result<Option<Prepared>, Memory>
    ensures { IfOk result (λ found. IfSome found (IsPrepared sides.entry)) }
{
    let Some(old_places) = places(alloc, sides.of_old, sides.old, sides.both)? else {
        return Ok(None);
    };
    let Some(new_places) = places(alloc, sides.of_new, sides.new, sides.both)? else {
        return Ok(None);
    };
    let joint = joint(alloc, sides, &old_places, &new_places)?;
    Ok(Some(Prepared {
        begun: State::fresh(alloc, sides.both)?,
        inputs: inputs(alloc, sides.both)?,
        old_places,
        new_places,
        joint,
    }))
}
