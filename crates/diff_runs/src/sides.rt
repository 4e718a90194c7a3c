//! Two programs and one in which they stand side by side.

ghost use Rattle.std.specs.Prelude.{IsTrue};
ghost use Rattle.diff_runs.specs.Beside.{AgreeFromFresh, StandBeside};

use crate::assuming::TwoAssumed;
use crate::sharing::{are_pairs_of_inputs, share_inputs};
use diagram_program::Program;
use diff_matching::Matching;

/// Two programs, one in which they are to stand side by side, what belongs together in each two of them, and what is assumed of their inputs.
#[derive(Clone, Copy)]
pub struct Sides<'a> {
    pub old: &'a Program,
    pub new: &'a Program,
    pub both: &'a Program,
    /// What belongs together in the two.
    pub matching: &'a Matching,
    /// What belongs together in the old program and in that in which both stand.
    pub of_old: &'a Matching,
    /// The same for the new program.
    pub of_new: &'a Matching,
    pub assumed: TwoAssumed<'a>,
}

/// Whether the inputs are paired as they are where two programs stand side by side. Then they do if each of them agrees with that program.
pub fn are_beside(sides: Sides<'_>) -> bool
    ensures { IsTrue result
        → AgreeFromFresh sides.entry.of_old.now sides.entry.old.now sides.entry.both.now
        → AgreeFromFresh sides.entry.of_new.now sides.entry.new.now sides.entry.both.now
        → StandBeside sides.entry }
{
    let of_old = sides.of_old.inputs();
    let of_new = sides.of_new.inputs();
    are_pairs_of_inputs(of_old, sides.old, sides.both)
        && are_pairs_of_inputs(of_new, sides.new, sides.both)
        && share_inputs(sides.matching.inputs(), of_old, of_new)
}
