//! Looks that are read in the lanes of another look: a look over a signal of many lanes is as many looks over the signal of a lane.

ghost use Rattle.std.specs.Prelude.{◌≡◌, ◌≢◌, ◌<◌, ◌+◌, ◌-◌, ◌^◌, ℕ, length, min, slice_index_or, false};
ghost use Rattle.diagram_program.specs.Program.{Drawing};
ghost use Rattle.scan_symbolic.specs.Lanes.{IsLookInLane, IsWideLook};
ghost use Rattle.scan_symbolic.specs.Outcomes.{outcome_of};
ghost use Rattle.scan_symbolic.specs.Sheets.{HasRoom};

use crate::laws::related;
use crate::looking::Work;
use crate::outcome::Outcome;
use scan_signals::Lane;

/// Reads a look in a lane of another one; `wide` is what that left of the variable. `work` then holds what [`look`]
/// leaves of this variable with the inputs in the lane, and counts one look more.
///
/// The other variables keep the values that `work` holds of them. It needs no memory.
///
/// [`look`]: crate::looking::look
pub fn look_in_lane<L: Lane>(lane: L, wide: Outcome<L::Left>, var: usize, work: &mut Work<L::Right>)
    requires variable { var < length work.old.values }
    requires wide { IsWideLook L.Left.algebra (L.related lane) var (outcome_of wide) }
    ensures value { IsLookInLane L.Left.algebra L.Right.algebra (L.related lane) var (outcome_of wide) (slice_index_or work.new.values var (L.Right.algebra.known false)) }
    ensures others { (i : ℕ) → i ≢ var → slice_index_or work.new.values i (L.Right.algebra.known false) ≡ slice_index_or work.old.values i (L.Right.algebra.known false) }
    ensures fits { (p : Drawing) → HasRoom p work.old → HasRoom p work.new }
    ensures looks { work.new.looks ≡ min (work.old.looks + 1) (2 ^ 64 - 1) }
{
    related::<L>();
    let value = lane.read(wide.value);
    work.take(var, value);
}
