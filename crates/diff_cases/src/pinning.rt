//! What is known in one of the programs of a point or an instance, where there is one, and what is known with a value for it.

ghost use Rattle.std.specs.Prelude.{◌≡◌};
ghost use Rattle.scan_partial.specs.Sizes.{AreAsLong};
ghost use Rattle.diff_cases.specs.Cases.{answer_in, answering_in, pinned_in, told_in};

use invariant_cases::pinning::{answer, pin, pin_answer, told};
use invariant_cases::{Answer, Outcome, Point};
use scan_partial::Knowledge;
use scan_signals::Tri;

/// What is known of a point.
pub fn told_in(point: Option<Point>, known: &Knowledge<Tri, Outcome>) -> Tri
    ensures { result ≡ told_in point known.now }
{
    match point {
        Some(point) => told(point, known),
        None => Tri::Off,
    }
}

/// Gives a point a value.
pub fn pin_in(point: Option<Point>, value: Tri, known: &mut Knowledge<Tri, Outcome>)
    ensures known { known.new ≡ pinned_in known.old point value }
    ensures sizes { AreAsLong known.new known.old }
{
    if let Some(point) = point {
        pin(point, value, known);
    }
}

/// What an instance answers.
pub fn answer_in(inst: Option<usize>, known: &Knowledge<Tri, Outcome>) -> Answer
    ensures { result ≡ answer_in inst known.now }
{
    match inst {
        Some(inst) => answer(inst, known),
        None => Answer::Open,
    }
}

/// Says what an instance answers.
pub fn pin_answer_in(inst: Option<usize>, answer: Answer, known: &mut Knowledge<Tri, Outcome>)
    ensures known { known.new ≡ answering_in known.old inst answer }
    ensures sizes { AreAsLong known.new known.old }
{
    if let Some(inst) = inst {
        pin_answer(inst, answer, known);
    }
}
