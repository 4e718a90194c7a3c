//! What is known of a point, and what is known with a value for it.

ghost use Rattle.std.specs.Prelude.{◌≡◌, ◌↔◌, IsTrue};
ghost use Rattle.scan_partial.specs.Sizes.{AreAsLong};
ghost use Rattle.scan_symbolic.specs.KnownScan.{kept_at};
ghost use Rattle.invariant_cases.specs.Cases.{answering, pinned, told};
ghost use Rattle.invariant_cases.specs.Outcomes.{answer_known, outcomes};
ghost use Rattle.scan_signals.specs.Three.{three_known};

use crate::answer::Answer;
use crate::outcome::Outcome;
use crate::point::Point;
use scan_partial::{Keep, Knowledge};
use scan_signals::Tri;

/// Whether it is known to be this value.
pub fn is_known(known: Tri, value: bool) -> bool
    ensures { IsTrue result ↔ (known ≡ three_known value) }
{
    match known {
        Tri::On => value,
        Tri::Off => !value,
        Tri::Unsure => false,
    }
}

/// What an instance answers in its next step.
pub fn answer(inst: usize, known: &Knowledge<Tri, Outcome>) -> Answer
    ensures { result ≡ answer_known (kept_at outcomes known.now inst) }
{
    match known.kept(inst) {
        Outcome::OfKind { answer, .. } => answer,
        Outcome::Anything => Answer::Open,
    }
}

/// What is known of a point: of what an instance answers, ON where it is known.
#[tactic(auto, unfolding(crate::specs::Cases::told))]
pub fn told(point: Point, known: &Knowledge<Tri, Outcome>) -> Tri
    ensures { result ≡ told point known.now }
{
    match point {
        Point::Variable(var) => known.value(var),
        Point::Output(inst) => known.kept(inst).q(),
        Point::Memory(number) => known.memory(Some(number)),
        Point::Answer(inst) => match answer(inst, known) {
            Answer::Off | Answer::On | Answer::Input => Tri::On,
            Answer::Open => Tri::Unsure,
        },
    }
}

/// Gives a point a value. What an instance answers has none: `pin_answer` gives it one.
#[tactic(auto, unfolding(crate::specs::Cases::pinned))]
pub fn pin(point: Point, value: Tri, known: &mut Knowledge<Tri, Outcome>)
    ensures known { known.new ≡ pinned known.old point value }
    ensures sizes { AreAsLong known.new known.old }
{
    match point {
        Point::Variable(var) => known.put_value(var, value),
        Point::Output(inst) => {
            let pinned = match known.kept(inst) {
                Outcome::OfKind { answer, .. } => Outcome::OfKind { q: value, answer },
                Outcome::Anything => Outcome::Anything,
            };
            known.keep(inst, pinned);
        }
        Point::Memory(number) => known.put_memory(number, value),
        Point::Answer(_) => {}
    }
}

/// Says what an instance answers in its next step.
#[tactic(auto, unfolding(crate::specs::Cases::answering))]
pub fn pin_answer(inst: usize, answer: Answer, known: &mut Knowledge<Tri, Outcome>)
    ensures known { known.new ≡ answering known.old inst answer }
    ensures sizes { AreAsLong known.new known.old }
{
    let pinned = match known.kept(inst) {
        Outcome::OfKind { q, .. } => Outcome::OfKind { q, answer },
        Outcome::Anything => Outcome::Anything,
    };
    known.keep(inst, pinned);
}
