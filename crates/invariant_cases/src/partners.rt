//! What pairs force to be OFF.

ghost use Rattle.std.specs.Prelude.{◌≡◌, ◌<◌, ◌≤◌, Contains, IfSome, List, length};
ghost use Rattle.invariant_cases.specs.Cases.{IsForcedOff};
ghost use Rattle.invariant_cases.specs.declared.pair.Pair.{Pair};

use crate::outcome::Outcome;
use crate::pair::Pair;
use crate::pinning::told;
use crate::point::Point;
use crate::points::point_of;
use scan_partial::Knowledge;
use scan_signals::Tri;

/// What is forced OFF, and by which of the pairs.
#[derive(Clone, Copy)]
pub struct Forced {
    pub number: usize,
    pub point: Point,
}

/// The other one of a pair, of which one is ON and the other is open.
fn forced_by(pair: Pair, case: &Knowledge<Tri, Outcome>) -> Option<Point>
    ensures { IfSome result (λ point. (pairs : List Pair) → Contains pairs pair → IsForcedOff pairs case.now point) }
{
    let first = point_of(pair.first);
    let second = point_of(pair.second);
    match (told(first, case), told(second, case)) {
        (Tri::On, Tri::Unsure) => Some(second),
        (Tri::Unsure, Tri::On) => Some(first),
        (Tri::On | Tri::Off | Tri::Unsure, _) => None,
    }
}

/// What the first of the pairs from a number on forces that forces something.
pub fn next_forced(pairs: &[Pair], from: usize, case: &Knowledge<Tri, Outcome>) -> Option<Forced>
    ensures number { IfSome result (λ f. (from ≤ f.number) × (f.number < length pairs.now)) }
    ensures forced { IfSome result (λ f. IsForcedOff pairs.now case.now f.point) }
{
    for number in from..pairs.len() {
        if let Some(point) = forced_by(pairs[number], case) {
            return Some(Forced { number, point });
        }
    }
    None
}
