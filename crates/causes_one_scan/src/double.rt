//! Two values of a signal side by side.

ghost use Rattle.causes_one_scan.specs.Doubles.{BothAre, doubles, doubles_allowed, doubles_choice_known, doubles_lattice, low_allows};

use scan_signals::{Operations, Signal};

/// Two values of a signal: each operation goes on each.
#[derive(Clone, Copy)]
pub struct Double<S> {
    pub low: S,
    pub high: S,
}

impl<S: Signal> Operations for Double<S> {
    ghost algebra = { doubles S.algebra };

    ghost value = { BothAre S.value };

    ghost choice_known = { doubles_choice_known S.value S.algebra S.choice_known };

    /// The same known value on both sides.
    fn known(b: bool) -> Double<S> {
        Double {
            low: S::known(b),
            high: S::known(b),
        }
    }

    /// The OR, side by side.
    fn or(self, other: Double<S>) -> Double<S> {
        Double {
            low: self.low.or(other.low),
            high: self.high.or(other.high),
        }
    }

    /// The AND, side by side.
    fn and(self, other: Double<S>) -> Double<S> {
        Double {
            low: self.low.and(other.low),
            high: self.high.and(other.high),
        }
    }

    /// The inverse of each side.
    fn not(self) -> Double<S> {
        Double {
            low: self.low.not(),
            high: self.high.not(),
        }
    }

    /// The choice, side by side: each side of the condition decides for its own.
    fn choose(condition: Double<S>, on: Double<S>, off: Double<S>) -> Double<S> {
        Double {
            low: S::choose(condition.low, on.low, off.low),
            high: S::choose(condition.high, on.high, off.high),
        }
    }

    /// A pair is a value where both sides are.
    fn is_value(self) -> bool {
        self.low.is_value() && self.high.is_value()
    }
}

/// What it allows is what its low side allows.
impl<S: Signal> Signal for Double<S> {
    ghost place = { S.place };

    ghost allows = { low_allows S.allows };

    ghost lattice = { doubles_lattice S.value S.algebra S.lattice };

    ghost allowed = { doubles_allowed S.value S.algebra S.place S.allows S.allowed };
}
