//! What is known of a truth value, and one thing that leaves it open. It serves the choice of what is tried and kept next, and nothing else.

use invariant_cases::Point;
use reach_states::Untimed;
use scan_signals::{Operations, Tri};

/// What is known of a truth value, and where it is open, one thing that leaves it so: an input of the scan, or something of the state before.
#[derive(Clone, Copy)]
pub(crate) struct Traced {
    pub value: Tri,
    pub by: Option<Point>,
}

/// What is kept of an instance, and where not all of it is known, one thing that leaves it open.
#[derive(Clone, Copy)]
pub(crate) struct TracedBlock {
    pub kept: Untimed,
    pub by: Option<Point>,
}

impl Traced {
    /// A value that is known.
    pub(crate) fn known(value: bool) -> Traced {
        Traced {
            value: Tri::known(value),
            by: None,
        }
    }

    /// A value that was made of two others: what leaves the first open leaves it open, or else what leaves the second open.
    fn of(value: Tri, first: Traced, second: Traced) -> Traced {
        let by = match (value, first.value) {
            (Tri::Off | Tri::On, _) => None,
            (Tri::Unsure, Tri::Unsure) => first.by,
            (Tri::Unsure, Tri::Off | Tri::On) => second.by,
        };
        Traced { value, by }
    }

    /// AND.
    pub(crate) fn and(self, other: Traced) -> Traced {
        Traced::of(self.value.and(other.value), self, other)
    }

    /// OR.
    pub(crate) fn or(self, other: Traced) -> Traced {
        Traced::of(self.value.or(other.value), self, other)
    }

    /// NOT.
    pub(crate) fn not(self) -> Traced {
        Traced {
            value: self.value.not(),
            by: self.by,
        }
    }

    /// The first where the condition is ON, and the second where it is OFF.
    pub(crate) fn choose(condition: Traced, on: Traced, off: Traced) -> Traced {
        let value = Tri::choose(condition.value, on.value, off.value);
        match condition.value {
            Tri::On => on,
            Tri::Off => off,
            Tri::Unsure => Traced::of(value, condition, Traced::of(value, on, off)),
        }
    }
}
