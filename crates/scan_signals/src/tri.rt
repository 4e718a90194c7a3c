//! The signal of three values.

ghost use Rattle.std.specs.Prelude.{◌≡◌};
ghost use Rattle.scan_signals.specs.Truth.{OnePlace};
ghost use Rattle.scan_signals.specs.Three.{AnyTri, three, three_allows, three_choice};
ghost use Rattle.scan_signals.specs.declared.tri.Tri.TheVariants.{Unsure};
ghost use Rattle.scan_signals.specs.ThreeLaws.{three_allowed, three_choice_known, three_lattice};

use crate::operations::Operations;
use crate::signal::Signal;

/// What is known of a truth value. An input whose bit a prefix leaves open is `Unsure`, and so is what may come out either way.
///
/// In this order AND is the lesser and OR the greater, found without a branch.
#[derive(Clone, Copy, Debug, PartialEq, Eq)]
pub enum Tri {
    Off,
    /// OPEN: it allows both.
    Unsure,
    On,
}

impl Operations for Tri {
    ghost algebra = { three };

    ghost value = { AnyTri };

    ghost choice_known = { three_choice_known };

    /// A value that is known.
    fn known(b: bool) -> Tri {
        if b { Tri::On } else { Tri::Off }
    }

    /// The larger one in the order OFF, unsure, ON.
    fn or(self, other: Tri) -> Tri {
        if (self as u8) < (other as u8) {
            other
        } else {
            self
        }
    }

    /// The smaller one in the order OFF, unsure, ON.
    fn and(self, other: Tri) -> Tri {
        if (other as u8) < (self as u8) {
            other
        } else {
            self
        }
    }

    /// The inverse, unsure where this is.
    fn not(self) -> Tri {
        match self {
            Tri::Off => Tri::On,
            Tri::On => Tri::Off,
            Tri::Unsure => Tri::Unsure,
        }
    }

    /// The side that the condition takes; if it is unsure, what both sides agree on.
    fn choose(condition: Tri, on: Tri, off: Tri) -> Tri {
        match condition {
            Tri::On => on,
            Tri::Off => off,
            Tri::Unsure => agree(on, off),
        }
    }

    /// Each of the three is a value.
    fn is_value(self) -> bool {
        true
    }
}

impl Signal for Tri {
    ghost place = { OnePlace };

    ghost allows = { three_allows };

    ghost lattice = { three_lattice };

    ghost allowed = { three_allowed };
}

/// What two values agree on; otherwise it stays open.
fn agree(on: Tri, off: Tri) -> Tri
    ensures { result ≡ three_choice Unsure on off }
{
    if on == off { on } else { Tri::Unsure }
}
