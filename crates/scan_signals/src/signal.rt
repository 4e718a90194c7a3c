//! What travels through a diagram in place of a truth value.

ghost use Rattle.std.specs.Prelude.{ℕ, Bool};
ghost use Rattle.scan_signals.specs.Algebra.{LatticeLaws, AllowsLaws};
ghost use Rattle.scan_signals.specs.Truth.{OnePlace, plain_allows};
ghost use Rattle.scan_signals.specs.TruthLaws.{plain_lattice, plain_allowed};

use crate::operations::Operations;

/// What travels through a diagram in place of a truth value: at each of its places it allows OFF, ON or both. `known` is the signal
/// that allows just this truth value, at every place. The laws speak of the values of the type.
pub trait Signal: Operations {
    ghost place: { ℕ → Type 0 };

    ghost allows: { Self → ℕ → Bool → Type 0 };

    ghost lattice: { LatticeLaws Self Self.value Self.algebra };

    ghost allowed: { AllowsLaws Self Self.value Self.algebra place allows };
}

/// A truth value is a signal with one place.
impl Signal for bool {
    ghost place = { OnePlace };

    ghost allows = { plain_allows };

    ghost lattice = { plain_lattice };

    ghost allowed = { plain_allowed };
}
