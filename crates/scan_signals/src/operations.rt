//! What a diagram does with what travels through it.

ghost use Rattle.std.specs.Prelude.{◌≡◌, Bool, true};
ghost use Rattle.scan_signals.specs.Algebra.{Algebra};
ghost use Rattle.scan_signals.specs.Truth.{plain, AnyBool};
ghost use Rattle.scan_signals.specs.TruthLaws.{plain_choice_known};

/// What travels through a diagram in place of a truth value, by the operations of contacts, coils and blocks alone. A `Signal` has
/// laws besides.
pub trait Operations: Copy {
    ghost algebra: { Algebra Self };

    /// The values of the type: what a program makes by the operations. The type may hold more.
    ghost value: { Self → Type 0 };

    /// A choice between two sides that are known, and the same, is these, whatever the condition.
    ghost choice_known: { (c : Self) (b : Bool) → value c → algebra.choice c (algebra.known b) (algebra.known b) ≡ algebra.known b };

    /// What is known to be this truth value.
    fn known(b: bool) -> Self
        ensures { result ≡ algebra.known b };

    /// What two routes of power give together: ON where either is.
    fn or(self, other: Self) -> Self
        ensures { result ≡ algebra.join self other };

    /// What two contacts in a row let through: ON where both do.
    fn and(self, other: Self) -> Self
        ensures { result ≡ algebra.meet self other };

    /// The inverse, as a negated contact lets it through.
    fn not(self) -> Self
        ensures { result ≡ algebra.inverse self };

    /// `on` where the condition is ON, and `off` where it is OFF.
    fn choose(condition: Self, on: Self, off: Self) -> Self
        ensures { result ≡ algebra.choice condition on off };

    /// Returns true: whatever a program holds is a value.
    fn is_value(self) -> bool
        ensures answer { result ≡ true }
        ensures is { value self };
}

impl Operations for bool {
    ghost algebra = { plain };

    ghost value = { AnyBool };

    ghost choice_known = { plain_choice_known };

    fn known(b: bool) -> bool {
        b
    }

    fn or(self, other: bool) -> bool {
        self | other
    }

    fn and(self, other: bool) -> bool {
        self & other
    }

    fn not(self) -> bool {
        !self
    }

    fn choose(condition: bool, on: bool, off: bool) -> bool {
        if condition { on } else { off }
    }

    fn is_value(self) -> bool {
        true
    }
}
