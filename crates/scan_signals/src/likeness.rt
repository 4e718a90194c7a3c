//! What is known of a truth value in two scans at once.

ghost use Rattle.std.specs.Prelude.{◌≡◌, ◌↔◌, IsTrue};
ghost use Rattle.scan_signals.specs.Likenesses.{AnyLikeness, like_either, likenesses};
ghost use Rattle.scan_signals.specs.LikenessLaws.{like_choice_known};

use crate::operations::Operations;

/// What is known of a truth value in two scans at once.
///
/// It isn't a `Signal`: an OR of two values that are alike is alike, though it may be neither of them, so the laws of a lattice
/// don't hold.
#[derive(Clone, Copy, Debug, PartialEq, Eq)]
pub enum Likeness {
    /// OFF in both scans.
    Off,
    /// ON in both scans.
    On,
    /// The same in both scans.
    Alike,
    /// It may be anything in either.
    Open,
}

impl Likeness {
    /// Whether it is the same in both scans, OFF or ON.
    pub fn is_alike(self) -> bool
        ensures { IsTrue result ↔ (self ≡ Likeness.Alike) }
    {
        match self {
            Likeness::Alike => true,
            Likeness::Off | Likeness::On | Likeness::Open => false,
        }
    }

    /// Whether it may be anything in either scan.
    pub fn is_open(self) -> bool
        ensures { IsTrue result ↔ (self ≡ Likeness.Open) }
    {
        match self {
            Likeness::Open => true,
            Likeness::Off | Likeness::On | Likeness::Alike => false,
        }
    }
}

/// What is known where either may come out, and the same one in both scans.
fn either(one: Likeness, other: Likeness) -> Likeness
    ensures { result ≡ like_either one other }
{
    match (one, other) {
        (Likeness::Off, Likeness::Off) => Likeness::Off,
        (Likeness::On, Likeness::On) => Likeness::On,
        (Likeness::Open, _) | (_, Likeness::Open) => Likeness::Open,
        _ => Likeness::Alike,
    }
}

impl Operations for Likeness {
    ghost algebra = { likenesses };

    ghost value = { AnyLikeness };

    ghost choice_known = { like_choice_known };

    /// The same truth value in both scans.
    fn known(b: bool) -> Likeness {
        if b { Likeness::On } else { Likeness::Off }
    }

    /// The OR, scan by scan. Two that are the same in both scans have the same OR; one of them that is open may differ.
    fn or(self, other: Likeness) -> Likeness {
        match (self, other) {
            (Likeness::On, _) | (_, Likeness::On) => Likeness::On,
            (Likeness::Off, _) => other,
            (_, Likeness::Off) => self,
            (Likeness::Alike, Likeness::Alike) => Likeness::Alike,
            _ => Likeness::Open,
        }
    }

    /// The AND, scan by scan.
    fn and(self, other: Likeness) -> Likeness {
        match (self, other) {
            (Likeness::Off, _) | (_, Likeness::Off) => Likeness::Off,
            (Likeness::On, _) => other,
            (_, Likeness::On) => self,
            (Likeness::Alike, Likeness::Alike) => Likeness::Alike,
            _ => Likeness::Open,
        }
    }

    /// What is known of the inverse: the same in both scans stays so.
    fn not(self) -> Likeness {
        match self {
            Likeness::Off => Likeness::On,
            Likeness::On => Likeness::Off,
            Likeness::Alike | Likeness::Open => self,
        }
    }

    /// The choice, scan by scan: a condition that is the same in both scans takes the same side in both.
    fn choose(condition: Likeness, on: Likeness, off: Likeness) -> Likeness {
        match condition {
            Likeness::On => on,
            Likeness::Off => off,
            Likeness::Alike => either(on, off),
            Likeness::Open => match (on, off) {
                (Likeness::Off, Likeness::Off) => Likeness::Off,
                (Likeness::On, Likeness::On) => Likeness::On,
                _ => Likeness::Open,
            },
        }
    }

    /// Each of the four is a value.
    fn is_value(self) -> bool {
        true
    }
}
