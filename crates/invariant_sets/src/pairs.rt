//! A list of pairs that aren't both ON.

ghost use Rattle.std.specs.Prelude.{◌≡◌, IsTrue};
ghost use Rattle.invariant_cases.specs.Allowing.{AreApart};

use invariant_cases::Pair;
use invariant_cases::points::are_apart;
use scan_cycle::State;
use std::marker::Model;

/// Pairs, in order of declaration of their first ones.
#[derive(Drop)]
pub struct Pairs {
    pub(crate) pairs: Vec<Pair>,
}

impl Model for Pairs {
    ghost use Rattle.std.specs.Prelude.{List};
    ghost use Rattle.invariant_cases.specs.declared.pair.Pair.{Pair};

    ghost Value = { List Pair };

    ghost view = { λ s. s.pairs.items };
}

impl Pairs {
    /// The pairs.
    pub fn list(&self) -> &[Pair]
        ensures { result.now ≡ self.now }
    {
        self.pairs.as_slice()
    }

    /// Whether of no pair both are ON in the state.
    pub fn are_apart(&self, state: &State) -> bool
        ensures { IsTrue result → AreApart self.now state.now.held }
    {
        are_apart(&self.pairs, state)
    }
}
