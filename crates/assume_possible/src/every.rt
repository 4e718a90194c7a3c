//! A tree of prefixes in which every number is chosen.

ghost use Rattle.std.specs.Prelude.{refl};
ghost use Rattle.std.proofs.Common.{◌∙◌};
ghost use Rattle.assume_possible.specs.Possible.{IsEvery, KeepsEvery, every_search};

use search_tree::Tree;

/// All numbers of some bits.
#[derive(Clone, Copy)]
pub(crate) struct Every {
    /// How many bits a longest prefix leaves open, and how many it has.
    pub tail: u32,
    pub top: u32,
    pub looks: u64,
    /// How many of them were at longest prefixes.
    pub longest: u64,
}

impl Tree for Every {
    ghost search = { every_search };

    ghost looks = { λ e. e.looks };

    ghost longest = { λ e. e.longest };

    ghost is_ready = { IsEvery };

    ghost keeps = { KeepsEvery };

    ghost keeps_itself = { λ e. record { tail = refl; top = refl } };

    ghost keeps_on = { λ x y z h k. record { tail = k.tail ∙ h.tail; top = k.top ∙ h.top } };

    /// All completions are chosen.
    fn decide(&mut self, _height: u32, _base: u64) -> Option<bool> {
        self.looks += 1;
        Some(true)
    }

    /// All completions are chosen.
    fn word(&mut self, _base: u64) -> u64 {
        self.looks += 1;
        self.longest += 1;
        u64::MAX
    }
}
