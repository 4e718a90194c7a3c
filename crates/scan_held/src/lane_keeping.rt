//! An instance is kept over words lane by lane.

ghost use Rattle.scan_held.specs.Lanes.{lanes};
ghost use Rattle.scan_held.specs.LanesLaws.{AreLanes, lanes_keep_values};

use crate::lane_stepping::{TwoStored, apart, bit, choices, step_each, step_two};
use crate::lanes::Lanes;
use diagram_declarations::BlockKind;
use scan_partial::Keep;
use scan_signals::{Operations, Stored, Word64, block};

impl Keep<Word64> for Lanes {
    ghost keeping = { lanes };

    ghost kept = { AreLanes };

    ghost keeps = { lanes_keep_values };

    /// The same stored block in all lanes.
    fn stored(stored: Stored) -> Lanes {
        Lanes::Alike(stored)
    }

    /// The Q of each lane, in its bit.
    fn q(self) -> Word64 {
        match self {
            Lanes::Alike(block) => Word64::known(block.q()),
            Lanes::Two { q, .. } | Lanes::Apart { q, .. } => q,
        }
    }

    /// One step for all lanes where these are alike and each input is whole, the same in all of them; two where they store one of two and
    /// the inputs follow the word that says which (the first input that isn't whole, where the lanes were alike); otherwise one for each
    /// lane. An input follows a word where it is the same in all lanes that are ON in it, and in all that are OFF.
    fn step(self, kind: BlockKind, preset: u32, first: Word64, second: Word64, now: u64) -> Lanes {
        let first_is_whole = first.0 == 0 || first.0 == u64::MAX;
        let second_is_whole = second.0 == 0 || second.0 == u64::MAX;
        let (word, on, off) = match self {
            Lanes::Alike(stored) if first_is_whole && second_is_whole => {
                let (first, second) = (bit(first, 0), bit(second, 0));
                return Lanes::Alike(block::step(kind, preset, stored, first, second, now));
            }
            Lanes::Alike(stored) => (if first_is_whole { second } else { first }, stored, stored),
            Lanes::Two { word, on, off, .. } => (word, on, off),
            Lanes::Apart { .. } => return step_each(kind, preset, &self, first, second, now),
        };
        if (first_is_whole || first.0 == word.0) && (second_is_whole || second.0 == word.0) {
            let before = TwoStored { word, on, off };
            step_two(kind, preset, before, first, second, now)
        } else {
            step_each(kind, preset, &self, first, second, now)
        }
    }

    /// One of the two where all lanes choose the same.
    fn choose(condition: Word64, on: Lanes, off: Lanes) -> Lanes {
        if condition.0 == u64::MAX {
            on
        } else if condition.0 == 0 {
            off
        } else {
            apart(&choices(condition, &on, &off))
        }
    }
}
