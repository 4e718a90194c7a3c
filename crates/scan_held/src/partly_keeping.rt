//! An instance is kept over three values by what is known of it.

ghost use Rattle.scan_held.specs.Partly.{partly};
ghost use Rattle.scan_held.specs.PartlyKept.{AnyPartly, partly_keeps_values};

use crate::partly::Partly;
use crate::partly_stepping::{merged, step_first};
use diagram_declarations::BlockKind;
use scan_partial::Keep;
use scan_signals::{Operations, Stored, Tri};

impl Keep<Tri> for Partly {
    ghost keeping = { partly };

    ghost kept = { AnyPartly };

    ghost keeps = { partly_keeps_values };

    /// A stored block all of which is known.
    fn stored(stored: Stored) -> Partly {
        Partly::Exactly(stored)
    }

    /// The Q of the instance, unsure where what is known doesn't say it.
    fn q(self) -> Tri {
        match self {
            Partly::Exactly(stored) => Tri::known(stored.q()),
            Partly::SomeTimer(q) | Partly::SomeCounter(q) | Partly::SomeBistable(q) => q,
            Partly::Anything => Tri::Unsure,
        }
    }

    /// One step; if the first input is unsure, what the steps with ON and with OFF have in common.
    fn step(self, kind: BlockKind, preset: u32, first: Tri, second: Tri, now: u64) -> Partly {
        match first {
            Tri::On => step_first(kind, preset, self, true, second, now),
            Tri::Off => step_first(kind, preset, self, false, second, now),
            Tri::Unsure => {
                let on = step_first(kind, preset, self, true, second, now);
                let off = step_first(kind, preset, self, false, second, now);
                merged(on, off)
            }
        }
    }

    /// The side that the condition takes; if it is unsure, what both sides have in common.
    fn choose(condition: Tri, on: Partly, off: Partly) -> Partly {
        match condition {
            Tri::On => on,
            Tri::Off => off,
            Tri::Unsure => merged(on, off),
        }
    }
}
