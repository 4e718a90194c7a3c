//! An instance is kept over three values without a moment.

ghost use Rattle.reach_states.specs.Untimed.{untimed};
ghost use Rattle.reach_states.specs.UntimedKept.{AnyUntimed, untimed_keeps_values};

use crate::stepping::{merged, q_of, step_first};
use crate::untimed::Untimed;
use diagram_declarations::BlockKind;
use scan_partial::Keep;
use scan_signals::{Stored, Tri};

impl Keep<Tri> for Untimed {
    ghost keeping = { untimed };

    ghost kept = { AnyUntimed };

    ghost keeps = { untimed_keeps_values };

    /// Nothing: without its kind and a moment nothing is kept of a stored block.
    fn stored(_stored: Stored) -> Untimed {
        Untimed::Anything
    }

    /// The Q of the instance, unsure where what is known doesn't say it.
    fn q(self) -> Tri {
        q_of(self)
    }

    /// One step, at no moment; if the first input is unsure, what the steps with ON and with OFF have in common.
    fn step(self, kind: BlockKind, preset: u32, first: Tri, second: Tri, _now: u64) -> Untimed {
        match first {
            Tri::On => step_first(kind, preset, self, true, second),
            Tri::Off => step_first(kind, preset, self, false, second),
            Tri::Unsure => {
                let on = step_first(kind, preset, self, true, second);
                let off = step_first(kind, preset, self, false, second);
                merged(on, off)
            }
        }
    }

    /// The side that the condition takes; if it is unsure, what both sides have in common.
    fn choose(condition: Tri, on: Untimed, off: Untimed) -> Untimed {
        match condition {
            Tri::On => on,
            Tri::Off => off,
            Tri::Unsure => merged(on, off),
        }
    }
}
