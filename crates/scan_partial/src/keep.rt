//! How an instance is kept over a signal.

ghost use Rattle.std.specs.Prelude.{◌≡◌, ◌≤◌};
ghost use Rattle.diagram_declarations.specs.Kind.{largest_preset};
ghost use Rattle.scan_symbolic.specs.KnownScan.{Keeping, plainly};
ghost use Rattle.scan_partial.specs.KeepsValues.{KeepsValues, AnyStored, plainly_keeps};

use diagram_declarations::BlockKind;
use scan_signals::{Signal, Stored, block};

/// What is kept of an instance over the signal `S`: of its stored block as much as is known.
pub trait Keep<S: Signal>: Copy {
    ghost keeping: { Keeping S Self };

    /// What a program keeps. The type may hold more.
    ghost kept: { Self → Type 0 };

    /// What is kept of an instance if all that is stored is known.
    fn stored(stored: Stored) -> Self
        ensures { result ≡ keeping.stored stored };

    /// The Q of the instance.
    fn q(self) -> S
        ensures { result ≡ keeping.q self };

    /// What is left by a step of a block of the kind with these inputs.
    fn step(self, kind: BlockKind, preset: u32, first: S, second: S, now: u64) -> Self
        requires { preset ≤ largest_preset kind }
        ensures { result ≡ keeping.step kind preset self first second now };

    /// `on` where the condition is ON, and `off` where it is OFF.
    fn choose(condition: S, on: Self, off: Self) -> Self
        ensures { result ≡ keeping.choice condition on off };

    ghost keeps: { KeepsValues S.value kept keeping };
}

/// Over truth values all that is stored is kept.
impl Keep<bool> for Stored {
    ghost keeping = { plainly };

    ghost kept = { AnyStored };

    ghost keeps = { plainly_keeps };

    /// The stored block itself.
    fn stored(stored: Stored) -> Stored {
        stored
    }

    /// The Q that is stored.
    fn q(self) -> bool {
        self.q()
    }

    /// The step of the standard block.
    fn step(self, kind: BlockKind, preset: u32, first: bool, second: bool, now: u64) -> Stored {
        block::step(kind, preset, self, first, second, now)
    }

    /// The stored block of the side that the condition takes.
    fn choose(condition: bool, on: Stored, off: Stored) -> Stored {
        if condition { on } else { off }
    }
}
