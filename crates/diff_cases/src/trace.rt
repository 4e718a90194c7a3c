//! Whether an instance made its step in a scan, and by which inputs.

ghost use Rattle.std.specs.Prelude.{◌≡◌};
ghost use Rattle.diff_cases.specs.Traces.{AnyTraced, trace_after, trace_choice, traces, traces_keep_values};

use diagram_declarations::BlockKind;
use invariant_cases::Outcome;
use scan_partial::Keep;
use scan_signals::{Stored, Tri};

/// Of an instance in a scan: it made no step yet, or one by these inputs, or that isn't known.
#[derive(Clone, Copy, PartialEq, Eq)]
pub enum Trace {
    Unstepped,
    Stepped { first: Tri, second: Tri },
    Open,
}

/// What is known of an instance, and of its step in a scan.
#[derive(Clone, Copy, PartialEq, Eq)]
pub struct Traced {
    pub outcome: Outcome,
    pub trace: Trace,
}

impl Trace {
    /// After a step by these inputs. A second step in a scan isn't told.
    fn step(self, first: Tri, second: Tri) -> Trace
        ensures { result ≡ trace_after self first second }
    {
        match self {
            Trace::Unstepped => Trace::Stepped { first, second },
            Trace::Stepped { .. } | Trace::Open => Trace::Open,
        }
    }

    /// The side that the condition takes, where it is known.
    fn choose(condition: Tri, on: Trace, off: Trace) -> Trace
        ensures { result ≡ trace_choice condition on off }
    {
        match condition {
            Tri::On => on,
            Tri::Off => off,
            Tri::Unsure => Trace::Open,
        }
    }
}

impl Keep<Tri> for Traced {
    ghost keeping = { traces };

    ghost kept = { AnyTraced };

    ghost keeps = { traces_keep_values };

    /// Of a stored block nothing is kept.
    fn stored(stored: Stored) -> Traced {
        Traced {
            outcome: Outcome::stored(stored),
            trace: Trace::Open,
        }
    }

    /// What is known of the output.
    fn q(self) -> Tri {
        self.outcome.q()
    }

    /// What is known after a step.
    fn step(self, kind: BlockKind, preset: u32, first: Tri, second: Tri, now: u64) -> Traced {
        Traced {
            outcome: self.outcome.step(kind, preset, first, second, now),
            trace: self.trace.step(first, second),
        }
    }

    /// What is known of both, where it isn't known which one it is.
    fn choose(condition: Tri, on: Traced, off: Traced) -> Traced {
        Traced {
            outcome: Outcome::choose(condition, on.outcome, off.outcome),
            trace: Trace::choose(condition, on.trace, off.trace),
        }
    }
}
