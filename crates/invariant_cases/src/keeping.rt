//! An instance is kept over three values by what is known of its Q and of its answer.

ghost use Rattle.invariant_cases.specs.OutcomeLaws.{outcomes_keep_values};
ghost use Rattle.invariant_cases.specs.Outcomes.{AnyOutcome, outcomes};

use crate::answer::Answer;
use crate::outcome::Outcome;
use crate::table::q_after;
use diagram_declarations::BlockKind;
use scan_partial::Keep;
use scan_signals::{Operations, Stored, Tri};

impl Keep<Tri> for Outcome {
    ghost keeping = { outcomes };

    ghost kept = { AnyOutcome };

    ghost keeps = { outcomes_keep_values };

    /// Of a stored block nothing is kept.
    fn stored(_stored: Stored) -> Outcome {
        Outcome::Anything
    }

    /// What is known of the output.
    fn q(self) -> Tri {
        match self {
            Outcome::OfKind { q, .. } => q,
            Outcome::Anything => Tri::Unsure,
        }
    }

    /// What is known after a step; what the block answers in the next one isn't.
    fn step(self, kind: BlockKind, preset: u32, first: Tri, second: Tri, _now: u64) -> Outcome {
        match self {
            Outcome::OfKind { q, answer } => Outcome::OfKind {
                q: q_after(kind, preset, q, answer, first, second),
                answer: Answer::Open,
            },
            Outcome::Anything => Outcome::Anything,
        }
    }

    /// What is known of both, where it isn't known which one it is.
    fn choose(condition: Tri, on: Outcome, off: Outcome) -> Outcome {
        match (on, off) {
            (
                Outcome::OfKind { q, answer },
                Outcome::OfKind {
                    q: r,
                    answer: other,
                },
            ) => {
                Outcome::OfKind {
                    q: Tri::choose(condition, q, r),
                    answer: if answer == other {
                        answer
                    } else {
                        Answer::Open
                    },
                }
            }
            (Outcome::OfKind { .. } | Outcome::Anything, _) => Outcome::Anything,
        }
    }
}
