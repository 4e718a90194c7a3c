//! What is known of an instance, whatever it stores.

use crate::answer::Answer;
use scan_signals::Tri;

/// What is known of an instance: it stores what belongs to its kind, and this is known of its Q and of what it answers in its next step;
/// or nothing.
#[derive(Clone, Copy, Debug, PartialEq, Eq)]
pub enum Outcome {
    OfKind { q: Tri, answer: Answer },
    Anything,
}
