//! Scans that skip the rungs at rest: those whose operands have not changed since their last evaluation left everything as it was.
#![tactic(auto)]

mod effects;
mod marks;
mod scanning;
mod waking;

pub use scanning::{Resting, scan};
