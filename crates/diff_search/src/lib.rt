//! The search for runs of two programs that show a difference, by a program in which they stand side by side.
#![tactic(auto)]

mod difference;
mod preparing;
mod seeking;

pub use difference::{RunDifference, TwoRuns};
pub use preparing::{Prepared, prepare};
pub use seeking::seek_difference;
