//! Keeps the states that show what a change of a program changes, and writes each with a stimulus that shows it.
#![tactic(auto)]

mod judged;
pub mod laws;
mod naming;
mod saving;
mod stimulus;

pub use judged::{Judged, judge_keeping};
pub use saving::{WitnessFile, save_witness};
