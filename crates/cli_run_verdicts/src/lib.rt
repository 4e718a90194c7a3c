//! Judges two programs over runs, writes what is found of each name, and keeps the runs that show each difference.
#![tactic(auto)]

mod assuming;
mod judged;
mod judging;
mod naming;
mod saving;
mod writing;

pub use judged::{RunsJudged, judge_runs};
pub use saving::save_run;
