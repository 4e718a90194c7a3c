//! Verdicts on two programs: whether one scan of each leaves a thing alike from all states that agree and count, or which states show a difference.
#![tactic(auto)]

mod aids;
mod asking;
mod candidate;
mod checking;
mod content;
mod copying;
mod judging;
mod opening;
mod seeking;
mod sorts;
mod verdicts;

pub use judging::{Judge, ShownStates};
pub use verdicts::{Judgement, judge_all};
