//! Judges two programs: of each name, whether both leave it alike.
#![tactic(auto)]

mod assuming;
mod counting;
mod files;
mod judging;
mod reading;
mod writing;

pub use cli_assumed_both::read_what_is_assumed;
pub use files::judge_files;
pub use judging::{judge, judge_programs};
pub use reading::{Programs, read_programs};
pub use writing::{Kept, verdict_counts};
