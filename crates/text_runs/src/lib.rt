//! The texts of runs: that of one, the stimulus that gives the inputs of a program what the run gives them at its moments; and that of causes which
//! were asked of the runs.
#![tactic(auto)]

mod brief;
mod cause_rows;
mod laws;
mod stimulus;

pub use brief::write_brief_run;
pub use cause_rows::{RunSummary, write_run_causes};
pub use laws::{is_brief_simulated, is_brief_stimulus, is_simulated, is_stimulus};
pub use stimulus::write_run;
