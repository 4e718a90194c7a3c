//! Judges two programs over runs: of each name, whether any run from their fresh states leaves it different.
#![tactic(auto)]

mod finding;
mod findings;
mod lasting;
mod names;
mod searching;
mod verdicts;

pub use finding::find_all;
pub use findings::RunFindings;
pub use names::{NameSort, pairs_of, symbols_of};
pub use verdicts::verdicts_of;
