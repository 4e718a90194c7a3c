//! The requests for lists: rows, the line of their counts, and faults.
#![tactic(auto)]

mod assuming;
mod assuming_relevant;
mod grouping;
mod held_writing;
mod holding;
mod listing;
mod progress;
mod relevant;

pub use assuming::{list_causes_assuming, list_groups_assuming};
pub use assuming_relevant::list_relevant_assuming;
pub use holding::list_held;
pub use progress::list_progress;
