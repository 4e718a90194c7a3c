//! The search for a run that switches something on, breadth first over states without moments of which only so much is kept as is of use.
#![tactic(auto)]

mod choosing;
mod index;
mod levels;
mod moments;
mod possible;
mod rows;
mod search;
mod seeking;
mod shutting;
mod state_set;
mod target;
mod telling;
mod visiting;
mod ways;

pub use search::Limits;
pub use seeking::{MOST_STEPS, Progress, Searching, Sought, Verdict, seek};
pub use shutting::is_shut_out;
