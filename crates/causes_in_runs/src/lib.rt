//! What is possible from any state, asked of the runs from one state: which rows a run comes to, and which none ever does.
#![tactic(auto)]

mod cursor;
pub mod laws;
mod row;
mod target;

pub use cursor::RunCauses;
pub use row::{Reached, RunCause};
