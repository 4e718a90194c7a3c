//! What stays so in each state that a run reaches, and whether it is so in a state.
#![tactic(auto)]

pub mod laws;
mod so;
mod staying;

pub use so::stays_so;
pub use staying::{staying_in_runs, staying_in_runs_assuming};
