//! What a request of two programs assumes of the inputs of both, where it assumes something.
#![tactic(auto)]

mod reading;
mod together;

pub use reading::read_what_is_assumed;
