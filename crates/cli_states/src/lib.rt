//! The requests for lists about states: what some state or every one switches on, and what never changes in the runs from one.
#![tactic(auto)]

mod never;
mod possible;
mod possible_asking;
mod possible_grouping;
mod reached_asking;

pub use never::list_never;
pub use possible::list_possible;
