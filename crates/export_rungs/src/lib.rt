//! Whether statements of Structured Text do what a rung of a program does.
#![tactic(auto)]

mod cells;
mod edges;
mod forms;
mod jumps;
mod latch;
mod lists;
mod meanings;
mod rung;
mod rungs;
mod scan;

pub use rungs::behind_rung;
pub use scan::Scan;
