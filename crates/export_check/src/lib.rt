//! Whether statements of Structured Text do what a program does.
#![tactic(auto)]

mod course;
mod export;
mod flags;
mod jumps;
mod plan;

pub use export::is_export;
