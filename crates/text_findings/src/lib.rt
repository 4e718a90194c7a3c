//! The writing of what is found of two programs.
#![tactic(auto)]

mod names;
mod rows;
mod value;
mod write;

pub use names::{mark_of, name_of};
pub use write::write_findings;
