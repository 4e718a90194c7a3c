//! Settling by cases what a scan leaves ON, from what is known before it.
//!
//! The modules `choosing`, `cases`, `partners`, `pinning` and `points` are public for `invariant_sets` and `causes_any_state`, which split the same
//! cases.
#![tactic(auto)]

mod answer;
mod assumption;
pub mod buffers;
pub mod cases;
pub mod choosing;
mod flow;
mod keeping;
pub mod laws;
mod outcome;
mod pair;
pub mod partners;
pub mod pinning;
mod point;
pub mod points;
mod table;
mod writers;

pub use answer::Answer;
pub use assumption::Assumption;
pub use buffers::CaseBuffers;
pub use cases::Question;
pub use flow::ScanKnowledge;
pub use outcome::Outcome;
pub use pair::Pair;
pub use point::Point;
pub use writers::Writers;
