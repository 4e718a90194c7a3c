//! Settling by cases, side by side, that one scan of each of two programs leaves something alike.
//!
//! The modules `choosing` and `pinning` are public for the search for a difference, which splits the same cases.
#![tactic(auto)]

mod assumptions;
pub mod buffers;
pub mod cases;
pub mod choosing;
mod joint;
pub mod laws;
pub mod looking;
mod owners;
pub mod partners;
pub mod pinning;
mod target;
mod trace;
mod tracing;

pub use assumptions::Assumptions;
pub use buffers::AlikeBuffers;
pub use cases::Search;
pub use joint::{Joint, JointInstances, JointPoint};
pub use looking::{AlikeQuestion, Likeness};
pub use target::Target;
pub use trace::{Trace, Traced};
pub use tracing::TraceBuffers;
