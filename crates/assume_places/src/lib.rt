//! What is assumed of the inputs of two programs, said of the inputs of one in which both stand.
#![tactic(auto)]

mod joining;
mod placing;

pub use joining::{Placed, joined};
pub use placing::placed;
