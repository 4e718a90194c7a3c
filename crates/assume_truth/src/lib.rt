//! What is assumed of inputs, how far it is true where only some of them are known, and which of them it names.
#![tactic(auto)]

mod evaluation;
mod operands;

pub use evaluation::{Inputs, assumed_truth, truth};
pub use operands::is_named;
