//! Assumptions of a request: expressions in Structured Text over the inputs of a program, read from their texts.
#![tactic(auto)]

mod assumption;
mod fault;
mod several;
mod tokens;
mod whole;

pub use assumption::read_assumption;
pub use fault::{AssumptionFault, RefusedText};
pub use several::{joined, read_assumptions};
