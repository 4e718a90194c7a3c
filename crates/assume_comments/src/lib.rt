//! What comments of a program's declarations assume of its inputs: the texts behind `assume:` in comments `(* .. *)` of the block.
#![tactic(auto)]

mod assumed;
mod comment;
mod front;
pub mod laws;
mod token;

pub use assumed::assumed_in;
