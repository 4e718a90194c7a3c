//! Two programs that stand side by side in one: what a run of that one tells of runs of the two.
#![tactic(auto)]

mod assuming;
pub mod laws;
mod pulling;
mod sharing;
mod sides;
mod symbols;

pub use assuming::{TwoAssumed, nothing};
pub use pulling::{places, pulled};
pub use sharing::are_pairs_of_inputs;
pub use sides::{Sides, are_beside};
pub use symbols::{TwoSymbols, symbols_in};
