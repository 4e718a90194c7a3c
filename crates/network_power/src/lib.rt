//! Whether an expression of Structured Text has the power that leads to a place of a network.
#![tactic(auto)]

mod elements;
mod following;
mod leads;
mod network;

pub use following::is_fed;
pub use network::{Element, Links, Network};
