//! Whether an expression of Structured Text has the value of the power at a place of a rung.
#![tactic(auto)]

mod cells;
mod ends;
mod following;
mod known;
mod literals;
mod network;
mod operands;

pub use cells::ends_before;
pub use ends::Ends;
pub use following::{is_link, is_power};
pub use known::{Known, Meaning};
pub use network::Network;
pub use operands::is_operand;
