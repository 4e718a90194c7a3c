//! Whether the cells of a rung are an expression, drawn in series and in parallel.
#![tactic(auto)]

mod cells;
mod drawn;
mod ends;
mod following;
mod helpers;
mod network;
mod part;
mod sizes;

pub use drawn::is_drawn;
pub use helpers::Helper;
