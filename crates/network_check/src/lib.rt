//! Whether statements of Structured Text do what the elements of a network do, one after the other.
#![tactic(auto)]

mod arms;
mod doing;
mod effect;
pub mod laws;
mod powers;
mod running;
mod selections;

pub use effect::{CoilKind, Effect};
pub use running::is_run;
