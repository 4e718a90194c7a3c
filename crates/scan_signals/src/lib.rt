//! What the elements of a ladder diagram do without a program: the operations of contacts and coils on a signal, the steps of the standard function blocks, and the signals of a search (three values, 64 truth values in one word, 64 lanes of three values in two words).
#![tactic(auto)]

pub mod block;
mod lane;
pub mod laws;
mod likeness;
mod operations;
mod rails;
mod relation;
mod signal;
mod tri;
mod word;

pub use block::Stored;
pub use lane::Lane;
pub use likeness::Likeness;
pub use operations::Operations;
pub use rails::{RailLane, Rails};
pub use relation::{Allowed, Relation};
pub use signal::Signal;
pub use tri::Tri;
pub use word::Word64;
