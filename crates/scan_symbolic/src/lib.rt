//! Looks: one scan over any signal, which leaves the state unchanged; looks by the slice of steps that one variable needs; and the laws of a scan over a partly known state.
#![tactic(auto)]

mod by_steps;
mod effects;
mod lane;
pub mod laws;
mod likening;
mod looking;
mod marks;
mod outcome;
pub mod partial_laws;
mod reading;
mod slice;
mod steps;

pub use by_steps::look_by_steps;
pub use lane::look_in_lane;
pub use likening::liken;
pub use looking::{Work, look};
pub use outcome::Outcome;
pub use slice::Slice;
pub use steps::guard_by;
