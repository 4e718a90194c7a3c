//! The requests for texts about a program, drawings of a scan, and simulations.
#![tactic(auto)]

mod expecting;
mod filming;
mod printing;
mod showing;
mod tracing;
mod watched;
mod watching;
mod waving;

pub use expecting::expect;
pub use filming::film;
pub use printing::{About, print};
pub use showing::show;
pub use tracing::trace;
pub use watching::watch;
pub use waving::wave;
