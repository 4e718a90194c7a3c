//! States without moments: what is known of a state but for the moments at which its timers began, and what a scan makes of it.
#![tactic(auto)]

mod keeping;
pub mod laws;
mod passing;
mod stepping;
mod untimed;

pub use passing::{age, know_untimed, next_waiting, over};
pub use untimed::Untimed;
