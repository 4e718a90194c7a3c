//! Which expressions are always true of the inputs: what is assumed by one leaves nothing out, so most likely it isn't what was meant.
#![tactic(auto)]

mod always;
mod writing;

pub use always::always_true;
pub use writing::put_always;
