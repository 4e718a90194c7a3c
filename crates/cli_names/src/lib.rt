//! What is said of a word of a request, or of its texts, that names nothing of its program.
#![tactic(auto)]

mod advising;
mod fault;
mod state;
mod stimulus;
mod told;
mod words;

pub use advising::advise;
pub use fault::AdviceFault;
