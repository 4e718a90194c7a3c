//! Performs a request for a run: reads what is asked, searches, and writes what was found.
#![tactic(auto)]

mod asking;
mod finding;
mod naming;
mod reaching;
mod refusing;
mod replaying;
mod seeking;
mod telling;

pub use finding::Found;
pub use reaching::reach;
