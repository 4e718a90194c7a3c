//! Writes the program text of a ClassicLadder project, or the reasons why there is none.
#![tactic(auto)]

mod drafting;
mod holding;
mod importing;
mod reason;
mod refusal;

pub use drafting::{Drafting, Linked};
pub use importing::{ImportFault, import};
pub use reason::Reason;
pub use refusal::{Refusal, refusals};
