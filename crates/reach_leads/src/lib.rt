//! What leaves open what a scan makes of a state that is known in part: an input of the scan, or something of the state before it; and states of
//! which only a part is kept. It serves the choice of what a search tries and keeps next, and only `forget` has a contract.
#![tactic(auto)]

mod kept;
mod leading;
mod traced;
mod tracing;
mod wholeness;

pub use kept::{Kept, forget};
pub use leading::{lead_of_kept, lead_of_target, noted};
pub use tracing::Trace;
