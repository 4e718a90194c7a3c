//! What stays so in each state that a run reaches: what never changes, and pairs that are never both ON.
//!
//! The modules `knowing` and `laws` are public for `causes_any_state`, which begins its searches with what stays so.
#![tactic(auto)]

mod basis;
mod first_claims;
mod first_pairs;
mod history;
pub mod knowing;
pub mod laws;
mod never;
mod pairs;
mod removing_claims;
mod removing_pairs;
mod set;
mod staying;
mod together;

pub use never::{never_assuming, never_changing};
pub use pairs::Pairs;
pub use set::Set;
pub use staying::{PAIR_SCANS, SCANS, Staying, staying_assuming, staying_from};
