//! What is found of two programs: what was judged of each name, and what their declarations say.
#![tactic(auto)]

mod declared;
mod equivalence;
mod finding;
mod listing;
mod remarks;
mod tally;

pub use equivalence::are_equivalent;
pub use finding::{Finding, Remark, Sort, Subject};
pub use listing::{Compared, findings};
pub use tally::{Tally, count_verdicts};
