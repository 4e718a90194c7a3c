//! Verdicts on two programs: when each is true, and what follows for all runs where all are the same.
#![tactic(auto)]

mod counted;
pub mod laws;
mod verdict;
mod witness;

pub use counted::{Counted, CountedStates};
pub use verdict::{MOMENT, PairSort, Verdict, Verdicts, are_all_same};
pub use witness::Witness;
