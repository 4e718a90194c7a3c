//! In which scan two programs switch a coil on, with the inputs held: with all combinations, or with those alone with which what is assumed
//! of the inputs is true in both programs.
#![tactic(auto)]

mod ahead;
mod counting;
mod fault;
mod row;
mod rows;

pub use fault::HeldDifferenceFault;
pub use row::HeldDifference;
pub use rows::HeldDifferences;
