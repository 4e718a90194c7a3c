//! Which combinations leave a coil ON in just one of two programs: rows, and their groups; all of them, or those alone with which what is
//! assumed of the inputs is true in both programs.
#![tactic(auto)]

mod fault;
mod groups;
mod in_both;
mod number_scan;
mod ordering;
mod query;
mod refusing;
mod rows;
mod trees;

pub use fault::DifferenceFault;
pub use groups::DifferenceGroups;
pub use ordering::{OrderedInputs, orders_alike, sifted_together};
pub use query::ProgramQuery;
pub use rows::{Difference, Differences};
