//! The request `import`: the program text of a project, or the lines that say why there is none.
#![tactic(auto)]

mod carrying;
mod faults;
mod reason;

pub use carrying::{Importing, carry};
