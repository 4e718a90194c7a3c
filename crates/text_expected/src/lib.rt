//! Whether the records of a text are those that were expected, and the first that differs.
#![tactic(auto)]

mod comparing;
mod fault;
mod telling;

pub use comparing::write_difference;
pub use fault::ExpectFault;
