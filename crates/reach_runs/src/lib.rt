//! Runs that switch something on: what is asked of the runs from a state, and the replay of one.
#![tactic(auto)]

mod assumed;
mod query;
mod replay;
mod run;
mod target;
mod timing;

pub use query::RunQuery;
pub use replay::switches_on;
pub use run::RunScan;
pub use target::Literal;
pub use timing::Timing;
