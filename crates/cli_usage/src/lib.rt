//! The rules that the words of a command line keep beside those of `clap`: what an option wants, and what it excludes.
#![tactic(auto)]

mod broken;
mod rule;
mod tables;
mod telling;

pub use broken::{Broken, broken_rule};
pub use rule::{Rule, Term};
pub use tables::{rules_of, shared_rules_of};
pub use telling::write_broken;
