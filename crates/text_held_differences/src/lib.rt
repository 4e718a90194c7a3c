//! The writing of what two programs do differently over several scans.
#![tactic(auto)]

mod held;

pub use held::write_held_differences;
