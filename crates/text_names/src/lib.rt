//! Words that name nothing, and the names that they may mean.
#![tactic(auto)]

mod distance;
mod meant;
mod unknown;

pub use meant::{Wanted, count_names, name_at, nearest};
pub use unknown::{write_no_input, write_other, write_unknown};
