//! The texts of what two programs do differently with a coil: rows, groups, and conditions in Structured Text.
#![tactic(auto)]

mod difference_text;
mod group_rows;
mod group_text;
mod progress;

pub use difference_text::write_differences;
pub use group_text::{DifferenceSummary, write_difference_groups};
pub use progress::write_difference_progress;
