//! The texts of the other lists: causes over several scans and from any state, by row or by group; variables that never change; pairs that are never both ON.
#![tactic(auto)]

mod class_row;
mod held_group_text;
mod held_text;
mod names;
mod pairs;
mod possible_group_text;
mod possible_text;

pub use held_group_text::write_held_groups;
pub use held_text::write_held_causes;
pub use names::write_steady;
pub use pairs::write_pairs;
pub use possible_group_text::{PossibleGroupSummary, write_possible_groups};
pub use possible_text::{PossibleSummary, write_possible_causes};
