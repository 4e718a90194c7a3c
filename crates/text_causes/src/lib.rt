//! The texts of the causes in one scan: rows, groups, and conditions in Structured Text. What terms and statements are made of is public
//! for the texts of differences.
#![tactic(auto)]

mod adding;
mod cause_text;
mod group_text;
mod kept;
mod progress;
mod row_text;
mod rows;
mod runs;
mod summary;
mod table;
mod term_text;

pub use cause_text::{write_causes, write_part, write_upto};
pub use group_text::{GroupForm, GroupSummary, end_of, joint, write_groups};
pub use progress::{ProgressFault, write_progress};
pub use row_text::{DIGITS, ROW, add_header, fill_end, name_bytes};
pub use summary::{Summary, is_reached};
pub use table::{fill_cells, size_of};
pub use term_text::{Brackets, add_term};
