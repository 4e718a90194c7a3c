//! Compares two programs: with which combinations of inputs they leave a coil different.
#![tactic(auto)]

mod asking;
mod assuming;
mod comparing;
mod files;
mod grouping;
mod holding;
mod listing;
mod possible;
mod sided;
mod telling;
mod texts;

pub use asking::{DiffQuery, read_query};
pub use assuming::{Assumes, ReadAssumed, read_of_both};
pub use comparing::compare;
pub use files::{DiffReaders, Manner, compare_files, read_texts};
pub use sided::{SidedFault, of, report};
pub use texts::DiffTexts;
