//! Lists that remember that memory ran out, so that what adds to them needn't look each time.
#![tactic(auto)]

mod part;
mod table;

pub use part::{NOTHING, Part};
pub use table::Table;
