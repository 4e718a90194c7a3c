//! The rungs of ClassicLadder: what their elements mean, where they may be, how power goes through them, and the check that a program has the meaning of a project.
#![tactic(auto)]

mod check;
mod meaning;
mod power;
mod sheet;

pub use check::is_carried_over;
pub use meaning::{
    BlockRef, BlockSort, ClpOperand, Meaning, Timed, entry_of, meaning_of, source_of, timed_as,
};
pub use power::{Power, fed, is_run_by_any, passes, power_of};
pub use sheet::{
    element_at, ends_rung, has_places, is_block, is_contact, is_idle, is_linked, is_taken_on,
    meaning_at, reads_late, stands,
};
