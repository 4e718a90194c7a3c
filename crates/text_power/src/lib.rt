//! The power flow of a scan: the marks that show it in a rung, and where it ends.
#![tactic(auto)]

mod ends;
pub mod laws;
mod show;
mod why;

pub use show::{add_shown_line, are_dashes, mark_in};
pub use why::add_why;
