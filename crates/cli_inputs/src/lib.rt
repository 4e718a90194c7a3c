//! Reads the texts of a request into the program, the state and the variables of its names; and writes the lines of faults with their reasons.
#![tactic(auto)]

mod explaining;
mod fault;
mod reading;
mod reporting;
mod setting;
mod texts;
mod variables;

pub use explaining::write_report;
pub use fault::{TextKind, ToolFault, write_fault};
pub use reading::{STIMULUS_LIMIT, TEXT_LIMIT, read_named, read_one};
pub use reporting::{report, report_by, report_unread, report_unread_by};
pub use setting::{Setting, moment, read_given_program, read_setting, starting_state};
pub use texts::Texts;
pub use variables::{CauseVariables, ShownVariables, asked_variables, shown_variables};
