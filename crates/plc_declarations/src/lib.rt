//! The variables of a program in PLCopen XML (IEC 61131-10), compared with those of a program in Structured Text.
#![tactic(auto)]

mod declared;
mod interface;
mod types;
mod words;

pub use interface::is_interface;
pub use types::{is_bool, is_known_type, is_trigger_sort, trigger_word};
