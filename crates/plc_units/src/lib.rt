//! The programs of a project in PLCopen XML (IEC 61131-10), and whether a program in Structured Text does what one of them does.
#![tactic(auto)]

mod added;
mod doing;
mod unit;

pub use doing::does_unit;
pub use unit::{Unit, unit_in};
