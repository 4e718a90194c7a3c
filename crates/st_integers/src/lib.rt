//! INT variables that take constants alone, as BOOL variables of which one is ON.
#![tactic(auto)]

mod keeping;
mod setting;
mod value;

pub use keeping::{have_one, keep_one};
pub use setting::with_setting;
pub use value::{IntegerValue, variable_with};
