//! The request `export`: a ladder program in a language of controllers, or the line that says why there is none.
#![tactic(auto)]

mod exporting;
mod lines;

pub use exporting::{Exporting, write_export};
