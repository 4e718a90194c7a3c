//! A search for numbers among those combinations alone with which what is assumed of the inputs is true.
#![tactic(auto)]

mod assumed;
mod likened;
mod prefixed;

pub use assumed::Assumed;
pub use likened::likeness_of;
