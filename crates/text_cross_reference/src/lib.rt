//! The cross-reference of a program: each name with the places where it is drawn.
#![tactic(auto)]

mod usage;
mod uses;

pub use uses::{add_header, add_symbol, symbol_at, symbol_count, write_uses};
