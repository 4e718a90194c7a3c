//! Statements of Structured Text (IEC 61131-3:2013): their lists, and what a run of them does.
#![tactic(auto)]

mod operands;
mod statement;

pub use operands::{are_within, constant_of, is_within, reads};
pub use statement::StatementList;
