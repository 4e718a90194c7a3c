//! Expressions of Structured Text (IEC 61131-3:2013) over BOOL values: their trees, their values, and how tokens are read.
#![tactic(auto)]

mod evaluation;
mod expression;
mod fault;
pub mod laws;
mod level;
mod reading;
mod token;

pub use evaluation::evaluate;
pub use expression::{Expression, Operand};
pub use fault::ReadFault;
pub use reading::{DEPTH, read_expression};
pub use token::Token;
