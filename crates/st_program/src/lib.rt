//! Programs in Structured Text (IEC 61131-3:2013) over BOOL variables, INTs that take constants alone and standard function blocks, read from their text.
#![tactic(auto)]

mod arguments;
mod choice;
mod declarations;
mod expressions;
mod fault;
mod formal;
mod item;
mod mark;
mod notes;
mod phrases;
mod preset;
mod program;
mod simple;
mod spelling;
mod statements;
mod symbols;
mod values;

pub use fault::{Expected, Refusal, StFault};
pub use item::token_by;
pub use mark::{Mark, mark_of};
pub use notes::MOST_STATEMENTS;
pub use program::{StInstance, StProgram, read_st_program};
pub use spelling::bytes_of;
pub use symbols::{MOST_NAMES, Section, Sort, StVariable};
pub use values::integer_values;
