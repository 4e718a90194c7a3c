//! Reads a program text: the rules that a drawing must meet, and the program of a text that meets them.
#![tactic(auto)]

mod build;
mod columns;
mod drawn;
mod fault;
pub mod feeding;
pub mod firsts;
mod gap;
mod grid_rule;
pub mod laws;
pub mod page_check;
mod read;
mod rules;
mod rung;
mod titled;

pub use columns::column_of;
pub use fault::GridFault;
pub use grid_rule::{GridRule, Rule, Stop};
pub use read::read_program;
pub use titled::{TitledFault, read_titled_program};
