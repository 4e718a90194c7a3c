//! The options of the program `ladder`, as `clap` takes them, its help, and the pages on faults.
#![tactic(auto)]

mod command;
mod declarations;
mod drawing;
mod examples;
mod exports;
mod files;
mod help;
mod list;
mod pages;
mod projects;
mod questions;
mod statements;
mod units;
mod words;

pub use command::ladder;
pub use pages::{codes, page_of};
