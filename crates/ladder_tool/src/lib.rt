//! What the program `ladder` does for the words of a command line.
//!
//! This crate re-exports what a caller needs of `cli_arguments`, `cli_inputs` and `cli_perform`, which prove it.
//!
//! ```
//! use ladder_sim::{ReadFault, Sink, WriteFault};
//! use ladder_tool::{TextKind, ToolFault, write_fault};
//!
//! /// Writes the line of a program text that could not be read.
//! fn report_unread<W: Sink>(writer: &mut W) -> Result<(), WriteFault> {
//!     write_fault(&ToolFault::Read(TextKind::Program, ReadFault::Read), writer)
//! }
//! ```
#![tactic(auto)]

pub use cli_arguments::{CommandLine, Request, Task, WordFault, read_words};
pub use cli_inputs::{TextKind, Texts, ToolFault, write_fault, write_report};
pub use cli_perform::{Readers, perform, perform_coil, perform_files, run};
