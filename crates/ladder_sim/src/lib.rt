//! Texts: a state, a simulation's trace, a list of causes and a cross-reference, over readers and writers that count their calls.
//!
//! This crate re-exports what a caller needs of `io_text`, `text_state`, `text_trace`, `text_causes` and
//! `text_cross_reference`, which prove it.
//!
//! ```
//! use ladder_causes::Causes;
//! use ladder_sim::{Sink, Summary, WriteFault, write_causes};
//!
//! /// Writes the first hundred rows of a list.
//! fn write_first<W: Sink>(
//!     causes: &mut Causes<'_>,
//!     writer: &mut W,
//! ) -> Result<Summary, WriteFault> {
//!     write_causes(causes, Some(100), writer)
//! }
//! ```
#![tactic(auto)]

pub use io_text::{
    CountedReader, CountedWriter, ReadFailed, ReadFault, Sink, Source, Tally, WriteFailed,
    WriteFault, put, read_text,
};
pub use text_causes::{
    GroupForm, GroupSummary, ProgressFault, Summary, write_causes, write_groups, write_part,
    write_progress,
};
pub use text_cross_reference::write_uses;
pub use text_state::{StateFault, read_state, write_state};
pub use text_trace::{
    Column, Film, SimFault, WatchFault, Watched, simulate, simulate_every, watch, write_film,
    write_waves,
};
