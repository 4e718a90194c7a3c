//! The text of a state: its records, read and written.
#![tactic(auto)]

mod fault;
pub mod laws;
mod parts;
mod read;
mod row;
mod version;
mod write;

pub use fault::StateFault;
pub use read::read_state;
pub use version::Version;
pub use write::write_state;
