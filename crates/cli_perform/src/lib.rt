//! What the program `ladder` does for a request: the files that it reads, the bytes on its outputs, and its status.
#![tactic(auto)]

mod advised;
mod asking;
mod assuming;
mod coil;
mod coils;
mod difference_folder;
mod files;
mod folder;
mod opening;
mod performing;
mod program;
mod refusing;
mod request;
mod runs;
mod saving;
mod stream;
mod telling;
mod two_texts;
mod unread;
mod warning;
mod witnesses;

pub use assuming::{assume_comments, perform_assuming};
pub use coil::perform_coil;
pub use coils::coil_names;
pub use files::{Readers, perform_files};
pub use performing::perform;
pub use program::run;
pub use request::{ask_of, is_quiet};
