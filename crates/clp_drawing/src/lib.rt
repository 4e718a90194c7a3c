//! Drafts the program text of a ClassicLadder project: the drawing and its names, before they are checked.
#![tactic(auto)]

mod aliases;
mod bytes;
mod control;
mod drafting;
mod draw;
mod drawn;
mod names;

pub use drafting::{DraftFault, Drafted, blocks_of, draft};
