//! Reads a project of ClassicLadder, the ladder editor and engine of LinuxCNC, and which signals a HAL file connects with its pins.
#![tactic(auto)]

mod element;
mod fault;
mod lines;
mod links;
mod number;
mod order;
mod pin;
mod project;
mod reading;
mod rung;
mod table;
mod words;

pub use element::Element;
pub use fault::{ClpFault, Table};
pub use lines::lines_of;
pub use links::{Link, links_in};
pub use number::{before, number_in};
pub use order::Placed;
pub use pin::ClpPin;
pub use project::{Project, read_project};
pub use reading::ReadingOptions;
pub use rung::{ClpRung, ELEMENTS};
pub use table::{ClpSymbol, Expression, Preset, Section, writes_number};
pub use words::joined;
