//! A ladder program apart from its text: the cell at each place of its drawing, and the gates and steps that a scan goes through.
#![tactic(auto)]

mod cell;
pub mod gates;
pub mod geometry;
mod mode;
mod program;
mod sheet;
mod site;
pub mod steps;

pub use cell::{Cell, Joint, Operand};
pub use mode::{CoilMode, Mode};
pub use program::Program;
pub use site::Site;
