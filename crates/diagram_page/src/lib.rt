//! Reads the page of a ladder drawing: its lines, its rungs, the form of each cell and the name over it.
#![tactic(auto)]

mod form;
pub mod gap;
pub mod laws;
pub mod lines;
pub mod operand;
pub mod outline;
pub mod page;
pub mod picture;
mod view;

pub use form::Form;
pub use lines::Part;
pub use operand::{NameOver, Reference};
pub use outline::{Outline, outline_of};
pub use picture::Half;
pub use view::PageView;
