//! Lays out statements of Structured Text as the rungs of a ladder diagram.
//!
//! Nothing is promised of the text but that the layout ends: a reader looks at its bytes again, and compares them with the statements.
#![tactic(auto)]

mod coils;
mod fitting;
mod forms;
mod grid;
mod laying;
mod names;
mod picture;
mod placing;
mod rungs;
mod shared;
mod sheet;
mod size;
mod text;
mod tree;
mod word;

pub use laying::lay_out;
pub use names::{Comment, NamedInstance, Names};
pub use sheet::Layout;
