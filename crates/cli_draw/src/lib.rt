//! The request `draw`: the diagram of a program in Structured Text, or the line that says why there is none.
#![tactic(auto)]

mod drawing;
mod lines;
mod near;
mod place;
mod sentences;

pub use drawing::write_drawing;
