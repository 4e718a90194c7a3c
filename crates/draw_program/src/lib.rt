//! Programs in Structured Text (IEC 61131-3:2013), drawn as ladder diagrams whose scan does what the statements do.
#![tactic(auto)]

mod address;
mod alike;
mod assembling;
mod calling;
mod declaring;
mod drawing;
mod fault;
mod integers;
mod matching;
mod names;
mod notes;
mod numbered;

pub use address::address_of;
pub use drawing::{Drawn, draw};
pub use fault::DrawFault;
