//! Reads the ladder diagram of a program of a PLCopen XML project (TC6 2.01, IEC 61131-10), and writes it as Structured Text
//! (IEC 61131-3:2013).
//!
//! Nothing is promised of what is given but that the reading is safe and ends: another reader looks at the text again, and compares its
//! statements with the elements of the diagram. What isn't understood is refused.
#![tactic(auto)]

mod action;
mod address;
mod blocks;
mod diagram;
mod edge;
mod edges;
mod expression;
mod fault;
mod jumps;
mod made;
mod marks;
mod node;
mod order;
mod pous;
mod program;
mod statements;
mod symbols;
mod text;
mod xml;

pub use fault::{PlcFault, PlcReason};
pub use program::{PlcText, read_plc};
