//! Writes a program in Structured Text (IEC 61131-3:2013) as a PLCopen XML project (TC6 2.01, IEC 61131-10) with one ladder diagram.
//!
//! Each statement is a network of its own, and its expression the contacts there: AND in series, OR in parallel. Nothing is promised of the
//! document but that the writing ends: a reader looks at its bytes again, and compares its elements with the statements.
#![tactic(auto)]

mod calls;
mod declaring;
mod diagram;
mod elements;
mod power;
mod project;
mod statements;
mod text;

pub use project::write_plc;
