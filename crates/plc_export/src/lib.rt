//! Ladder programs, exported as projects in PLCopen XML (IEC 61131-10) whose ladder diagram does what the program does.
#![tactic(auto)]

mod export;

pub use export::export_plc;
