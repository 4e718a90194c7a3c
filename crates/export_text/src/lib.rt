//! Writes a program as Structured Text (IEC 61131-3:2013).
//!
//! A scan of a rung reads all its contacts before it writes anything, and statements read what is there when they are run. So what a rung
//! reads is kept by helpers where an earlier statement of the rung changes it. Nothing is promised of the text but that the writing ends: a
//! reader looks at its bytes again, and compares its statements with the rungs.
#![tactic(auto)]

mod actions;
mod declaring;
mod expansion;
mod form;
mod jumps;
mod keywords;
mod names;
mod network;
mod node;
mod paragraphs;
mod piece;
mod program;
mod rung;
mod statements;
mod symbol;
mod text;

pub use form::Form;
pub use keywords::{is_declared, is_name};
pub use program::write_st;
