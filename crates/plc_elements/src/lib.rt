//! Bodies of ladder diagram in PLCopen XML (IEC 61131-10), compared with networks and what their elements do.
#![tactic(auto)]

mod added;
mod body;
mod connections;
mod edges;
mod effects;
mod elements;
mod inputs;
mod jumps;
mod names;
mod order;
mod parts;
mod presets;
mod steps;
mod unknown;
mod words;

pub use body::is_body;
pub use edges::{Leading, falling_at};
pub use inputs::{Callee, Role};
pub use names::{Body, Names};
pub use order::Key;
