//! The request `import` of a project in PLCopen XML: its program text, or the line that says why there is none.
#![tactic(auto)]

mod kind;
mod lines;
mod reasons;
mod unit;
mod xml;

pub use kind::is_xml;
pub use unit::write_unit;
