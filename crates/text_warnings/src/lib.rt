//! Warnings: constructs of a drawing that break no rule and are probably unintended.
#![tactic(auto)]

mod apart;
mod leading;
mod names;
mod places;
mod reaching;
mod similar;
mod symbols;
mod unused;
mod warning;
mod wired;
mod write;

pub use warning::Warning;
pub use write::write_warnings;
