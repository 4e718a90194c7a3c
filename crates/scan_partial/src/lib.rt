//! The scan over a partly known state, over any signal and with any way to store an instance.
#![tactic(auto)]

mod effects;
mod filling;
mod gates;
mod keep;
mod knowledge;
mod room;
mod scanning;

pub use keep::Keep;
pub use knowledge::Knowledge;
pub use room::Room;
pub use scanning::scan_known;
