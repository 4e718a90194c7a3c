//! The scan of a ladder diagram: how power flows through a rung, what its cells do, and the state after one scan.
//!
//! The modules `effects`, `gates`, `image`, `inputs`, `scanning`, `scene` and `storage` are public for looks and for the other scans,
//! which evaluate the same cells: over any signal, over a partly known state, or only where something changed. `laws` is public for
//! callers who reason about scans.
#![tactic(auto)]

pub mod effects;
pub mod gates;
pub mod image;
pub mod inputs;
pub mod laws;
mod memory;
pub mod scanning;
pub mod scene;
mod seen;
mod state;
pub mod storage;

pub use memory::Memory;
pub use scanning::{MomentBack, scan};
pub use seen::{Mark, PowerFlow, see};
pub use state::State;
