//! The simulation of a stimulus: its trace with the watched variables, a film or a waveform, record by record.
#![tactic(auto)]

mod alike;
mod column;
mod fault;
mod filling;
mod header;
mod recording;
mod row;
mod simulation;
mod trace;
mod watching;

pub use column::Column;
pub use fault::{SimFault, WatchFault};
pub use recording::{Film, Watched};
pub use simulation::{simulate, simulate_every, watch, write_film, write_waves};
