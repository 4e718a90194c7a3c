//! The waveform of a simulation: a value change dump (IEEE Std 1364-2005, clause 18), which GTKWave and other viewers show.
#![tactic(auto)]

pub mod laws;
mod lines;
mod waves;

pub use waves::{write_changes, write_start};
