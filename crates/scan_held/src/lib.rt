//! Several scans with held inputs: the scans of one combination, of 64 combinations at once, and over three values.
#![tactic(auto)]

mod again;
mod beginning;
mod fault;
mod lane_firsts;
mod lane_keeping;
pub mod lane_laws;
mod lane_noting;
mod lane_stepping;
mod lanes;
mod later;
pub mod later_laws;
pub mod laws;
mod opening;
mod partly;
mod partly_keeping;
pub mod partly_laws;
mod partly_stepping;
mod scans;
mod time_shift;

pub use fault::HeldFault;
pub use lane_firsts::first_in_lanes;
pub use lanes::{LANES, Lanes};
pub use later::is_later;
pub use opening::{Opening, first_open};
pub use partly::Partly;
pub use scans::{HeldCause, SCANS_LIMIT, Scans, Watched, are_no_scans, first_on};
