//! What rungs in common leave alike, rung by rung and without any search.
#![tactic(auto)]

mod leaving;
mod marks;
mod planning;
mod reading;
mod walking;
mod writing;

pub use leaving::{InCommon, common};
