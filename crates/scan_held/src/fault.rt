//! The faults of a question that has no list over several scans.

use causes_query::CauseFault;
use thiserror::Error;

/// Why there is no list over several scans.
#[derive(Clone, Copy, Debug, PartialEq, Eq, Error)]
pub enum HeldFault {
    /// One of the rules C1 to C5 of a list of causes, or out of memory.
    #[error("{0}")]
    Question(CauseFault),
    /// C8: no scan, more than [`SCANS_LIMIT`](crate::scans::SCANS_LIMIT), or one after the last moment.
    #[error("C8: there are no such scans")]
    NoScans,
}
