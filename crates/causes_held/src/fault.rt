//! The faults of a question whose causes over several scans are not grouped.

use scan_held::HeldFault;
use thiserror::Error;

/// Why there are no groups over several scans.
#[derive(Clone, Copy, Debug, PartialEq, Eq, Error)]
pub enum HeldGroupFault {
    /// More inputs are listed than groups over several scans can have: [`BITS_LIMIT`](search_groups::BITS_LIMIT).
    #[error("too many inputs are listed for groups over several scans")]
    TooManyInputs,
    /// There is no list over several scans, or out of memory.
    #[error("{0}")]
    Held(HeldFault),
}
