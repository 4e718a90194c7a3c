//! Why what is possible, or forced, is not grouped.

use thiserror::Error;

/// Why there are no groups.
#[derive(Clone, Copy, Debug, PartialEq, Eq, Error)]
pub enum PossibleGroupFault {
    /// More inputs are listed than these groups can have: [`BITS_LIMIT`](search_groups::BITS_LIMIT).
    #[error("too many inputs are listed for groups of what is possible or forced")]
    TooManyInputs,
    /// Out of memory.
    #[error("out of memory")]
    Memory,
}
