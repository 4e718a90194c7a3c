//! How many inputs a list of causes may have.

/// How many inputs a list of causes has at most.
pub const LISTED_LIMIT: usize = 32;
