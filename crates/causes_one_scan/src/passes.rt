//! By how many passes the looks of a list of causes are answered.

/// How many looks over three values one pass over 64 lanes answers at most: those at a prefix and at all that extend it by at most five
/// bits.
pub const LOOKS_BY_LANES: u64 = 63;

/// How many looks over a word one pass over four words answers at most.
pub const LOOKS_BY_FOURS: u64 = 4;

/// How many passes were made: wide looks, each of which answers several looks.
#[derive(Clone, Copy)]
pub struct Passes {
    /// Looks over 64 lanes, which answer those over three values.
    pub lanes: u64,
    /// Looks over four words, which answer those over a word.
    pub fours: u64,
}
