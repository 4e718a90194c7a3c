//! Where a word stands.

/// A word, as the range of its bytes in the text.
#[derive(Clone, Copy, Debug, PartialEq, Eq)]
pub struct Word {
    pub start: usize,
    /// The place behind its last byte.
    pub end: usize,
}
