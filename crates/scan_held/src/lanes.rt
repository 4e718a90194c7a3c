//! What 64 places store of an instance.

use scan_signals::{Stored, Word64};

/// How many lanes there are: the places of a word.
pub const LANES: usize = 64;

/// What is stored in each of 64 lanes.
#[derive(Clone, Copy)]
pub enum Lanes {
    /// The same in all of them.
    Alike(Stored),
    /// One of two, with the word of their Qs: what the lanes store that are ON in a word, and what those store that are OFF in it.
    Two {
        q: Word64,
        word: Word64,
        on: Stored,
        off: Stored,
    },
    /// Each lane's own, and the word of their Qs.
    Apart {
        q: Word64,
        stored: [Stored; LANES],
    },
}
