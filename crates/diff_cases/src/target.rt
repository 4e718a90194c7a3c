//! What two programs leave alike, or not.

use diff_matching::Pair;

/// A variable of each program, a memory of each, or all that an instance of each stores.
#[derive(Clone, Copy, PartialEq, Eq)]
pub enum Target {
    Variable(Pair),
    Memory(Pair),
    Contents(Pair),
}
