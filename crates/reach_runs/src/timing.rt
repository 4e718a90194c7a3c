//! When the scans of a run are.

/// When the scans of a run are.
#[derive(Clone, Copy, Debug, PartialEq, Eq)]
pub enum Timing {
    /// At any moments that don't fall.
    AnyMoments,
    /// One every so many milliseconds.
    Every(u64),
}
