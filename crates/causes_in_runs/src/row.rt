//! A row of causes that were asked of the runs.

/// What is known of the runs to a number.
#[derive(Clone, Copy, PartialEq, Eq)]
pub enum Reached {
    /// A run comes to it.
    Run,
    /// Some state that counts leads to it; whether a run comes to it isn't settled.
    Possible,
    /// Not even that is settled.
    Unsettled,
}

/// A row: the number of an assignment, and what is known of the runs to it.
#[derive(Clone, Copy, PartialEq, Eq)]
pub struct RunCause {
    pub number: u64,
    pub reached: Reached,
}
