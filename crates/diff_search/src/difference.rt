//! What is known of a difference in runs.

use reach_runs::RunScan;

/// Runs of two programs that show a difference: at the same moments one scan of each.
#[derive(Drop)]
pub struct TwoRuns {
    /// What the last scan leaves of the symbol of the old program. It leaves the other value of the symbol of the new one.
    pub value: bool,
    pub old: Vec<RunScan>,
    pub new: Vec<RunScan>,
}

/// What is known of a difference of two symbols in runs from the fresh states.
#[derive(Drop)]
pub enum RunDifference {
    /// These runs show it.
    Shown(TwoRuns),
    /// No runs ever do.
    Never,
    /// It isn't settled. No runs of at most so many scans do.
    Open(u64),
}
