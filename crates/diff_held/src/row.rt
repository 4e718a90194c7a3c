//! The row of a number: its first scans in both programs.

/// A number of a combination, and for each program the first scan after which the coil's variable is ON with it, held: counted from 1, or
/// None where there is none.
#[derive(Clone, Copy)]
pub struct HeldDifference {
    pub number: u64,
    pub of_old: Option<u64>,
    pub of_new: Option<u64>,
}
