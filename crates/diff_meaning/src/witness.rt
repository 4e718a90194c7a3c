//! The states that show a difference.

use diff_cases::Target;
use scan_cycle::State;

/// States of both programs that show a difference, and what one scan of each at [`MOMENT`](crate::MOMENT) leaves of it.
#[derive(Drop)]
pub struct Witness {
    pub target: Target,
    pub old_state: State,
    pub new_state: State,
    pub of_old: bool,
    pub of_new: bool,
}
