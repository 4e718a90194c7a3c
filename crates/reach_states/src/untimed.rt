//! What is known of an instance without a moment.

use scan_signals::Tri;

/// What is known of an instance without a moment: a timer keeps for how long it has run, in place of when it began.
#[derive(Clone, Copy, Debug, PartialEq, Eq)]
pub enum Untimed {
    Timer {
        /// The last IN.
        last: bool,
        running: bool,
        /// For how long it has run, in milliseconds, at most its preset.
        elapsed: u32,
        q: bool,
    },
    Counter {
        /// The last count input.
        last: bool,
        /// CV as far as it matters: at most the preset of a CTU, and at least 0 of a CTD.
        cv: i16,
        q: bool,
    },
    /// An instance of its kind with this Q: all that a bistable stores.
    Output(Tri),
    Anything,
}
