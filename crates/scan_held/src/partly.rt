//! What is known of an instance while inputs are open.

use scan_signals::{Stored, Tri};

/// What is known of an instance: what it stores; or its sort alone, with what is known of its Q; or nothing.
#[derive(Clone, Copy, Debug, PartialEq, Eq)]
pub enum Partly {
    Exactly(Stored),
    /// A timer with this Q, and likewise for the next two.
    SomeTimer(Tri),
    SomeCounter(Tri),
    SomeBistable(Tri),
    /// A block of any sort.
    Anything,
}
