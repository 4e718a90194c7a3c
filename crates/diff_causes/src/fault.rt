//! Why there is no list of differences.

use causes_query::CauseFault;

/// Which rule is broken, and by the question of which program.
#[derive(Clone, Copy, Debug, PartialEq, Eq)]
pub enum DifferenceFault {
    Old(CauseFault),
    New(CauseFault),
}
