//! Which states count, by the coil's variable.

/// Which states count, by the coil's variable before the scan.
#[derive(Clone, Copy, Debug, PartialEq, Eq)]
pub enum Before {
    /// Each state.
    Any,
    /// Those in which it is OFF, so that what leaves it ON has switched it on.
    Off,
}
