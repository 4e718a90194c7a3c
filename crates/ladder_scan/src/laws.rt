//! Laws over the definitions: each function does nothing, and its contract is the law.

pub use scan_cycle::laws::scan_follows_jumps;
pub use scan_signals::laws::histories;
pub use scan_symbolic::laws::{look_is_scan, related, sound};
