//! Why there is no list of differences over several scans.

use scan_held::HeldFault;

/// Which rule is broken, and by the question of which program.
#[derive(Clone, Copy)]
pub enum HeldDifferenceFault {
    Old(HeldFault),
    New(HeldFault),
}
