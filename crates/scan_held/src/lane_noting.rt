//! The first scan of each lane, noted scan by scan.

ghost use Rattle.std.specs.Prelude.{◌≡◌, ◌+◌, ◌<◌, ◌↔◌, ℕ, None, length, slice_index_or, EachIndex, IsSome, IsTrue};
ghost use Rattle.scan_held.specs.declared.lanes.TheConstants.{LANES};
ghost use Rattle.scan_held.specs.Lanes.{bit};
ghost use Rattle.scan_held.specs.Noting.{noted};

use crate::lane_stepping::bit;
use crate::lanes::LANES;
use scan_signals::Word64;

/// Notes for no lane a scan.
pub(crate) fn clear(firsts: &mut [Option<u64>])
    ensures { (i : ℕ) → slice_index_or firsts.new i None ≡ None }
{
    for lane in 0..firsts.len() {
        firsts[lane] = None;
    }
}

/// Notes this scan as the first one for each lane that is ON and has none yet.
pub(crate) fn note(value: Word64, scan: u64, firsts: &mut [Option<u64>])
    requires { length firsts.old ≡ LANES }
    ensures { (i : ℕ) → i < LANES → slice_index_or firsts.new i None ≡ noted (bit value i) scan (slice_index_or firsts.old i None) }
{
    if value.0 == 0 {
        return;
    }
    for lane in 0..LANES {
        if firsts[lane].is_none() && bit(value, lane) {
            firsts[lane] = Some(scan);
        }
    }
}

/// Whether a first scan is noted for each lane.
pub(crate) fn have_all(firsts: &[Option<u64>]) -> bool
    ensures { IsTrue result ↔ EachIndex firsts.now (λ i. IsSome (slice_index_or firsts.now i None)) }
{
    for lane in 0..firsts.len() {
        if firsts[lane].is_none() {
            return false;
        }
    }
    true
}
