//! Laws over the definitions: each function does nothing, and its contract is the law.

ghost use Rattle.diff_cases.specs.Alike.{SettledAlikeHolds};

use diagram_program::Program;
use invariant_cases::laws::Allowing;
use scan_symbolic::partial_laws::{known_is_scan, scan_keeps};

/// What is settled alike is so after one scan of each program at the same moment, from any two states that agree and that what is known allows.
pub fn settled_alike(old: &Program, new: &Program)
    ensures { SettledAlikeHolds old.now new.now }
{
    scan_keeps::<Allowing>();
    known_is_scan(old);
    known_is_scan(new);
}
