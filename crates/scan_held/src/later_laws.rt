//! The law of a state that comes again: a function that does nothing, and whose contract is the law.

ghost use Rattle.scan_cycle.specs.Programs.{diagram_of};
ghost use Rattle.scan_held.specs.Later.{GoesOnAlike};

use crate::time_shift::TimeShift;
use diagram_program::Program;
use scan_symbolic::partial_laws::{known_is_scan, scan_keeps};

/// A state that comes again goes on alike: scans with the same inputs, as far apart in time as the two states, leave such states again.
pub fn goes_on_alike(program: &Program)
    ensures { GoesOnAlike (diagram_of program.now) }
{
    known_is_scan(program);
    scan_keeps::<TimeShift>();
}
