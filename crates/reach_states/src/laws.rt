//! Laws over the definitions: each function does nothing, and its contract is the law.

ghost use Rattle.scan_signals.specs.Relations.{allows_kept};
ghost use Rattle.scan_signals.specs.Three.{AnyTri, three, three_allows};
ghost use Rattle.scan_signals.specs.ThreeLaws.{three_allowed, three_lattice};
ghost use Rattle.scan_signals.specs.Truth.{OnePlace};
ghost use Rattle.scan_cycle.specs.Programs.{diagram_of};
ghost use Rattle.scan_symbolic.specs.KnownScan.{plainly};
ghost use Rattle.invariant_cases.specs.Allowing.{Allows};
ghost use Rattle.reach_states.specs.Allowing.{HasRun, MayBe, ScanAllows, TimePasses};
ghost use Rattle.reach_states.specs.Untimed.{untimed};
ghost use Rattle.reach_states.specs.UntimedLaws.{untimed_keeps};

use crate::untimed::Untimed;
use diagram_program::Program;
use reach_runs::Timing;
use scan_signals::{Stored, Tri};
use scan_symbolic::partial_laws::{StepRelation, known_is_scan, scan_keeps};

/// What three values allow, and what may be stored where this is known without moments, for a scan at the moment `now`.
#[derive(Clone, Copy)]
struct AtMoment {
    timing: Timing,
    now: u64,
}

impl StepRelation for AtMoment {
    type Left = Tri;

    type Right = bool;

    type LeftKept = Untimed;

    type RightKept = Stored;

    ghost left = { untimed };

    ghost right = { plainly };

    ghost related = { λ _. Allows };

    ghost alike = { λ at d inst. MayBe (HasRun at.timing at.now (d.preset inst)) (d.kind inst) (d.preset inst) };

    ghost left_moment = { λ _. 0 };

    ghost right_moment = { λ at. at.now };

    ghost kept = { λ _. allows_kept AnyTri three OnePlace three_allows three_lattice three_allowed 0 };

    ghost steps = { λ at d. untimed_keeps at.timing at.now d };
}

/// After a scan with inputs that are known in part, what is known allows what the scan leaves for each completion of them.
pub fn scan_allows(program: &Program)
    ensures { ScanAllows (diagram_of program.now) }
{
    scan_keeps::<AtMoment>();
    known_is_scan(program);
}

/// At any later moment it is open of all timers that run whether their times have passed.
pub fn time_passes(program: &Program)
    ensures { TimePasses (diagram_of program.now) }
{
    let _program = program;
}
