//! The laws of looks through several scans: each function does nothing, and its contract is the law.

ghost use Rattle.scan_signals.specs.Relations.{AllowsAt, allows_kept};
ghost use Rattle.scan_signals.specs.Truth.{OnePlace};
ghost use Rattle.scan_cycle.specs.Cells.{Diagram};
ghost use Rattle.scan_cycle.specs.Programs.{diagram_of};
ghost use Rattle.scan_symbolic.specs.KnownScan.{plainly};
ghost use Rattle.scan_signals.specs.Three.{AnyTri, three, three_allows};
ghost use Rattle.scan_signals.specs.ThreeLaws.{three_allowed, three_lattice};
ghost use Rattle.scan_held.specs.Again.{KnownGoesOnAlike, KnownRepeatsStayOff};
ghost use Rattle.scan_held.specs.Partly.{may_store, partly};
ghost use Rattle.scan_held.specs.PartlyLaws.{partly_keeps};
ghost use Rattle.scan_held.specs.SeveralLaws.{AllowsScans};

use crate::partly::Partly;
use diagram_program::Program;
use scan_signals::{Stored, Tri};
use scan_symbolic::partial_laws::{StepRelation, known_is_scan, scan_keeps};

/// What three values allow, and what may be stored, at the moment of a scan.
#[derive(Clone, Copy)]
struct PartlyAt {
    now: u64,
}

impl StepRelation for PartlyAt {
    type Left = Tri;

    type Right = bool;

    type LeftKept = Partly;

    type RightKept = Stored;

    ghost left = { partly };

    ghost right = { plainly };

    ghost related = { λ _. AllowsAt AnyTri OnePlace three_allows 0 };

    ghost alike = { λ _ _ _. may_store };

    ghost left_moment = { λ at. at.now };

    ghost right_moment = { λ at. at.now };

    ghost kept = { λ _. allows_kept AnyTri three OnePlace three_allows three_lattice three_allowed 0 };

    ghost steps = { λ at d. partly_keeps at.now d };
}

/// After each of several scans with inputs that are known in part, at whatever moments, what is known allows what the scans leave for
/// each completion of the inputs. Where the first scan that is not known to leave a variable OFF is known to leave it ON, it is the first
/// after which the variable is ON for each completion.
pub fn several(program: &Program)
    ensures { AllowsScans (diagram_of program.now) }
{
    scan_keeps::<PartlyAt>();
    known_is_scan(program);
}

/// What is known and comes again goes on alike: scans with the same inputs, as far apart in time, leave what is alike again.
pub fn goes_on_alike()
    ensures { (d : Diagram) → KnownGoesOnAlike d }
{}

/// Where what is known comes again, but for the time between, and the variable was known to be OFF until then, it is after every scan.
pub fn repeats()
    ensures { (d : Diagram) → KnownRepeatsStayOff d }
{
    goes_on_alike();
}
