//! Laws over the definitions: each function does nothing, and its contract is the law.

ghost use Rattle.scan_signals.specs.Relations.{AllowsAt, allows_kept};
ghost use Rattle.scan_signals.specs.Truth.{OnePlace};
ghost use Rattle.scan_symbolic.specs.KnownScan.{plainly};
ghost use Rattle.invariant_cases.specs.Allowing.{SettledBothHolds, SettledHoldsAssuming};
ghost use Rattle.invariant_cases.specs.OutcomeLaws.{outcomes_keep};
ghost use Rattle.invariant_cases.specs.Outcomes.{MayStore, outcomes};
ghost use Rattle.scan_signals.specs.Three.{AnyTri, three, three_allows};
ghost use Rattle.scan_signals.specs.ThreeLaws.{three_allowed, three_lattice};

use crate::outcome::Outcome;
use diagram_program::Program;
use scan_signals::{Stored, Tri};
use scan_symbolic::partial_laws::{StepRelation, known_is_scan, scan_keeps};

/// What three values allow, and what may be stored, where the scan over truth values is made at this moment.
#[derive(Clone, Copy)]
pub struct Allowing {
    now: u64,
}

impl StepRelation for Allowing {
    type Left = Tri;

    type Right = bool;

    type LeftKept = Outcome;

    type RightKept = Stored;

    ghost left = { outcomes };

    ghost right = { plainly };

    ghost related = { λ _. AllowsAt AnyTri OnePlace three_allows 0 };

    ghost alike = { λ at d inst. MayStore (d.kind inst) (d.preset inst) at.now };

    ghost left_moment = { λ _. 0 };

    ghost right_moment = { λ at. at.now };

    ghost kept = { λ _. allows_kept AnyTri three OnePlace three_allows three_lattice three_allowed 0 };

    ghost steps = { λ at d. outcomes_keep at.now d };
}

/// What is settled of both of a pair is so after a scan from each state that what is known allows at its moment, in which of no pair both are ON
/// and what is assumed is true, where inputs keep their values.
pub fn settled_assuming(program: &Program)
    ensures { SettledHoldsAssuming program.now }
{
    scan_keeps::<Allowing>();
    known_is_scan(program);
}

/// The same where nothing is assumed.
pub fn settled_both(program: &Program)
    ensures { SettledBothHolds program.now }
{
    scan_keeps::<Allowing>();
    known_is_scan(program);
}
