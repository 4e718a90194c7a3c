//! Two states, the second of which is the first one come again, later.

ghost use Rattle.std.specs.Prelude.{◌≡◌, ◌+◌};
ghost use Rattle.scan_symbolic.specs.KnownScan.{plainly};
ghost use Rattle.scan_held.specs.Shifting.{IsLater};
ghost use Rattle.scan_held.specs.ShiftingLaws.{plain_same, steps_later};

use scan_signals::Stored;
use scan_symbolic::partial_laws::StepRelation;

/// Equal truth values, and blocks that are the same again later by `shift`, so far as scans from `moment` on can tell. The first scan
/// is made `wait` after that moment, and the second later by `shift`.
#[derive(Clone, Copy)]
pub(crate) struct TimeShift {
    moment: u64,
    wait: u64,
    shift: u64,
}

impl StepRelation for TimeShift {
    type Left = bool;

    type Right = bool;

    type LeftKept = Stored;

    type RightKept = Stored;

    ghost left = { plainly };

    ghost right = { plainly };

    ghost related = { λ at x y. x ≡ y };

    ghost alike = { λ at d inst. IsLater (d.preset inst) at.moment at.shift };

    ghost left_moment = { λ at. at.moment + at.wait };

    ghost right_moment = { λ at. at.moment + at.wait + at.shift };

    ghost kept = { λ at. plain_same };

    ghost steps = { λ at d. steps_later d at.moment at.shift at.wait };
}
