//! Laws over the definitions: each function does nothing, and its contract is the law.

ghost use Rattle.std.specs.Prelude.{ℕ};
ghost use Rattle.scan_signals.specs.Relations.{IsKept};
ghost use Rattle.scan_cycle.specs.Cells.{Diagram};
ghost use Rattle.scan_cycle.specs.Programs.{diagram_of};
ghost use Rattle.scan_symbolic.specs.KnownScan.{Keeping};
ghost use Rattle.scan_symbolic.specs.KnownLaws.{KnownIsScan, ScanKeeps, StepsKeep};

use diagram_program::Program;
use scan_cycle::scene::checked;
use scan_signals::Signal;

/// A relation between two signals and one between two ways to keep an instance, for each value of `Self`: every operation keeps the
/// first, and every step, made at a moment on either side, the second.
pub trait StepRelation {
    type Left: Signal;

    type Right: Signal;

    type LeftKept;

    type RightKept;

    ghost left: { Keeping Self.Left Self.LeftKept };

    ghost right: { Keeping Self.Right Self.RightKept };

    ghost related: { Self → Self.Left → Self.Right → Type 0 };

    ghost alike: { Self → Diagram → ℕ → Self.LeftKept → Self.RightKept → Type 0 };

    ghost left_moment: { Self → ℕ };

    ghost right_moment: { Self → ℕ };

    ghost kept: { (at : Self) → IsKept Self.Left.algebra Self.Right.algebra (related at) };

    ghost steps: { (at : Self) (d : Diagram) → StepsKeep d left right (related at) (alike at d) (left_moment at) (right_moment at) };
}

/// A scan keeps each such relation: from states that are related, each known in part, it leaves related ones.
pub fn scan_keeps<R: StepRelation>()
    ensures { (at : R) (d : Diagram) → ScanKeeps d R.Left.algebra R.Right.algebra R.left R.right (R.related at) (R.alike at d) (R.left_moment at) (R.right_moment at) }
{}

/// From a state that is known, the scan over what is known is the scan.
pub fn known_is_scan(program: &Program)
    ensures { KnownIsScan (diagram_of program.now) }
{
    checked(program);
}
