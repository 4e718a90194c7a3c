//! Laws over the definitions: each function does nothing, and its contract is the law.

ghost use Rattle.invariant_cases.specs.OutcomeLaws.{knows_kept, outcomes_grow};
ghost use Rattle.invariant_cases.specs.Outcomes.{KnowsMore, TellsMore, outcomes};
ghost use Rattle.invariant_sets.specs.Invariants.{AllowsAll, AllowsGiven, KnowingAllows, StaysAssuming, StaysForEver};
ghost use Rattle.invariant_sets.specs.Removing.{LeavesSo};

use diagram_program::Program;
use invariant_cases::Outcome;
use invariant_cases::laws::Allowing;
use scan_cycle::scene::checked;
use scan_signals::Tri;
use scan_symbolic::partial_laws::{StepRelation, known_is_scan, scan_keeps};

/// The second side knows what the first does, and maybe more.
#[derive(Clone, Copy)]
struct Further {
    now: u64,
}

impl StepRelation for Further {
    type Left = Tri;

    type Right = Tri;

    type LeftKept = Outcome;

    type RightKept = Outcome;

    ghost left = { outcomes };

    ghost right = { outcomes };

    ghost related = { λ _. KnowsMore };

    ghost alike = { λ _ _ _. TellsMore };

    ghost left_moment = { λ _. 0 };

    ghost right_moment = { λ _. 0 };

    ghost kept = { λ _. knows_kept };

    ghost steps = { λ _ d. outcomes_grow d };
}

/// What a scan leaves so in which what is assumed of the inputs is true is so for ever in such scans: a set, and pairs of which not both are ON.
///
/// Scans over three values settle it, by cases, from what is known where the set is so and of no pair both are ON: all other variables and Qs,
/// all inputs and all memories are open. From a state of the program in which it is so, it is so after any such scans, at any moments.
pub fn stays_assuming(program: &Program)
    ensures { StaysAssuming program.now }
{
    checked(program);
    scan_keeps::<Allowing>();
    known_is_scan(program);
}

/// The same where nothing is assumed: with any inputs.
pub fn stays_so(program: &Program)
    ensures { StaysForEver program.now }
{
    stays_assuming(program);
}

/// Scans that give each input a value, so that what is assumed is true, are allowed.
pub fn allowed_where_given(program: &Program)
    ensures { AllowsGiven program.now }
{
    checked(program);
}

/// Where nothing is assumed any scans are allowed.
pub(crate) fn nothing_assumed(program: &Program)
    ensures { AllowsAll program.now }
{
    let _program = program;
}

/// All that is known where a set is so allows each state of the program in which it is, at any moment.
pub fn knowing_allows(program: &Program)
    ensures { KnowingAllows program.now }
{
    let _program = program;
}

/// What one scan leaves so of a set it leaves so of each larger one.
pub(crate) fn leaves_so(program: &Program)
    ensures { LeavesSo program.now }
{
    scan_keeps::<Further>();
    let _program = program;
}
