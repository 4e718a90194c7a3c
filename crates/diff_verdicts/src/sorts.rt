//! What the pairs of a sort name.

ghost use Rattle.std.specs.Prelude.{◌≡◌};
ghost use Rattle.diff_meaning.specs.Verdicts.{pairs_of, target_of};
ghost use Rattle.diff_verdicts.specs.Carrying.{point_in};

use diff_cases::Target;
use diff_matching::{Matching, Pair};
use diff_meaning::PairSort;
use invariant_cases::Point;

/// The pairs of a sort.
pub(crate) fn pairs_of(sort: PairSort, matching: &Matching) -> &[Pair]
    ensures { result.now ≡ pairs_of sort matching.now }
{
    match sort {
        PairSort::Variables => matching.variables(),
        PairSort::Instances => matching.instances(),
        PairSort::Memories => matching.memories(),
    }
}

/// What a pair of a sort names.
pub(crate) fn target_of(sort: PairSort, pair: Pair) -> Target
    ensures { result ≡ target_of sort pair }
{
    match sort {
        PairSort::Variables => Target::Variable(pair),
        PairSort::Instances => Target::Contents(pair),
        PairSort::Memories => Target::Memory(pair),
    }
}

/// The point that a pair of a sort names in a program by this number.
pub(crate) fn point_in(sort: PairSort, number: usize) -> Point
    ensures { result ≡ point_in sort number }
{
    match sort {
        PairSort::Variables => Point::Variable(number),
        PairSort::Instances => Point::Output(number),
        PairSort::Memories => Point::Memory(number),
    }
}
