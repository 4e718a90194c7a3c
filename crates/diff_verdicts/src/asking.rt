//! Whether the target is left alike from all states that agree and count, or which of them show a difference.

ghost use Rattle.std.specs.Prelude.{◌≡◌, ◌<◌, ◌↔◌, IfSome, IsNone, IsTrue, false};
ghost use Rattle.diff_cases.specs.Alike.{IsComparable};
ghost use Rattle.diff_cases.specs.Assuming.{assumed_of_both};
ghost use Rattle.diff_cases.specs.Buffers.{AreAlikeBuffers};
ghost use Rattle.diff_meaning.specs.Counting.{AreOfPrograms, CountAssuming};
ghost use Rattle.diff_meaning.specs.Verdicts.{CanBeJudged, LeavesAlikeWhere, Shows};
ghost use Rattle.diff_verdicts.specs.Judging.{AreTried, ClaimNothing, IsToldAtOnce};

use crate::checking::{Ends, Tried};
use crate::opening::{Nothing, open_all};
use crate::seeking::seek;
use diff_cases::cases::settle;
use diff_cases::laws::settled_alike;
use diff_cases::partners::are_of_one_kind;
use diff_cases::{AlikeBuffers, AlikeQuestion, Target};
use diff_meaning::{Counted, CountedStates};
use invariant_sets::laws::knowing_allows;

/// Whether the target can be compared by its steps.
fn is_comparable(question: AlikeQuestion<'_>) -> bool
    requires { CanBeJudged question.matching.now question.target }
    ensures { IsTrue result ↔ IsComparable question.entry.matching.now question.entry.old.now question.entry.new.now question.entry.target }
{
    match question.target {
        Target::Contents(pair) => are_of_one_kind(question.old, question.new, pair),
        Target::Variable(_) | Target::Memory(_) => true,
    }
}

/// Whether at most so many looks settle that the target is left alike from all states that agree and count.
fn is_same_among(
    question: AlikeQuestion<'_>,
    counted: &Counted<'_>,
    nothing: &Nothing,
    buffers: &mut AlikeBuffers,
    looks: u32,
) -> bool
    requires target { CanBeJudged question.matching.now question.target }
    requires counted { AreOfPrograms counted.now.states question.old.now question.new.now }
    requires assumed { assumed_of_both question.assumed ≡ assumed_of_both counted.now.assumed }
    requires nothing { ClaimNothing question.old.now question.new.now nothing.now }
    requires buffers { AreAlikeBuffers question.old.now question.new.now buffers.old }
    ensures same { IsTrue result
        → LeavesAlikeWhere (CountAssuming counted.now) question.entry.matching.now question.entry.old.now question.entry.new.now question.entry.target }
    ensures at_once { 0 < looks
        → IsToldAtOnce counted.now question.entry.matching.now question.entry.old.now question.entry.new.now question.entry.target → IsTrue result }
    ensures none { looks ≡ 0 → result ≡ false }
    ensures buffers { AreAlikeBuffers question.entry.old.now question.entry.new.now buffers.new }
{
    knowing_allows(question.old);
    knowing_allows(question.new);
    settled_alike(question.old, question.new);
    open_all(question, counted, nothing, buffers);
    is_comparable(question) && settle(question, buffers, looks).is_settled
}

/// Whether at most so many looks settle that the target is left alike from all states that agree in which what is assumed is true.
fn is_same_everywhere(
    question: AlikeQuestion<'_>,
    counted: &Counted<'_>,
    nothing: &Nothing,
    buffers: &mut AlikeBuffers,
    looks: u32,
) -> bool
    requires target { CanBeJudged question.matching.now question.target }
    requires assumed { assumed_of_both question.assumed ≡ assumed_of_both counted.now.assumed }
    requires nothing { ClaimNothing question.old.now question.new.now nothing.now }
    requires buffers { AreAlikeBuffers question.old.now question.new.now buffers.old }
    ensures same { IsTrue result
        → LeavesAlikeWhere (CountAssuming counted.now) question.entry.matching.now question.entry.old.now question.entry.new.now question.entry.target }
    ensures none { looks ≡ 0 → result ≡ false }
    ensures buffers { AreAlikeBuffers question.entry.old.now question.entry.new.now buffers.new }
{
    let all = Counted {
        states: CountedStates::All,
        assumed: counted.assumed,
    };
    let is_same = is_same_among(question, &all, nothing, buffers, looks);
    drop(all);
    is_same
}

/// Whether at most so many looks settle that the target is left alike from all states that agree and count, or else as many that it is from all
/// states that agree in which what is assumed is true: less is known of these, so other cases are looked at.
pub(crate) fn is_same(
    question: AlikeQuestion<'_>,
    counted: &Counted<'_>,
    nothing: &Nothing,
    buffers: &mut AlikeBuffers,
    looks: u32,
) -> bool
    requires target { CanBeJudged question.matching.now question.target }
    requires counted { AreOfPrograms counted.now.states question.old.now question.new.now }
    requires assumed { assumed_of_both question.assumed ≡ assumed_of_both counted.now.assumed }
    requires nothing { ClaimNothing question.old.now question.new.now nothing.now }
    requires buffers { AreAlikeBuffers question.old.now question.new.now buffers.old }
    ensures same { IsTrue result
        → LeavesAlikeWhere (CountAssuming counted.now) question.entry.matching.now question.entry.old.now question.entry.new.now question.entry.target }
    ensures at_once { 0 < looks
        → IsToldAtOnce counted.now question.entry.matching.now question.entry.old.now question.entry.new.now question.entry.target → IsTrue result }
    ensures none { looks ≡ 0 → result ≡ false }
    ensures buffers { AreAlikeBuffers question.entry.old.now question.entry.new.now buffers.new }
{
    if is_same_among(question, counted, nothing, buffers, looks) {
        return true;
    }
    match counted.states {
        CountedStates::All => false,
        CountedStates::Reachable { .. } => {
            is_same_everywhere(question, counted, nothing, buffers, looks)
        }
    }
}

/// What two scans leave of the target from states that agree and count, where at most so many looks find such that leave it different.
pub(crate) fn find(
    question: AlikeQuestion<'_>,
    counted: &Counted<'_>,
    nothing: &Nothing,
    buffers: &mut AlikeBuffers,
    tried: &mut Tried,
    looks: u32,
) -> Option<Ends>
    requires counted { AreOfPrograms counted.now.states question.old.now question.new.now }
    requires nothing { ClaimNothing question.old.now question.new.now nothing.now }
    requires buffers { AreAlikeBuffers question.old.now question.new.now buffers.old }
    requires tried { AreTried question.old.now question.new.now tried.old }
    ensures shown { IfSome result (λ ends. Shows (CountAssuming counted.now) question.entry.matching.now question.entry.old.now question.entry.new.now question.entry.target
        tried.new.old_state tried.new.new_state ends.of_old ends.of_new) }
    ensures none { looks ≡ 0 → IsNone result }
    ensures buffers { AreAlikeBuffers question.entry.old.now question.entry.new.now buffers.new }
    ensures tried { AreTried question.entry.old.now question.entry.new.now tried.new }
{
    open_all(question, counted, nothing, buffers);
    seek(question, counted, buffers, tried, looks).found
}
