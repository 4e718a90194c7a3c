//! What is known of two states that agree and count, before anything is asked of them.

ghost use Rattle.std.specs.Prelude.{◌≡◌, IfOk};
ghost use Rattle.scan_partial.specs.Sizes.{AreAsLong};
ghost use Rattle.diff_cases.specs.Buffers.{AreAlikeBuffers};
ghost use Rattle.diff_meaning.specs.Counting.{AreOfPrograms};
ghost use Rattle.diff_meaning.specs.Verdicts.{pairs_of};
ghost use Rattle.diff_verdicts.specs.Carrying.{carried, carried_all, known_also, knowns_in};
ghost use Rattle.diff_verdicts.specs.Judging.{ClaimNothing, opening};

use crate::sorts::{pairs_of, point_in};
use diagram_program::Program;
use diff_cases::{AlikeBuffers, AlikeQuestion};
use diff_matching::{Matching, Pair};
use diff_meaning::{Counted, CountedStates, PairSort};
use invariant_cases::pinning::{pin, told};
use invariant_cases::{Outcome, Point};
use invariant_sets::Set;
use invariant_sets::knowing::know;
use scan_cycle::Memory;
use scan_partial::Knowledge;
use scan_signals::Tri;
use std::alloc::Global;

/// Sets that claim nothing of the two programs: what is known where they are so is what is known of any state.
#[derive(Drop)]
pub(crate) struct Nothing {
    of_old: Set,
    of_new: Set,
}

/// Such sets.
pub(crate) fn claim_nothing(alloc: Global, old: &Program, new: &Program) -> Result<Nothing, Memory>
    ensures { IfOk result (λ n. ClaimNothing old.now new.now n) }
{
    let of_old = Set::none(alloc, old)?;
    let of_new = Set::none(alloc, new)?;
    Ok(Nothing { of_old, of_new })
}

/// Knows the value of a point as well, if that is known.
fn know_also(point: Point, value: Tri, known: &mut Knowledge<Tri, Outcome>)
    ensures known { known.new ≡ known_also known.old point value }
    ensures sizes { AreAsLong known.new known.old }
{
    match value {
        Tri::Unsure => {}
        Tri::Off | Tri::On => pin(point, value, known),
    }
}

/// Knows in each program what is known in the other of what a pair names, since states that agree have the same of it.
fn carry(
    sort: PairSort,
    pair: Pair,
    of_old: &mut Knowledge<Tri, Outcome>,
    of_new: &mut Knowledge<Tri, Outcome>,
)
    ensures known { record { of_old = of_old.new; of_new = of_new.new } ≡ carried sort pair (record { of_old = of_old.old; of_new = of_new.old }) }
    ensures of_old { AreAsLong of_old.new of_old.old }
    ensures of_new { AreAsLong of_new.new of_new.old }
{
    let old_point = point_in(sort, pair.old);
    let new_point = point_in(sort, pair.new);
    let told_of_old = told(old_point, of_old);
    let told_of_new = told(new_point, of_new);
    know_also(old_point, told_of_new, of_old);
    know_also(new_point, told_of_old, of_new);
}

/// The same of all pairs of a sort.
fn carry_all(
    sort: PairSort,
    matching: &Matching,
    of_old: &mut Knowledge<Tri, Outcome>,
    of_new: &mut Knowledge<Tri, Outcome>,
)
    ensures known { record { of_old = of_old.new; of_new = of_new.new }
        ≡ carried_all sort (pairs_of sort matching.now) (record { of_old = of_old.old; of_new = of_new.old }) }
    ensures of_old { AreAsLong of_old.new of_old.old }
    ensures of_new { AreAsLong of_new.new of_new.old }
{
    let pairs = pairs_of(sort, matching);
    for number in 0..pairs.len() {
        carry(sort, pairs[number], of_old, of_new);
    }
}

/// Knows what is known of states that agree and count, but for what is assumed.
pub(crate) fn open_all(
    question: AlikeQuestion<'_>,
    counted: &Counted<'_>,
    nothing: &Nothing,
    buffers: &mut AlikeBuffers,
)
    requires counted { AreOfPrograms counted.now.states question.old.now question.new.now }
    requires nothing { ClaimNothing question.old.now question.new.now nothing.now }
    requires buffers { AreAlikeBuffers question.old.now question.new.now buffers.old }
    ensures known { knowns_in buffers.new ≡ opening counted.now question.entry.matching.now question.entry.old.now question.entry.new.now }
    ensures buffers { AreAlikeBuffers question.entry.old.now question.entry.new.now buffers.new }
{
    let of_old = &mut buffers.of_old.case;
    let of_new = &mut buffers.of_new.case;
    match &counted.states {
        CountedStates::All => {
            know(question.old, &nothing.of_old, of_old);
            know(question.new, &nothing.of_new, of_new);
        }
        CountedStates::Reachable { old, new } => {
            know(question.old, &old.steady, of_old);
            know(question.new, &new.steady, of_new);
            carry_all(PairSort::Variables, question.matching, of_old, of_new);
            carry_all(PairSort::Instances, question.matching, of_old, of_new);
        }
    }
}
