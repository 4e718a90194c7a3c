//! Removing the pairs that aren't settled to stay apart.

ghost use Rattle.std.specs.Prelude.{◌≡◌, ◌+◌, ◌<◌, All, Contains, IsTrue, length};
ghost use Rattle.invariant_cases.specs.Buffers.{AreCaseBuffers, KeepBuffers};
ghost use Rattle.invariant_cases.specs.Assuming.{assumed_of};
ghost use Rattle.invariant_sets.specs.Pairs.{IsExcludedAssuming, IsToldApart};
ghost use Rattle.invariant_cases.specs.declared.pair.Pair.{Pair};

use crate::basis::Basis;
use invariant_cases::cases::settle as settle_case;
use invariant_cases::{CaseBuffers, Pair, Question};

/// Whether a pair is settled to stay apart where of no pair both are ON.
fn stays_apart(basis: Basis<'_>, pairs: &[Pair], target: Pair, buffers: &mut CaseBuffers) -> bool
    requires buffers { AreCaseBuffers basis.program.now buffers.old }
    requires some { 0 < basis.scans }
    ensures excluded { IsTrue result → IsExcludedAssuming basis.entry.program.now (assumed_of basis.entry.assumption) pairs.now target buffers.old.case }
    ensures told { IsToldApart basis.entry.program.now target buffers.old.case → IsTrue result }
    ensures buffers { KeepBuffers basis.entry.program.now buffers.old buffers.new }
{
    let question = Question {
        program: basis.program,
        writers: basis.writers,
        assumption: basis.assumption,
        pairs,
        target,
        wanted: false,
    };
    settle_case(question, buffers, basis.scans).is_settled
}

/// Goes through all pairs once, removes each that isn't settled to stay apart, and returns how many were removed.
fn remove(basis: Basis<'_>, pairs: &mut Vec<Pair>, buffers: &mut CaseBuffers) -> usize
    requires buffers { AreCaseBuffers basis.program.now buffers.old }
    requires some { 0 < basis.scans }
    ensures told { (pair : Pair) → IsToldApart basis.entry.program.now pair buffers.old.case → Contains pairs.old.items pair → Contains pairs.new.items pair }
    ensures within { All (Contains pairs.old.items) pairs.new.items }
    ensures count { length pairs.new.items + result ≡ length pairs.old.items }
    ensures excluded { result ≡ 0 → All (λ pair. IsExcludedAssuming basis.entry.program.now (assumed_of basis.entry.assumption) pairs.new.items pair buffers.old.case) pairs.new.items }
    ensures buffers { KeepBuffers basis.entry.program.now buffers.old buffers.new }
{
    let mut removed = 0;
    let mut number = 0;
    while number < pairs.len() {
        if stays_apart(basis, pairs, pairs[number], buffers) {
            number += 1;
        } else {
            pairs.remove(number);
            removed += 1;
        }
    }
    removed
}

/// Removes, again and again, what isn't settled to stay apart, until all that is left is.
pub(crate) fn settle(basis: Basis<'_>, pairs: &mut Vec<Pair>, buffers: &mut CaseBuffers)
    requires buffers { AreCaseBuffers basis.program.now buffers.old }
    requires some { 0 < basis.scans }
    ensures told { (pair : Pair) → IsToldApart basis.entry.program.now pair buffers.old.case → Contains pairs.old.items pair → Contains pairs.new.items pair }
    ensures within { All (Contains pairs.old.items) pairs.new.items }
    ensures excluded { All (λ pair. IsExcludedAssuming basis.entry.program.now (assumed_of basis.entry.assumption) pairs.new.items pair buffers.old.case) pairs.new.items }
    ensures buffers { KeepBuffers basis.entry.program.now buffers.old buffers.new }
{
    let mut removed = 1;
    while 0 < removed {
        removed = remove(basis, pairs, buffers);
    }
}
