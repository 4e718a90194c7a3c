//! Finding a set and pairs that stay so together: each may keep up the other.

ghost use Rattle.std.specs.Prelude.{◌≡◌, ◌<◌, IfOk, IfSome, None};
ghost use Rattle.invariant_cases.specs.Buffers.{AreCaseBuffers};
ghost use Rattle.invariant_sets.specs.Never.{IsSetOf, knowing};
ghost use Rattle.invariant_cases.specs.Assuming.{assumed_of};
ghost use Rattle.invariant_sets.specs.Pairs.{ArePairsAssuming, HasToldApart};
ghost use Rattle.invariant_sets.specs.Removing.{IsLeftOf, MayStayApart, StayTogether, size};
ghost use Rattle.scan_partial.specs.Sizes.{HasSizes};

use crate::basis::Basis;
use crate::first_pairs::begin;
use crate::history::History;
use crate::knowing::know;
use crate::removing_claims::remove;
use crate::removing_pairs::settle as settle_pairs;
use crate::set::Set;
use diagram_program::Program;
use invariant_cases::{Assumption, CaseBuffers, Outcome, Pair, Writers};
use scan_cycle::{Memory, State};
use scan_partial::{Knowledge, scan_known};
use scan_signals::Tri;
use std::alloc::Global;

/// From where what stays so is sought, and by how many scans in each round.
#[derive(Clone, Copy)]
pub(crate) struct Start<'a> {
    pub program: &'a Program,
    pub state: &'a State,
    /// What random scans from the state leave ON.
    pub history: &'a History,
    /// Where the program writes what.
    pub writers: &'a Writers,
    /// What is assumed of the inputs.
    pub assumption: Assumption<'a>,
    /// How many scans may settle one claim.
    pub scans: u32,
    /// How many scans may settle one pair.
    pub pair_scans: u32,
}

/// The pairs that may stay apart where the set is so. The buffers then have what is known there, and after it one scan from there.
fn first_pairs(
    alloc: Global,
    start: Start<'_>,
    set: &Set,
    after: &mut Knowledge<Tri, Outcome>,
    buffers: &mut CaseBuffers,
) -> Result<Vec<Pair>, Memory>
    requires set { IsSetOf start.program.now set.now }
    requires after { HasSizes start.program.now after.old }
    requires buffers { AreCaseBuffers start.program.now buffers.old }
    ensures may { IfOk result (λ pairs. MayStayApart start.entry.program.now start.entry.state.now set.now pairs.items) }
    ensures after { HasSizes start.entry.program.now after.new }
    ensures buffers { AreCaseBuffers start.entry.program.now buffers.new }
    ensures case { buffers.new.case ≡ knowing start.entry.program.now set.now }
{
    know(start.program, set, &mut buffers.case);
    after.copy_from(&buffers.case);
    scan_known(start.program, after, &[], 0, &mut buffers.room);
    let pairs = begin(alloc, start.program, start.state, start.history, set, after)?;
    Ok(pairs)
}

/// The pairs that stay apart where the set is so.
pub(crate) fn apart_from(
    alloc: Global,
    start: Start<'_>,
    set: &Set,
    after: &mut Knowledge<Tri, Outcome>,
    buffers: &mut CaseBuffers,
) -> Result<Vec<Pair>, Memory>
    requires set { IsSetOf start.program.now set.now }
    requires after { HasSizes start.program.now after.old }
    requires buffers { AreCaseBuffers start.program.now buffers.old }
    ensures are { IfOk result (λ pairs. ArePairsAssuming start.entry.program.now (assumed_of start.entry.assumption) start.entry.state.now set.now pairs.items) }
    ensures told { IfOk result (λ pairs. HasToldApart start.entry.program.now start.entry.state.now set.now pairs.items) }
{
    let mut pairs = first_pairs(alloc, start, set, after, buffers)?;
    let basis = Basis {
        program: start.program,
        writers: start.writers,
        assumption: start.assumption,
        scans: start.pair_scans.max(1),
    };
    settle_pairs(basis, &mut pairs, buffers);
    Ok(pairs)
}

/// The pairs that stay apart where the set is so, where they keep up all of it; nothing where claims had to be removed from it.
fn round(
    alloc: Global,
    start: Start<'_>,
    set: &mut Set,
    after: &mut Knowledge<Tri, Outcome>,
    buffers: &mut CaseBuffers,
) -> Result<Option<Vec<Pair>>, Memory>
    requires set { IsSetOf start.program.now set.old }
    requires after { HasSizes start.program.now after.old }
    requires buffers { AreCaseBuffers start.program.now buffers.old }
    ensures left { IfOk result (λ _. IsLeftOf start.entry.program.now set.old set.new) }
    ensures fewer { IfOk result (λ pairs. pairs ≡ None → size set.new < size set.old) }
    ensures together { IfOk result (λ pairs. IfSome pairs (λ ps. StayTogether start.entry.program.now (assumed_of start.entry.assumption) start.entry.state.now set.new ps.items)) }
    ensures after { IfOk result (λ _. HasSizes start.entry.program.now after.new) }
    ensures buffers { IfOk result (λ _. AreCaseBuffers start.entry.program.now buffers.new) }
{
    let of_claims = Basis {
        program: start.program,
        writers: start.writers,
        assumption: start.assumption,
        scans: start.scans,
    };
    let of_pairs = Basis {
        program: start.program,
        writers: start.writers,
        assumption: start.assumption,
        scans: start.pair_scans.max(1),
    };
    let mut pairs = first_pairs(alloc, start, set, after, buffers)?;
    // What isn't kept up by pairs that may yet go isn't by those that are left: to see that needs no search for these.
    if 0 < remove(of_claims, &pairs, set, after, buffers) {
        return Ok(None);
    }
    settle_pairs(of_pairs, &mut pairs, buffers);
    if 0 < remove(of_claims, &pairs, set, after, buffers) {
        return Ok(None);
    }
    Ok(Some(pairs))
}

/// Removes claims from the set until all that is left stays so together with the pairs that are returned.
pub(crate) fn settle(
    alloc: Global,
    start: Start<'_>,
    set: &mut Set,
    after: &mut Knowledge<Tri, Outcome>,
    buffers: &mut CaseBuffers,
) -> Result<Vec<Pair>, Memory>
    requires set { IsSetOf start.program.now set.old }
    requires after { HasSizes start.program.now after.old }
    requires buffers { AreCaseBuffers start.program.now buffers.old }
    ensures left { IfOk result (λ _. IsLeftOf start.entry.program.now set.old set.new) }
    ensures together { IfOk result (λ pairs. StayTogether start.entry.program.now (assumed_of start.entry.assumption) start.entry.state.now set.new pairs.items) }
    ensures after { IfOk result (λ _. HasSizes start.entry.program.now after.new) }
    ensures buffers { IfOk result (λ _. AreCaseBuffers start.entry.program.now buffers.new) }
{
    loop {
        if let Some(pairs) = round(alloc, start, set, after, buffers)? {
            return Ok(pairs);
        }
    }
}
