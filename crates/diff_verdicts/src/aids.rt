//! What a judge searches with.

ghost use Rattle.std.specs.Prelude.{IfOk};
ghost use Rattle.diff_cases.specs.Buffers.{AreAlikeBuffers};
ghost use Rattle.diff_verdicts.specs.Judging.{AreTried, ClaimNothing};

use crate::checking::{Tried, new_tried};
use crate::opening::{Nothing, claim_nothing};
use diagram_program::Program;
use diff_cases::AlikeBuffers;
use diff_matching::Matching;
use invariant_cases::Writers;
use scan_cycle::Memory;
use std::alloc::Global;

/// The writers of what both programs store.
#[derive(Drop)]
pub(crate) struct BothWriters {
    pub of_old: Writers,
    pub of_new: Writers,
}

/// What is known of both programs.
#[derive(Drop)]
pub(crate) struct Aids {
    pub nothing: Nothing,
    pub buffers: AlikeBuffers,
}

/// What is known of both programs, and the states that are tried.
#[derive(Drop)]
pub(crate) struct Means {
    pub aids: Aids,
    pub tried: Tried,
}

/// The writers of both programs.
pub(crate) fn writers_of(
    alloc: Global,
    old: &Program,
    new: &Program,
) -> Result<BothWriters, Memory> {
    let of_old = Writers::new(alloc, old)?;
    match Writers::new(alloc, new) {
        Ok(of_new) => Ok(BothWriters { of_old, of_new }),
        Err(fault) => {
            drop(of_old);
            Err(fault)
        }
    }
}

/// Sets that claim nothing, and room for what is known.
fn aids_for(
    alloc: Global,
    old: &Program,
    new: &Program,
    matching: &Matching,
) -> Result<Aids, Memory>
    ensures nothing { IfOk result (λ a. ClaimNothing old.now new.now a.nothing) }
    ensures buffers { IfOk result (λ a. AreAlikeBuffers old.now new.now a.buffers) }
{
    let nothing = claim_nothing(alloc, old, new)?;
    match AlikeBuffers::new(alloc, old, new, matching) {
        Ok(buffers) => Ok(Aids { nothing, buffers }),
        Err(fault) => {
            drop(nothing);
            Err(fault)
        }
    }
}

/// The same, and states to be tried.
pub(crate) fn searching_with(
    alloc: Global,
    old: &Program,
    new: &Program,
    matching: &Matching,
) -> Result<Means, Memory>
    ensures nothing { IfOk result (λ m. ClaimNothing old.now new.now m.aids.nothing) }
    ensures buffers { IfOk result (λ m. AreAlikeBuffers old.now new.now m.aids.buffers) }
    ensures tried { IfOk result (λ m. AreTried old.now new.now m.tried) }
{
    let tried = new_tried(alloc, old, new)?;
    match aids_for(alloc, old, new, matching) {
        Ok(aids) => Ok(Means { aids, tried }),
        Err(fault) => {
            drop(tried);
            Err(fault)
        }
    }
}
