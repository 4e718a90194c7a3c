//! What searches find of two programs.

ghost use Rattle.std.specs.Prelude.{IfOk, IfSome, IsTrue, option_map};
ghost use Rattle.diff_runs.specs.Assuming.{assumptions};
ghost use Rattle.diff_runs.specs.Beside.{StandBeside};
ghost use Rattle.diff_run_verdicts.specs.Lasting.{StayAlikeIn};
ghost use Rattle.diff_run_verdicts.specs.RunVerdicts.{AreFoundAssuming};

use crate::findings::{KnownAlike, RunFindings, known_all};
use crate::lasting::lasting;
use crate::searching::{Seeking, find_with};
use diagram_program::Program;
use diff_beside::{Beside, is_part, put_beside};
use diff_matching::Matching;
use diff_runs::{Sides, TwoAssumed, are_beside};
use diff_search::prepare;
use reach_search::Limits;
use scan_cycle::Memory;
use std::alloc::Global;

/// How many looks the proof takes at most that each thing is left alike by the program in which both stand.
const LOOKS: u32 = 10_000;

/// Whether the programs really stand side by side.
fn stand_beside(alloc: Global, sides: Sides<'_>) -> Result<bool, Memory>
    ensures { IfOk result (λ so. IsTrue so → StandBeside sides.entry) }
{
    if !is_part(alloc, sides.of_old, sides.old, sides.both, LOOKS)? {
        return Ok(false);
    }
    if !is_part(alloc, sides.of_new, sides.new, sides.both, LOOKS)? {
        return Ok(false);
    }
    Ok(are_beside(sides))
}

/// What searches find. `None` where the programs don't stand side by side.
fn find_in(
    alloc: Global,
    sides: Sides<'_>,
    alike: Option<&Matching>,
    limits: Limits,
) -> Result<Option<RunFindings>, Memory>
    requires { StayAlikeIn sides.matching.now sides.old.now sides.new.now (option_map (λ m. m.now) alike) }
    ensures { IfOk result (λ found. IfSome found (AreFoundAssuming (assumptions sides.entry.assumed) sides.entry.matching.now sides.entry.old.now sides.entry.new.now)) }
{
    if !stand_beside(alloc, sides)? {
        return Ok(None);
    }
    let Some(prepared) = prepare(alloc, sides)? else {
        return Ok(None);
    };
    let seeking = Seeking {
        sides,
        prepared: &prepared,
        alike,
        limits,
    };
    let found = find_with(alloc, seeking);
    drop(prepared);
    Ok(Some(found?))
}

/// What searches find in a program in which both are to stand side by side.
fn find_beside(
    alloc: Global,
    known: KnownAlike<'_>,
    beside: &Beside,
    limits: Limits,
) -> Result<Option<RunFindings>, Memory>
    requires { StayAlikeIn known.matching.now known.old.now known.new.now (option_map (λ m. m.now) known.alike) }
    ensures { IfOk result (λ found. IfSome found (AreFoundAssuming (assumptions known.entry.assumed) known.entry.matching.now known.entry.old.now known.entry.new.now)) }
{
    let sides = Sides {
        old: known.old,
        new: known.new,
        both: &beside.program,
        matching: known.matching,
        of_old: &beside.of_old,
        of_new: &beside.of_new,
        assumed: known.assumed,
    };
    find_in(alloc, sides, known.alike, limits)
}

/// What searches find, where both can be put side by side.
fn find_some(
    alloc: Global,
    known: KnownAlike<'_>,
    limits: Limits,
) -> Result<Option<RunFindings>, Memory>
    requires { StayAlikeIn known.matching.now known.old.now known.new.now (option_map (λ m. m.now) known.alike) }
    ensures { IfOk result (λ found. IfSome found (AreFoundAssuming (assumptions known.entry.assumed) known.entry.matching.now known.entry.old.now known.entry.new.now)) }
{
    let Some(beside) = put_beside(alloc, known.old, known.new, known.matching)? else {
        return Ok(None);
    };
    let found = find_beside(alloc, known, &beside, limits);
    drop(beside);
    found
}

/// What is found, once it is known what stays alike for ever.
fn find_known(alloc: Global, known: KnownAlike<'_>, limits: Limits) -> Result<RunFindings, Memory>
    requires { StayAlikeIn known.matching.now known.old.now known.new.now (option_map (λ m. m.now) known.alike) }
    ensures { IfOk result (AreFoundAssuming (assumptions known.entry.assumed) known.entry.matching.now known.entry.old.now known.entry.new.now) }
{
    match find_some(alloc, known, limits) {
        Ok(Some(found)) => Ok(found),
        Ok(None) => known_all(alloc, known),
        Err(fault) => Err(fault),
    }
}

/// Searches, for each name that both programs have, for runs from their fresh states after which they leave it different: of each variable that a
/// coil of either writes, and of each instance. In each scan of these runs what is assumed of the inputs of each program is true. What one scan of
/// each leaves alike for ever needs no search. Each search keeps at most so many states. Where the programs don't fit into one, nothing more is
/// known.
///
/// # Errors
///
/// `Memory` when out of memory.
pub fn find_all<'a>(
    alloc: Global,
    old: &'a Program,
    new: &'a Program,
    matching: &'a Matching,
    assumed: TwoAssumed<'a>,
    limits: Limits,
) -> Result<RunFindings, Memory>
    ensures { IfOk result (AreFoundAssuming (assumptions assumed.entry) matching.now old.now new.now) }
{
    let lasting = match lasting(alloc, old, new, matching) {
        Ok(lasting) => lasting,
        Err(fault) => return Err(fault),
    };
    let found = match &lasting {
        Some(alike) => {
            let known = KnownAlike {
                old,
                new,
                matching,
                assumed,
                alike: Some(alike),
            };
            find_known(alloc, known, limits)
        }
        None => {
            let known = KnownAlike {
                old,
                new,
                matching,
                assumed,
                alike: None,
            };
            find_known(alloc, known, limits)
        }
    };
    drop(lasting);
    found
}
