//! The searches for runs that show differences, once it is known that two programs stand side by side in one.

ghost use Rattle.std.specs.Prelude.{◌≡◌, [], IfOk, OnOk, option_map};
ghost use Rattle.diff_runs.specs.Assuming.{assumptions};
ghost use Rattle.diff_runs.specs.Beside.{StandBeside};
ghost use Rattle.diff_search.specs.Differences.{IsPrepared, IsTrueInRunsAssuming};
ghost use Rattle.diff_run_verdicts.specs.Lasting.{StayAlikeIn};
ghost use Rattle.diff_run_verdicts.specs.RunVerdicts.{AreFoundAssuming, AreOfPairs};

use crate::findings::{KnownAlike, RunFindings, nothing_known, stay_alike};
use crate::names::{NameSort, pairs_of, symbols_of};
use diagram_declarations::Symbol;
use diff_matching::Matching;
use diff_runs::{Sides, TwoSymbols, symbols_in};
use diff_search::{Prepared, RunDifference, seek_difference};
use reach_search::Limits;
use scan_cycle::Memory;
use std::alloc::Global;

/// How many states a search keeps at first.
const FEW: usize = 1_000;

/// What each search reads.
#[derive(Clone, Copy)]
pub(crate) struct Seeking<'a> {
    pub sides: Sides<'a>,
    pub prepared: &'a Prepared,
    /// What stays alike for ever, which isn't searched for.
    pub alike: Option<&'a Matching>,
    pub limits: Limits,
}

/// Whether a row tells what is judged of the symbols: of instances always, of variables where a coil of either program writes one.
fn has_row(sides: Sides<'_>, symbols: TwoSymbols) -> bool {
    match (symbols.old, symbols.new) {
        (Symbol::Var(old), Symbol::Var(new)) => sides.old.has_coil(old) || sides.new.has_coil(new),
        _ => true,
    }
}

/// Limits with few states.
fn few(limits: Limits) -> Limits {
    Limits {
        states: limits.states.min(FEW),
        scans: limits.scans,
        gap: limits.gap,
    }
}

/// What a search finds of two symbols. What has no row isn't searched for. Of the two ways in which they may differ often one has no run, so that a
/// search for it ends by its limit alone: few states are tried first.
fn find_one(
    alloc: Global,
    seeking: Seeking<'_>,
    symbols: TwoSymbols,
) -> Result<RunDifference, Memory>
    requires beside { StandBeside seeking.sides }
    requires prepared { IsPrepared seeking.sides seeking.prepared.now }
    requires alike { StayAlikeIn seeking.sides.matching.now seeking.sides.old.now seeking.sides.new.now (option_map (λ m. m.now) seeking.alike) }
    ensures { IfOk result (IsTrueInRunsAssuming (assumptions seeking.entry.sides.assumed) seeking.entry.sides.matching.now seeking.entry.sides.old.now seeking.entry.sides.new.now symbols) }
{
    let sides = seeking.sides;
    if !has_row(sides, symbols) {
        return Ok(nothing_known());
    }
    let known = KnownAlike {
        old: sides.old,
        new: sides.new,
        matching: sides.matching,
        assumed: sides.assumed,
        alike: seeking.alike,
    };
    if stay_alike(known, symbols) {
        return Ok(RunDifference::Never);
    }
    let Some(there) = symbols_in(sides.of_old, sides.of_new, symbols) else {
        return Ok(nothing_known());
    };
    let Seeking {
        prepared,
        limits,
        ..
    } = seeking;
    let found = seek_difference(alloc, sides, prepared, symbols, there, few(limits))?;
    match found {
        RunDifference::Open(_) => {
            seek_difference(alloc, sides, prepared, symbols, there, limits)
        }
        settled => Ok(settled),
    }
}

/// Adds what searches find of each pair of a sort.
fn find_sort(
    alloc: Global,
    seeking: Seeking<'_>,
    sort: NameSort,
    list: &mut Vec<RunDifference>,
) -> Result<(), Memory>
    requires beside { StandBeside seeking.sides }
    requires prepared { IsPrepared seeking.sides seeking.prepared.now }
    requires alike { StayAlikeIn seeking.sides.matching.now seeking.sides.old.now seeking.sides.new.now (option_map (λ m. m.now) seeking.alike) }
    requires none { list.old.items ≡ [] }
    ensures { OnOk result (AreOfPairs (IsTrueInRunsAssuming (assumptions seeking.entry.sides.assumed) seeking.entry.sides.matching.now seeking.entry.sides.old.now seeking.entry.sides.new.now)
        seeking.entry.sides.matching.now sort list.new.items) }
{
    let pairs = pairs_of(sort, seeking.sides.matching);
    for number in 0..pairs.len() {
        let found = find_one(alloc, seeking, symbols_of(sort, pairs[number]))?;
        list.push(found)?;
    }
    Ok(())
}

/// Adds what searches find of all names.
fn find_sorts(alloc: Global, seeking: Seeking<'_>, findings: &mut RunFindings) -> Result<(), Memory>
    requires beside { StandBeside seeking.sides }
    requires prepared { IsPrepared seeking.sides seeking.prepared.now }
    requires alike { StayAlikeIn seeking.sides.matching.now seeking.sides.old.now seeking.sides.new.now (option_map (λ m. m.now) seeking.alike) }
    requires variables { findings.old.variables.items ≡ [] }
    requires instances { findings.old.instances.items ≡ [] }
    ensures { OnOk result (AreFoundAssuming (assumptions seeking.entry.sides.assumed) seeking.entry.sides.matching.now seeking.entry.sides.old.now seeking.entry.sides.new.now findings.new) }
{
    find_sort(alloc, seeking, NameSort::Variables, &mut findings.variables)?;
    find_sort(alloc, seeking, NameSort::Instances, &mut findings.instances)
}

/// What searches find of all names.
///
/// # Errors
///
/// `Memory` when out of memory.
pub(crate) fn find_with(alloc: Global, seeking: Seeking<'_>) -> Result<RunFindings, Memory>
    requires beside { StandBeside seeking.sides }
    requires prepared { IsPrepared seeking.sides seeking.prepared.now }
    requires alike { StayAlikeIn seeking.sides.matching.now seeking.sides.old.now seeking.sides.new.now (option_map (λ m. m.now) seeking.alike) }
    ensures { IfOk result (AreFoundAssuming (assumptions seeking.entry.sides.assumed) seeking.entry.sides.matching.now seeking.entry.sides.old.now seeking.entry.sides.new.now) }
{
    let mut findings = RunFindings {
        variables: Vec::new(alloc),
        instances: Vec::new(alloc),
    };
    match find_sorts(alloc, seeking, &mut findings) {
        Ok(()) => Ok(findings),
        Err(fault) => Err(fault),
    }
}
