//! The search for runs of two programs that show a difference.

ghost use Rattle.std.specs.Prelude.{IfOk};
ghost use Rattle.reach_runs.specs.Asking.{RunQuestion, StaysOff, SwitchesOn};
ghost use Rattle.reach_search.specs.Searches.{IsVerdict};
ghost use Rattle.diff_runs.specs.Asking.{AreIn, question};
ghost use Rattle.diff_runs.specs.Assuming.{assumptions};
ghost use Rattle.diff_runs.specs.Beside.{StandBeside};
ghost use Rattle.diff_search.specs.Differences.{AreBothOff, AreShowingAssuming, IsNoRun, IsPrepared, IsTrueInRunsAssuming};

use crate::difference::{RunDifference, TwoRuns};
use crate::preparing::Prepared;
use diff_runs::laws::{never_shown, not_shown, shown};
use diff_runs::{Sides, TwoSymbols, pulled};
use reach_runs::{Literal, RunQuery, RunScan, Timing};
use reach_search::{Limits, Sought, Verdict, seek};
use scan_cycle::Memory;
use std::alloc::{AllocError, Global};

/// Searches for a run that leaves the first symbol with the value and the second one with the other.
fn seek_value(
    alloc: Global,
    sides: Sides<'_>,
    prepared: &Prepared,
    there: TwoSymbols,
    value: bool,
    limits: Limits,
) -> Result<Sought, Memory>
    requires { IsPrepared sides prepared.now }
    ensures verdict { IfOk result (λ s. IsVerdict (question sides.entry.both.now there value prepared.now.joint) s.verdict) }
    ensures off { IfOk result (λ s. StaysOff (question sides.entry.both.now there value prepared.now.joint) s.scans) }
{
    let target = [
        Literal {
            symbol: there.old,
            value,
        },
        Literal {
            symbol: there.new,
            value: !value,
        },
    ];
    let query = RunQuery {
        program: sides.both,
        state: &prepared.begun,
        from: 0,
        timing: Timing::AnyMoments,
        listed: &prepared.inputs,
        target: &target,
        assumed: prepared.joint.as_ref(),
    };
    seek(alloc, query, limits)
}

/// The runs of both programs that a run has in it.
fn two_runs(
    alloc: Global,
    sides: Sides<'_>,
    prepared: &Prepared,
    value: bool,
    run: &[RunScan],
) -> Result<TwoRuns, AllocError>
    requires beside { StandBeside sides }
    requires prepared { IsPrepared sides prepared.now }
    ensures { IfOk result (λ runs. (x there : TwoSymbols) → AreIn sides.entry.of_old.now sides.entry.of_new.now x there
        → SwitchesOn (question sides.entry.both.now there value prepared.now.joint) run.now
        → AreShowingAssuming (assumptions sides.entry.assumed) sides.entry.matching.now sides.entry.old.now sides.entry.new.now x runs) }
{
    shown(sides.old, sides.new, sides.both);
    Ok(TwoRuns {
        value,
        old: pulled(alloc, &prepared.old_places, run)?,
        new: pulled(alloc, &prepared.new_places, run)?,
    })
}

/// What is told where neither search found a run.
fn none_shown(on: &Sought, off: &Sought) -> RunDifference
    requires on { IsNoRun on.now.verdict }
    requires off { IsNoRun off.now.verdict }
    ensures { (p q : RunQuestion) → IsVerdict p on.now.verdict → StaysOff p on.now.scans → IsVerdict q off.now.verdict → StaysOff q off.now.scans
        → AreBothOff p q result }
{
    match (&on.verdict, &off.verdict) {
        (Verdict::Never, Verdict::Never) => RunDifference::Never,
        (Verdict::Never, _) => RunDifference::Open(off.scans),
        (_, Verdict::Never) => RunDifference::Open(on.scans),
        _ => RunDifference::Open(on.scans.min(off.scans)),
    }
}

/// Searches for runs of two programs, from their fresh states, after which a symbol of the one and one of the other are different: those of which
/// the one is ON and the other OFF, then the other way. In each scan what is assumed of both programs is true. `there` are the symbols that stand for
/// them in the program in which both stand.
///
/// # Errors
///
/// `Memory` when out of memory.
pub fn seek_difference(
    alloc: Global,
    sides: Sides<'_>,
    prepared: &Prepared,
    symbols: TwoSymbols,
    there: TwoSymbols,
    limits: Limits,
) -> Result<RunDifference, Memory>
    requires beside { StandBeside sides }
    requires prepared { IsPrepared sides prepared.now }
    requires there { AreIn sides.of_old.now sides.of_new.now symbols there }
    ensures { IfOk result (IsTrueInRunsAssuming (assumptions sides.entry.assumed) sides.entry.matching.now sides.entry.old.now sides.entry.new.now symbols) }
{
    never_shown(sides.old, sides.new, sides.both);
    not_shown(sides.old, sides.new, sides.both);
    let on = seek_value(alloc, sides, prepared, there, true, limits)?;
    if let Verdict::Run(run) = &on.verdict {
        return Ok(RunDifference::Shown(two_runs(alloc, sides, prepared, true, run)?));
    }
    let off = seek_value(alloc, sides, prepared, there, false, limits)?;
    if let Verdict::Run(run) = &off.verdict {
        return Ok(RunDifference::Shown(two_runs(alloc, sides, prepared, false, run)?));
    }
    Ok(none_shown(&on, &off))
}
