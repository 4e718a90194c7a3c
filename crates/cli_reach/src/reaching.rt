//! A request for a run that switches something on.

ghost use Rattle.std.specs.Prelude.{◌≡◌, ◌≤◌, ◌⊎◌, length};
ghost use Rattle.scan_cycle.specs.Standing.{Fits};
ghost use Rattle.io_text.specs.Log.{PutsAll, WriteLog};
ghost use Rattle.cli_inputs.specs.Reports.{Refuses, logs};
ghost use Rattle.cli_inputs.specs.Setting.{given_by};
ghost use Rattle.cli_reach.specs.Asking.{HasReachFault, IsAskedBy, most_of, question_of};
ghost use Rattle.cli_reach.specs.Reaching.{BreaksReach, TellsFound};

use crate::asking::{Asked, read_asked};
use crate::finding::{found_of, sought_of};
use crate::refusing::refusal;
use crate::seeking::SearchFault;
use crate::telling::{put_found, write_verdict};
use cli_arguments::{Pace, ReachRequest};
use cli_inputs::{Texts, ToolFault, report};
use io_text::Sink;
use reach_search::Limits;
use std::alloc::Global;

/// How many states are kept at most, where the request doesn't say it.
const STATES: u64 = 100_000;

/// How far apart the scans of a run at any moments are where they can be, in ms, where the request doesn't say it.
const GAP: u64 = 10;

/// How many scans a run has at most, where that is said.
fn most_of(pace: Pace) -> Option<u64>
    ensures { result ≡ most_of pace }
{
    match pace {
        Pace::AnyMoments { .. } => None,
        Pace::Every { scans, .. } => scans,
    }
}

/// How far the search goes.
fn limits_of(request: &ReachRequest) -> Limits {
    let gap = match request.pace {
        Pace::AnyMoments { gap } => gap.unwrap_or(GAP),
        Pace::Every { .. } => GAP,
    };
    Limits {
        states: request.states.unwrap_or(STATES) as usize,
        scans: most_of(request.pace).unwrap_or(u64::MAX),
        gap,
    }
}

/// How many expressions a request assumes.
fn assumed_by(request: &ReachRequest) -> u64
    ensures { result ≡ length request.now.assumed.items }
{
    request.assumed.len() as u64
}

/// Searches for what is asked, and writes what was found.
fn reach_asked<O: Sink, E: Sink>(
    alloc: Global,
    request: &ReachRequest,
    asked: &Asked,
    texts: &Texts,
    out: &mut O,
    err: &mut E,
) -> u8
    requires fits { Fits asked.now.program asked.now.state }
    requires asked { IsAskedBy (given_by texts.now) request.now (question_of asked.now) }
    ensures status { result ≤ 1 }
    ensures done { result ≡ 0 → TellsFound (given_by texts.now) request.now (O.log out.old) (O.log out.new) (PutsAll (E.log err.old) (E.log err.new)) }
    ensures failed { (save : WriteLog) → result ≡ 1
        → Refuses (given_by texts.now) (HasReachFault (given_by texts.now) request.now) (logs (O.log out.old) save (E.log err.old)) (logs (O.log out.new) save (E.log err.new))
        ⊎ BreaksReach (given_by texts.now) request.now (logs (O.log out.old) save (E.log err.old)) (logs (O.log out.new) save (E.log err.new)) }
{
    if let Some(fault) = refusal(asked) {
        return report(texts, &ToolFault::Cause(fault), err);
    }
    let sought = match sought_of(alloc, asked, limits_of(request), request.progress, err) {
        Ok(sought) => sought,
        Err(SearchFault::Memory) => return report(texts, &ToolFault::Memory, err),
        Err(SearchFault::Write) => return 1,
    };
    let found = found_of(asked, &sought, most_of(request.pace));
    let Ok(()) = write_verdict(asked.timing, &asked.program, &sought.verdict, out) else {
        return report(texts, &ToolFault::Write, err);
    };
    let assumed = assumed_by(request);
    let Ok(()) = put_found(found, sought.states as u64, assumed, err) else {
        return 1;
    };
    0
}

/// Writes a run that switches on what the request names, from the state of the texts, as a stimulus, or says that there is none.
pub fn reach<O: Sink, E: Sink>(
    alloc: Global,
    request: &ReachRequest,
    texts: &Texts,
    out: &mut O,
    err: &mut E,
) -> u8
    ensures status { result ≤ 1 }
    ensures done { result ≡ 0 → TellsFound (given_by texts.now) request.now (O.log out.old) (O.log out.new) (PutsAll (E.log err.old) (E.log err.new)) }
    ensures failed { (save : WriteLog) → result ≡ 1
        → Refuses (given_by texts.now) (HasReachFault (given_by texts.now) request.now) (logs (O.log out.old) save (E.log err.old)) (logs (O.log out.new) save (E.log err.new))
        ⊎ BreaksReach (given_by texts.now) request.now (logs (O.log out.old) save (E.log err.old)) (logs (O.log out.new) save (E.log err.new)) }
{
    match read_asked(alloc, request, texts) {
        Ok(asked) => reach_asked(alloc, request, &asked, texts, out, err),
        Err(fault) => report(texts, &fault, err),
    }
}
