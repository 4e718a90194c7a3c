//! The request of the subcommand `reach`.

ghost use Rattle.std.specs.Prelude.{codes, IfOk, IfErr};
ghost use Rattle.clap.specs.Words.{found_of, rows_of};
ghost use Rattle.cli_arguments.specs.Asking.{Asks, AsksNone, HasPace};
ghost use Rattle.cli_arguments.specs.Faults.{UsageWhere};

use crate::found::{is_set, number, optional, text, texts};
use crate::parts::{Sources, sources_of};
use crate::request::{Pace, ReachRequest, Request, WordFault};
use clap::ArgMatches;
use std::alloc::Global;

/// The request of `reach`: what is to come ON, and which runs count.
pub(crate) fn reach_request(alloc: Global, found: &ArgMatches<'_>) -> Result<Request, WordFault>
    ensures ok { IfOk result (Asks (codes "reach") (rows_of (found_of found.now))) }
    ensures err { IfErr result (UsageWhere (AsksNone (codes "reach") (rows_of (found_of found.now)))) }
{
    let moment = number(found, "at")?;
    let pace = pace_of(found)?;
    let states = number(found, "states")?;
    let both = optional(alloc, found, "both")?;
    let progress = is_set(found, "progress");
    let Sources { state, file } = sources_of(alloc, found)?;
    let name = text(alloc, found, "name")?;
    let inputs = texts(alloc, found, "inputs")?;
    let assumed = texts(alloc, found, "assume")?;
    Ok(Request::Reach(ReachRequest {
        state,
        moment,
        pace,
        states,
        both,
        progress,
        file,
        name,
        inputs,
        assumed,
    }))
}

/// When the scans of a run are: in a rhythm where a time between them is given, otherwise at any moments.
fn pace_of(found: &ArgMatches<'_>) -> Result<Pace, WordFault>
    ensures ok { IfOk result (λ p. HasPace p (rows_of (found_of found.now))) }
    ensures err { IfErr result (UsageWhere ((p : Pace) → HasPace p (rows_of (found_of found.now)) → ⊥)) }
{
    let every = number(found, "every")?;
    let scans = number(found, "scans")?;
    let gap = number(found, "gap")?;
    match (every, scans, gap) {
        (None, None, gap) => Ok(Pace::AnyMoments { gap }),
        (Some(every), scans, None) => Ok(Pace::Every { every, scans }),
        (None, Some(_), _) | (Some(_), _, Some(_)) => Err(WordFault::Usage),
    }
}
