//! The requests for several scans: how long they last.

ghost use Rattle.std.specs.Prelude.{List, codes, IfOk, IfErr, None, Option, Some};
ghost use Rattle.clap.specs.Words.{Row, found_of, rows_of};
ghost use Rattle.cli_arguments.specs.Asking.{Asks, AsksNone, HasFlag, HasLasting, IsOfOneState, HasScans};
ghost use Rattle.cli_arguments.specs.Parts.{MayLast};
ghost use Rattle.cli_arguments.specs.Faults.{UsageWhere};

use crate::found::{is_set, number};
use crate::grouping::refuse_grouping;
use crate::parts::{every_of, is_part, list_of};
use crate::request::{Request, WordFault};
use clap::ArgMatches;
use std::alloc::Global;

/// How long several scans last: how many there are, or up to which time after the first one's moment they are made, in milliseconds.
#[derive(Clone, Copy, Debug, PartialEq, Eq)]
pub(crate) enum Lasting {
    Count(u64),
    Until(u64),
}

/// How long the scans last, where several are asked for.
pub(crate) fn lasting_of(found: &ArgMatches<'_>) -> Result<Option<Lasting>, WordFault>
    ensures ok { IfOk result (λ o. MayLast o (rows_of (found_of found.now))) }
    ensures err { IfErr result (UsageWhere ((o : Option Lasting) → MayLast o (rows_of (found_of found.now)) → ⊥)) }
{
    let scans = number(found, "scans")?;
    let time = number(found, "for")?;
    match (scans, time) {
        (None, None) => Ok(None),
        (Some(scans), None) => Ok(Some(Lasting::Count(scans))),
        (None, Some(time)) => Ok(Some(Lasting::Until(time))),
        (Some(_), Some(_)) => Err(WordFault::Usage),
    }
}

/// How many scans are made: the number that is asked for, or those from the first moment to a time after it, both ends included.
pub(crate) fn count(lasting: Lasting, every: u64) -> u64
    ensures { (rows : List Row) → HasLasting lasting rows → HasScans result every rows }
{
    match lasting {
        Lasting::Count(scans) => scans,
        Lasting::Until(time) => match time.checked_div(every) {
            Some(scans) => scans.saturating_add(1),
            None => u64::MAX,
        },
    }
}

/// The request for a list over several scans with held inputs.
pub(crate) fn held_request(
    alloc: Global,
    found: &ArgMatches<'_>,
    lasting: Lasting,
) -> Result<Request, WordFault>
    requires one_state { IsOfOneState (rows_of (found_of found.now)) }
    requires named { HasFlag (codes "relevant") (rows_of (found_of found.now)) → ⊥ }
    requires lasting { HasLasting lasting (rows_of (found_of found.now)) }
    ensures ok { IfOk result (Asks (codes "causes") (rows_of (found_of found.now))) }
    ensures err { IfErr result (UsageWhere (AsksNone (codes "causes") (rows_of (found_of found.now)))) }
{
    if is_part(found) {
        return Err(WordFault::Usage);
    }
    refuse_grouping(found)?;
    let every = every_of(found)?;
    let scans = count(lasting, every);
    let grouped = is_set(found, "grouped");
    let list = list_of(alloc, found)?;
    Ok(Request::Held {
        list,
        scans,
        every,
        grouped,
    })
}
