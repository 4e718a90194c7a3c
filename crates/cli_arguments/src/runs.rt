//! What a list of any state asks of runs (`--runs`).

ghost use Rattle.std.specs.Prelude.{◌≡◌, true, false, codes, IfOk, IfErr, Option};
ghost use Rattle.clap.specs.Words.{found_of, rows_of};
ghost use Rattle.cli_arguments.specs.Asking.{HasFlag, HasRuns, IsPlain};
ghost use Rattle.cli_arguments.specs.Parts.{NamesNoRuns};
ghost use Rattle.cli_arguments.specs.Faults.{UsageWhere};

use crate::found::{is_given, is_set, number, optional};
use crate::request::{RunsWanted, WordFault};
use clap::ArgMatches;
use std::alloc::Global;

/// The runs that are to come to each row, where they are asked for.
pub(crate) fn runs_of(
    alloc: Global,
    found: &ArgMatches<'_>,
) -> Result<Option<RunsWanted>, WordFault>
    ensures ok { IfOk result (λ o. HasRuns o (rows_of (found_of found.now))) }
    ensures err { IfErr result (UsageWhere ((o : Option RunsWanted) → HasRuns o (rows_of (found_of found.now)) → ⊥)) }
{
    if is_set(found, "runs") {
        return wanted_runs(alloc, found);
    }
    // Any state is meant, so only runs begin in one that is named, and keep a number of states.
    if names_runs(found) {
        return Err(WordFault::Usage);
    }
    Ok(None)
}

/// The runs that are asked for: the state in which they begin, and how many states the search for one keeps.
fn wanted_runs(alloc: Global, found: &ArgMatches<'_>) -> Result<Option<RunsWanted>, WordFault>
    requires { HasFlag (codes "runs") (rows_of (found_of found.now)) }
    ensures ok { IfOk result (λ o. HasRuns o (rows_of (found_of found.now))) }
    ensures err { IfErr result (UsageWhere ((o : Option RunsWanted) → HasRuns o (rows_of (found_of found.now)) → ⊥)) }
{
    // A run comes to one assignment: to no group, not from every state, with any inputs before, and the coil may be ON before.
    if !is_plain(found) {
        return Err(WordFault::Usage);
    }
    let states = number(found, "states")?;
    let state = optional(alloc, found, "state")?;
    Ok(Some(RunsWanted { state, states }))
}

/// Whether a state in which runs begin is named, or how many states a search for one keeps.
fn names_runs(found: &ArgMatches<'_>) -> bool
    ensures none { result ≡ false → NamesNoRuns (rows_of (found_of found.now)) }
    ensures some { result ≡ true → NamesNoRuns (rows_of (found_of found.now)) → ⊥ }
{
    is_given(found, "state") || is_given(found, "states")
}

/// Whether nothing says that a coil is OFF before, that every state is to leave it ON, or that rows are groups.
fn is_plain(found: &ArgMatches<'_>) -> bool
    ensures plain { result ≡ true → IsPlain (rows_of (found_of found.now)) }
    ensures other { result ≡ false → IsPlain (rows_of (found_of found.now)) → ⊥ }
{
    !(is_set(found, "off") || is_set(found, "must") || is_set(found, "grouped"))
}
