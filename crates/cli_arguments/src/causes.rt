//! The requests of the subcommand `causes`.

ghost use Rattle.std.specs.Prelude.{◌≡◌, true, false, codes, IfOk, IfErr, None, Some};
ghost use Rattle.clap.specs.Words.{found_of, rows_of};
ghost use Rattle.cli_arguments.specs.Asking.{Asks, AsksNone, HasFlag, IsOfOneState, IsSingle};
ghost use Rattle.cli_arguments.specs.Parts.{IsOfAnyState, MayLast, NamesNoStates};
ghost use Rattle.cli_arguments.specs.Faults.{UsageWhere};

use crate::found::{is_given, is_set, number};
use crate::grouping::{groups_request, refuse_grouping, relevant_groups};
use crate::lasting::{held_request, lasting_of};
use crate::parts::{is_counted, list_of, names_end};
use crate::request::{ListRequest, PossibleRequest, Request, WordFault};
use crate::runs::runs_of;
use crate::showing::lists_inputs;
use clap::ArgMatches;
use std::alloc::Global;

/// The request of `causes`: which list is asked for, by its flags, or a fault of usage where they don't go together.
pub(crate) fn causes_request(alloc: Global, found: &ArgMatches<'_>) -> Result<Request, WordFault>
    ensures ok { IfOk result (Asks (codes "causes") (rows_of (found_of found.now))) }
    ensures err { IfErr result (UsageWhere (AsksNone (codes "causes") (rows_of (found_of found.now)))) }
{
    if is_set(found, "any") {
        return possible_request(alloc, found);
    }
    // Which states count is said of any state alone.
    if names_states(found) {
        return Err(WordFault::Usage);
    }
    if is_set(found, "relevant") {
        return relevant_request(alloc, found);
    }
    one_state_request(alloc, found)
}

/// Whether one of the options is given that go with `--any` alone: OFF, forced, reachable, how many looks, runs, or how many
/// states.
fn names_states(found: &ArgMatches<'_>) -> bool
    ensures none { result ≡ false → NamesNoStates (rows_of (found_of found.now)) }
    ensures some { result ≡ true → NamesNoStates (rows_of (found_of found.now)) → ⊥ }
{
    is_set(found, "off")
        || is_set(found, "must")
        || is_set(found, "reachable")
        || is_given(found, "looks")
        || is_set(found, "runs")
        || is_given(found, "states")
}

/// The request for a list over one given state: of one scan or of several.
fn one_state_request(alloc: Global, found: &ArgMatches<'_>) -> Result<Request, WordFault>
    requires one_state { IsOfOneState (rows_of (found_of found.now)) }
    requires named { HasFlag (codes "relevant") (rows_of (found_of found.now)) → ⊥ }
    ensures ok { IfOk result (Asks (codes "causes") (rows_of (found_of found.now))) }
    ensures err { IfErr result (UsageWhere (AsksNone (codes "causes") (rows_of (found_of found.now)))) }
{
    match lasting_of(found)? {
        None => one_scan_request(alloc, found),
        Some(lasting) => held_request(alloc, found, lasting),
    }
}

/// The request for a list of one scan: by rows or by groups.
fn one_scan_request(alloc: Global, found: &ArgMatches<'_>) -> Result<Request, WordFault>
    requires one_state { IsOfOneState (rows_of (found_of found.now)) }
    requires named { HasFlag (codes "relevant") (rows_of (found_of found.now)) → ⊥ }
    requires lasting { MayLast None (rows_of (found_of found.now)) }
    ensures ok { IfOk result (Asks (codes "causes") (rows_of (found_of found.now))) }
    ensures err { IfErr result (UsageWhere (AsksNone (codes "causes") (rows_of (found_of found.now)))) }
{
    if is_set(found, "grouped") {
        return groups_request(alloc, found);
    }
    list_request(alloc, found)
}

/// The request for a list over any state (`--any`).
fn possible_request(alloc: Global, found: &ArgMatches<'_>) -> Result<Request, WordFault>
    requires { HasFlag (codes "any") (rows_of (found_of found.now)) }
    ensures ok { IfOk result (Asks (codes "causes") (rows_of (found_of found.now))) }
    ensures err { IfErr result (UsageWhere (AsksNone (codes "causes") (rows_of (found_of found.now)))) }
{
    // Any state is meant, at any moment, and one scan from it; the list has its rows from the first one on, and no line tells how far it is.
    if is_bound(found) {
        return Err(WordFault::Usage);
    }
    refuse_grouping(found)?;
    let runs = runs_of(alloc, found)?;
    let off = is_set(found, "off");
    let must = is_set(found, "must");
    let reachable = is_set(found, "reachable");
    let looks = number(found, "looks")?;
    let grouped = is_set(found, "grouped");
    let ListRequest {
        limit,
        quiet,
        file,
        coil,
        all_inputs,
        inputs,
        assumed,
        ..
    } = list_of(alloc, found)?;
    Ok(Request::Possible(PossibleRequest {
        off,
        must,
        reachable,
        looks,
        runs,
        grouped,
        limit,
        quiet,
        file,
        coil,
        all_inputs,
        inputs,
        assumed,
    }))
}

/// Whether something is asked for that doesn't go with `--any`: a moment, several scans, a part of a list, progress, or the inputs that matter.
fn is_bound(found: &ArgMatches<'_>) -> bool
    ensures none { result ≡ false → IsOfAnyState (rows_of (found_of found.now)) }
    ensures some { result ≡ true → IsOfAnyState (rows_of (found_of found.now)) → ⊥ }
{
    is_given(found, "at") || is_counted(found) || is_set(found, "relevant")
}

/// The request for the rows of one scan, all of them or a part, with or without progress.
fn list_request(alloc: Global, found: &ArgMatches<'_>) -> Result<Request, WordFault>
    requires one_state { IsOfOneState (rows_of (found_of found.now)) }
    requires named { HasFlag (codes "relevant") (rows_of (found_of found.now)) → ⊥ }
    requires single { HasFlag (codes "grouped") (rows_of (found_of found.now)) → ⊥ }
    requires lasting { MayLast None (rows_of (found_of found.now)) }
    ensures ok { IfOk result (Asks (codes "causes") (rows_of (found_of found.now))) }
    ensures err { IfErr result (UsageWhere (AsksNone (codes "causes") (rows_of (found_of found.now)))) }
{
    refuse_grouping(found)?;
    // One scan has none that follows.
    if is_given(found, "every") {
        return Err(WordFault::Usage);
    }
    let told = is_set(found, "progress");
    let after = number(found, "after")?;
    let upto = number(found, "upto")?;
    let list = list_of(alloc, found)?;
    if told {
        return Ok(Request::Progress { list, after, upto });
    }
    Ok(Request::Causes { list, after, upto })
}

/// The request for a list over the inputs that matter (`--relevant`).
fn relevant_request(alloc: Global, found: &ArgMatches<'_>) -> Result<Request, WordFault>
    requires one_state { IsOfOneState (rows_of (found_of found.now)) }
    requires relevant { HasFlag (codes "relevant") (rows_of (found_of found.now)) }
    ensures ok { IfOk result (Asks (codes "causes") (rows_of (found_of found.now))) }
    ensures err { IfErr result (UsageWhere (AsksNone (codes "causes") (rows_of (found_of found.now)))) }
{
    // The inputs are found.
    if lists_inputs(found) {
        return Err(WordFault::Usage);
    }
    // They are those that matter in one scan.
    if is_repeated(found) {
        return Err(WordFault::Usage);
    }
    // Their list has no part, and no line tells how far it is.
    if names_end(found) {
        return Err(WordFault::Usage);
    }
    if is_set(found, "grouped") {
        return relevant_groups(alloc, found);
    }
    refuse_grouping(found)?;
    let start = number(found, "after")?;
    let list = list_of(alloc, found)?;
    Ok(Request::Relevant {
        list,
        after: start,
        grouping: None,
    })
}

/// Whether several scans are asked for.
fn is_repeated(found: &ArgMatches<'_>) -> bool
    ensures one { result ≡ false → IsSingle (rows_of (found_of found.now)) }
    ensures several { result ≡ true → IsSingle (rows_of (found_of found.now)) → ⊥ }
{
    is_given(found, "scans") || is_given(found, "for") || is_given(found, "every")
}
