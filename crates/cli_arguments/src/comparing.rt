//! What the subcommand `diff` asks for.

ghost use Rattle.std.specs.Prelude.{◌≡◌, [], true, false, codes, IfOk, IfErr, None, Some};
ghost use Rattle.clap.specs.Words.{found_of, rows_of};
ghost use Rattle.cli_arguments.specs.Asking.{HasDiffForm, HasFlag, HasInputs, HasLasting, HasNoTask, HasOption, HasTask, IsTable, NamesDiff, NamesDiffRuns, NamesNoRunSearch, NamesNoScan, NamesNoSearch, NamesVerdicts};
ghost use Rattle.cli_arguments.specs.Parts.{HasPrograms, MayLast, NamesNoDiff, NamesNoDiffRuns, NamesNoScans, NamesNoVerdicts};
ghost use Rattle.cli_arguments.specs.Faults.{UsageWhere};

use crate::found::{is_given, is_set, number, optional, text, texts};
use crate::grouping::{grouping_of, refuse_grouping};
use crate::lasting::{Lasting, count, lasting_of};
use crate::parts::{InputNames, every_of, inputs_of, is_counted, is_part};
use crate::request::{DiffForm, DiffRequest, DiffRunsRequest, Task, VerdictRequest, WordFault};
use crate::showing::lists_inputs;
use clap::ArgMatches;
use std::alloc::Global;

/// The files of both programs, and of their states.
#[derive(Drop)]
pub(crate) struct Programs {
    pub old: String,
    pub new: String,
    pub state: Option<String>,
    pub new_state: Option<String>,
}

/// The files that are compared, and the states in which their scans begin.
fn programs_of(alloc: Global, found: &ArgMatches<'_>) -> Result<Programs, WordFault>
    ensures ok { IfOk result (HasPrograms (rows_of (found_of found.now))) }
    ensures err { IfErr result (UsageWhere ((p : Programs) → HasPrograms (rows_of (found_of found.now)) p → ⊥)) }
{
    let state = optional(alloc, found, "state")?;
    let new_state = optional(alloc, found, "new-state")?;
    let old = text(alloc, found, "old")?;
    let new = text(alloc, found, "new")?;
    Ok(Programs {
        old,
        new,
        state,
        new_state,
    })
}

/// Which differences, and how they are written.
fn diff_form_of(found: &ArgMatches<'_>) -> Result<DiffForm, WordFault>
    ensures ok { IfOk result (HasDiffForm (rows_of (found_of found.now))) }
    ensures err { IfErr result (UsageWhere ((f : DiffForm) → HasDiffForm (rows_of (found_of found.now)) f → ⊥)) }
{
    if is_set(found, "grouped") {
        return diff_groups_of(found);
    }
    refuse_grouping(found)?;
    match lasting_of(found)? {
        Some(lasting) => diff_held_of(found, lasting),
        None => diff_rows_of(found),
    }
}

/// The rows of one scan that are asked for, with or without progress.
fn diff_rows_of(found: &ArgMatches<'_>) -> Result<DiffForm, WordFault>
    requires table { IsTable (rows_of (found_of found.now)) }
    requires lasting { MayLast None (rows_of (found_of found.now)) }
    ensures ok { IfOk result (HasDiffForm (rows_of (found_of found.now))) }
    ensures err { IfErr result (UsageWhere ((f : DiffForm) → HasDiffForm (rows_of (found_of found.now)) f → ⊥)) }
{
    // One scan has none that follows.
    if is_given(found, "every") {
        return Err(WordFault::Usage);
    }
    let after = number(found, "after")?;
    let upto = number(found, "upto")?;
    if is_set(found, "progress") {
        return Ok(DiffForm::Progress { after, upto });
    }
    Ok(DiffForm::Rows { after, upto })
}

/// The rows over several scans that are asked for.
fn diff_held_of(found: &ArgMatches<'_>, lasting: Lasting) -> Result<DiffForm, WordFault>
    requires table { IsTable (rows_of (found_of found.now)) }
    requires lasting { HasLasting lasting (rows_of (found_of found.now)) }
    ensures ok { IfOk result (HasDiffForm (rows_of (found_of found.now))) }
    ensures err { IfErr result (UsageWhere ((f : DiffForm) → HasDiffForm (rows_of (found_of found.now)) f → ⊥)) }
{
    if is_part(found) {
        return Err(WordFault::Usage);
    }
    let every = every_of(found)?;
    Ok(DiffForm::Held {
        scans: count(lasting, every),
        every,
    })
}

/// The groups that are asked for.
fn diff_groups_of(found: &ArgMatches<'_>) -> Result<DiffForm, WordFault>
    requires { HasFlag (codes "grouped") (rows_of (found_of found.now)) }
    ensures ok { IfOk result (HasDiffForm (rows_of (found_of found.now))) }
    ensures err { IfErr result (UsageWhere ((f : DiffForm) → HasDiffForm (rows_of (found_of found.now)) f → ⊥)) }
{
    // A group has no number, and is one of one scan.
    if is_counted(found) {
        return Err(WordFault::Usage);
    }
    let grouping = grouping_of(found)?;
    Ok(DiffForm::Groups(grouping))
}

/// What is compared of two programs.
fn diff_request(alloc: Global, found: &ArgMatches<'_>) -> Result<DiffRequest, WordFault>
    requires { NamesNoSearch (rows_of (found_of found.now)) }
    ensures ok { IfOk result (NamesDiff (rows_of (found_of found.now))) }
    ensures err { IfErr result (UsageWhere (NamesNoDiff (rows_of (found_of found.now)))) }
{
    let moment = number(found, "at")?;
    let limit = number(found, "limit")?;
    let form = diff_form_of(found)?;
    let InputNames { all, names } = inputs_of(alloc, found)?;
    let coil = text(alloc, found, "coil")?;
    let Programs {
        old,
        new,
        state,
        new_state,
    } = programs_of(alloc, found)?;
    let assumed = texts(alloc, found, "assume")?;
    Ok(DiffRequest {
        state,
        new_state,
        moment,
        form,
        limit,
        quiet: is_set(found, "quiet"),
        old,
        new,
        coil,
        all_inputs: all,
        inputs: names,
        aliases: is_set(found, "aliases"),
        why: is_set(found, "why"),
        assumed,
        takes_comments: is_set(found, "assumed"),
    })
}

/// Whether given scans are asked of, or a part or groups of a list.
fn names_scan(found: &ArgMatches<'_>) -> bool
    ensures none { result ≡ false → NamesNoScans (rows_of (found_of found.now)) }
    ensures some { result ≡ true → NamesNoScans (rows_of (found_of found.now)) → ⊥ }
{
    is_given(found, "state")
        || is_given(found, "new-state")
        || is_given(found, "at")
        || is_given(found, "limit")
        || is_counted(found)
        || is_set(found, "grouped")
}

/// Whether runs are asked of, or a number of states that a search keeps is named.
fn names_run_search(found: &ArgMatches<'_>) -> bool
    ensures none { result ≡ false → NamesNoRunSearch (rows_of (found_of found.now)) }
    ensures some { result ≡ true → NamesNoRunSearch (rows_of (found_of found.now)) → ⊥ }
{
    is_set(found, "runs") || is_given(found, "states")
}

/// Whether all states are asked of, or runs.
fn names_search(found: &ArgMatches<'_>) -> bool
    ensures none { result ≡ false → NamesNoSearch (rows_of (found_of found.now)) }
    ensures some { result ≡ true → NamesNoSearch (rows_of (found_of found.now)) → ⊥ }
{
    is_given(found, "looks")
        || is_set(found, "reachable")
        || is_given(found, "save")
        || names_run_search(found)
}

/// Refuses what goes with a coil alone: inputs, given scans, and the form and the order of groups.
fn names_all(found: &ArgMatches<'_>) -> Result<(), WordFault>
    ensures ok { IfOk result (λ u. HasInputs (rows_of (found_of found.now)) false [] × NamesNoScan (rows_of (found_of found.now))) }
    ensures err { IfErr result (UsageWhere (HasInputs (rows_of (found_of found.now)) false [] → NamesNoScan (rows_of (found_of found.now)) → ⊥)) }
{
    // It is judged from all states, or in all runs, and all names are.
    if lists_inputs(found) || names_scan(found) {
        return Err(WordFault::Usage);
    }
    refuse_grouping(found)?;
    Ok(())
}

/// What is judged of two programs, name by name.
fn verdict_request(alloc: Global, found: &ArgMatches<'_>) -> Result<VerdictRequest, WordFault>
    requires { HasOption (codes "coil") (rows_of (found_of found.now)) None }
    ensures ok { IfOk result (NamesVerdicts (rows_of (found_of found.now))) }
    ensures err { IfErr result (UsageWhere (NamesNoVerdicts (rows_of (found_of found.now)))) }
{
    // A search for runs alone keeps states.
    if names_run_search(found) {
        return Err(WordFault::Usage);
    }
    names_all(found)?;
    let looks = number(found, "looks")?;
    let save = optional(alloc, found, "save")?;
    let old = text(alloc, found, "old")?;
    let new = text(alloc, found, "new")?;
    let assumed = texts(alloc, found, "assume")?;
    Ok(VerdictRequest {
        looks,
        reachable: is_set(found, "reachable"),
        save,
        quiet: is_set(found, "quiet"),
        old,
        new,
        aliases: is_set(found, "aliases"),
        why: is_set(found, "why"),
        assumed,
        takes_comments: is_set(found, "assumed"),
    })
}

/// What is judged of the runs of two programs, name by name.
fn runs_request(alloc: Global, found: &ArgMatches<'_>) -> Result<DiffRunsRequest, WordFault>
    requires coil { HasOption (codes "coil") (rows_of (found_of found.now)) None }
    requires runs { HasFlag (codes "runs") (rows_of (found_of found.now)) }
    ensures ok { IfOk result (NamesDiffRuns (rows_of (found_of found.now))) }
    ensures err { IfErr result (UsageWhere (NamesNoDiffRuns (rows_of (found_of found.now)))) }
{
    // Runs begin in the fresh states, so no state is looked at alone.
    if is_given(found, "looks") || is_set(found, "reachable") {
        return Err(WordFault::Usage);
    }
    names_all(found)?;
    let states = number(found, "states")?;
    let save = optional(alloc, found, "save")?;
    let old = text(alloc, found, "old")?;
    let new = text(alloc, found, "new")?;
    let assumed = texts(alloc, found, "assume")?;
    Ok(DiffRunsRequest {
        states,
        save,
        quiet: is_set(found, "quiet"),
        old,
        new,
        aliases: is_set(found, "aliases"),
        why: is_set(found, "why"),
        assumed,
        takes_comments: is_set(found, "assumed"),
    })
}

/// The task of `diff` without a coil.
fn names_task(alloc: Global, found: &ArgMatches<'_>) -> Result<Task, WordFault>
    requires { HasOption (codes "coil") (rows_of (found_of found.now)) None }
    ensures ok { IfOk result (HasTask (codes "diff") (rows_of (found_of found.now))) }
    ensures err { IfErr result (UsageWhere (HasNoTask (codes "diff") (rows_of (found_of found.now)))) }
{
    if is_set(found, "runs") {
        return match runs_request(alloc, found) {
            Ok(request) => Ok(Task::JudgeRuns(request)),
            Err(fault) => Err(fault),
        };
    }
    match verdict_request(alloc, found) {
        Ok(request) => Ok(Task::Judge(request)),
        Err(fault) => Err(fault),
    }
}

/// The task of `diff` with a coil.
fn coil_task(alloc: Global, found: &ArgMatches<'_>) -> Result<Task, WordFault>
    requires { HasOption (codes "coil") (rows_of (found_of found.now)) None → ⊥ }
    ensures ok { IfOk result (HasTask (codes "diff") (rows_of (found_of found.now))) }
    ensures err { IfErr result (UsageWhere (HasNoTask (codes "diff") (rows_of (found_of found.now)))) }
{
    // A list is of one state of each program, and complete, however many scans it takes.
    if names_search(found) {
        return Err(WordFault::Usage);
    }
    match diff_request(alloc, found) {
        Ok(request) => Ok(Task::Compare(request)),
        Err(fault) => Err(fault),
    }
}

/// The task of `diff`: to compare what two programs do with a coil, or with each name.
pub(crate) fn diff_task(alloc: Global, found: &ArgMatches<'_>) -> Result<Task, WordFault>
    ensures ok { IfOk result (HasTask (codes "diff") (rows_of (found_of found.now))) }
    ensures err { IfErr result (UsageWhere (HasNoTask (codes "diff") (rows_of (found_of found.now)))) }
{
    if is_given(found, "coil") {
        coil_task(alloc, found)
    } else {
        names_task(alloc, found)
    }
}
