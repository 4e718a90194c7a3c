//! What is found of two programs in runs, written.

ghost use Rattle.std.specs.Prelude.{◌≡◌, IfErr, IfOk};
ghost use Rattle.diff_matching.specs.Names.{IsByNames};
ghost use Rattle.diff_findings.specs.Findings.{findings as findings_list};
ghost use Rattle.diff_run_verdicts.specs.RunVerdicts.{AreFoundAssuming};
ghost use Rattle.cli_run_verdicts.specs.Assuming.{assumption, run_counts};
ghost use Rattle.cli_run_verdicts.specs.Ending.{FailsToWriteRuns, WritesKeeping, WritesTold};

use crate::assuming::RunsAssuming;
use cli_inputs::ToolFault;
use cli_questions::ListCounts;
use cli_verdicts::verdict_counts;
use diagram_program::Program;
use diff_findings::{Compared, Finding, findings};
use diff_matching::Matching;
use diff_meaning::{Counted, CountedStates, Verdicts};
use diff_run_verdicts::{RunFindings, find_all, verdicts_of};
use io_text::Sink;
use reach_search::Limits;
use std::alloc::Global;
use text_findings::write_findings;

/// What is kept of two programs that were judged.
#[derive(Drop)]
pub(crate) struct Kept {
    /// What belongs together in them.
    pub matching: Matching,
    /// What searches found.
    pub found: RunFindings,
}

/// What was counted, and what searches found.
#[derive(Drop)]
pub(crate) struct Told {
    pub counts: ListCounts,
    pub found: RunFindings,
}

/// The same, and what belongs together.
#[derive(Drop)]
pub(crate) struct Written {
    pub counts: ListCounts,
    pub kept: Kept,
}

/// What is counted of findings, and how many expressions are assumed, where some are.
fn counts_of(expressions: Option<u64>, list: &[Finding]) -> ListCounts
    ensures { result ≡ run_counts expressions list.now }
{
    verdict_counts(expressions.unwrap_or(0), list, false)
}

/// Writes findings, and counts them.
fn write_list<O: Sink>(
    expressions: Option<u64>,
    compared: Compared<'_>,
    list: &[Finding],
    out: &mut O,
) -> Result<ListCounts, ToolFault>
    requires { list.now ≡ findings_list compared.old.now compared.new.now compared.matching.now compared.verdicts.now }
    ensures { WritesTold expressions compared.entry.old.now compared.entry.new.now compared.entry.matching.now compared.entry.verdicts.now (O.log out.old) (O.log out.new) result }
{
    match write_findings(compared.old, compared.new, list, out) {
        Ok(()) => Ok(counts_of(expressions, list)),
        Err(_) => Err(ToolFault::Write),
    }
}

/// Writes what is found of two programs by verdicts.
fn write_compared<O: Sink>(
    alloc: Global,
    expressions: Option<u64>,
    compared: Compared<'_>,
    out: &mut O,
) -> Result<ListCounts, ToolFault>
    ensures { WritesTold expressions compared.entry.old.now compared.entry.new.now compared.entry.matching.now compared.entry.verdicts.now (O.log out.old) (O.log out.new) result }
{
    let list = match findings(alloc, compared) {
        Ok(list) => list,
        Err(_) => return Err(ToolFault::Memory),
    };
    let written = write_list(expressions, compared, &list, out);
    drop(list);
    written
}

/// The same. Which states a verdict counts makes no difference to the text.
fn write_told<O: Sink>(
    alloc: Global,
    old: &Program,
    new: &Program,
    matching: &Matching,
    verdicts: &Verdicts,
    expressions: Option<u64>,
    out: &mut O,
) -> Result<ListCounts, ToolFault>
    ensures { WritesTold expressions old.now new.now matching.now verdicts.now (O.log out.old) (O.log out.new) result }
{
    let counted = Counted::of(CountedStates::All);
    let compared = Compared {
        old,
        new,
        matching,
        counted: &counted,
        verdicts,
    };
    let written = write_compared(alloc, expressions, compared, out);
    drop(counted);
    written
}

/// Writes what is found of two programs, by what searches found.
fn write_found<O: Sink>(
    alloc: Global,
    old: &Program,
    new: &Program,
    matching: &Matching,
    found: &RunFindings,
    assuming: RunsAssuming<'_>,
    out: &mut O,
) -> Result<ListCounts, ToolFault>
    requires names { IsByNames matching.now old.now new.now }
    requires found { AreFoundAssuming (assumption assuming).both matching.now old.now new.now found.now }
    ensures done { IfOk result (WritesKeeping (assumption assuming.entry) old.now new.now matching.now found.now (O.log out.old) (O.log out.new)) }
    ensures failed { IfErr result (FailsToWriteRuns (assumption assuming.entry) old.now new.now (O.log out.old) (O.log out.new)) }
{
    let verdicts = match verdicts_of(alloc, matching, found) {
        Ok(verdicts) => verdicts,
        Err(_) => return Err(ToolFault::Memory),
    };
    let written = write_told(
        alloc,
        old,
        new,
        matching,
        &verdicts,
        assuming.expressions,
        out,
    );
    drop(verdicts);
    written
}

/// Searches for runs that show differences, and writes what is found.
fn write_matched<O: Sink>(
    alloc: Global,
    limits: Limits,
    old: &Program,
    new: &Program,
    matching: &Matching,
    assuming: RunsAssuming<'_>,
    out: &mut O,
) -> Result<Told, ToolFault>
    requires names { IsByNames matching.now old.now new.now }
    ensures done { IfOk result (λ t. WritesKeeping (assumption assuming.entry) old.now new.now matching.now t.found (O.log out.old) (O.log out.new) t.counts) }
    ensures failed { IfErr result (FailsToWriteRuns (assumption assuming.entry) old.now new.now (O.log out.old) (O.log out.new)) }
{
    let found = match find_all(alloc, old, new, matching, assuming.assumed, limits) {
        Ok(found) => found,
        Err(_) => return Err(ToolFault::Memory),
    };
    match write_found(alloc, old, new, matching, &found, assuming, out) {
        Ok(counts) => Ok(Told { counts, found }),
        Err(fault) => {
            drop(found);
            Err(fault)
        }
    }
}

/// Judges two programs over runs in which what is assumed is true, by what belongs together in them by names, and writes what is found.
///
/// # Errors
///
/// `Memory`, and then nothing was written; `Write` where the writer failed, and then a prefix of the text was.
pub(crate) fn write_runs<O: Sink>(
    alloc: Global,
    limits: Limits,
    old: &Program,
    new: &Program,
    assuming: RunsAssuming<'_>,
    out: &mut O,
) -> Result<Written, ToolFault>
    ensures done { IfOk result (λ w. WritesKeeping (assumption assuming.entry) old.now new.now w.kept.matching w.kept.found (O.log out.old) (O.log out.new) w.counts) }
    ensures failed { IfErr result (FailsToWriteRuns (assumption assuming.entry) old.now new.now (O.log out.old) (O.log out.new)) }
{
    let matching = match Matching::by_names(alloc, old, new) {
        Ok(matching) => matching,
        Err(_) => return Err(ToolFault::Memory),
    };
    match write_matched(alloc, limits, old, new, &matching, assuming, out) {
        Ok(told) => Ok(Written {
            counts: told.counts,
            kept: Kept {
                matching,
                found: told.found,
            },
        }),
        Err(fault) => {
            drop(matching);
            Err(fault)
        }
    }
}
