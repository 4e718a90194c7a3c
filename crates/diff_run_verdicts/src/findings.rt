//! What searches find of all names.

ghost use Rattle.std.specs.Prelude.{IfOk, IsTrue, option_map};
ghost use Rattle.diagram_program.specs.Program.{Drawing};
ghost use Rattle.diff_runs.specs.Assuming.{Assumptions, assumptions};
ghost use Rattle.diff_runs.specs.Showing.{BelongTogether, NeverShownAssuming};
ghost use Rattle.diff_runs.specs.declared.symbols.TwoSymbols.{TwoSymbols};
ghost use Rattle.diff_matching.specs.Matching.{Matching};
ghost use Rattle.diff_search.specs.Differences.{IsTrueInRunsAssuming};
ghost use Rattle.diff_run_verdicts.specs.Lasting.{StayAlikeIn};
ghost use Rattle.diff_run_verdicts.specs.RunVerdicts.{AreFoundAssuming, AreOfPairs};

use crate::names::{NameSort, pairs_of, symbols_of};
use diagram_declarations::Symbol;
use diagram_program::Program;
use diff_matching::{Matching, Pair};
use diff_runs::{TwoAssumed, TwoSymbols};
use diff_search::RunDifference;
use scan_cycle::Memory;
use std::alloc::{AllocError, Global};

/// What searches found of two programs: of each pair of variables and of each pair of instances, in the order of what belongs together.
#[derive(Drop)]
pub struct RunFindings {
    pub variables: Vec<RunDifference>,
    pub instances: Vec<RunDifference>,
}

/// What is known without a search: that no runs of no scans show a difference.
pub(crate) fn nothing_known() -> RunDifference
    ensures { (a : Assumptions) (m : Matching) (p q : Drawing) (x : TwoSymbols) → IsTrueInRunsAssuming a m p q x result }
{
    RunDifference::Open(0)
}

/// Two programs, what belongs together in them, what is assumed of their inputs, and what stays alike for ever, where that is known of anything.
#[derive(Clone, Copy)]
pub(crate) struct KnownAlike<'a> {
    pub old: &'a Program,
    pub new: &'a Program,
    pub matching: &'a Matching,
    pub assumed: TwoAssumed<'a>,
    pub alike: Option<&'a Matching>,
}

/// Whether two symbols belong together.
fn belong_together(matching: &Matching, symbols: TwoSymbols) -> bool
    ensures { IsTrue result → BelongTogether matching.now symbols.old symbols.new }
{
    match (symbols.old, symbols.new) {
        (Symbol::Var(old), Symbol::Var(new)) => matching.variables().contains(&Pair { old, new }),
        (Symbol::Instance(old), Symbol::Instance(new)) => {
            matching.instances().contains(&Pair { old, new })
        }
        _ => false,
    }
}

/// Whether two symbols are known to stay alike for ever, whatever is assumed.
pub(crate) fn stay_alike(known: KnownAlike<'_>, symbols: TwoSymbols) -> bool
    requires { StayAlikeIn known.matching.now known.old.now known.new.now (option_map (λ m. m.now) known.alike) }
    ensures { IsTrue result → NeverShownAssuming (assumptions known.entry.assumed) known.entry.matching.now known.entry.old.now known.entry.new.now symbols }
{
    match known.alike {
        Some(alike) => belong_together(alike, symbols),
        None => false,
    }
}

/// What is known of two symbols without a search.
fn known_of(known: KnownAlike<'_>, symbols: TwoSymbols) -> RunDifference
    requires { StayAlikeIn known.matching.now known.old.now known.new.now (option_map (λ m. m.now) known.alike) }
    ensures { IsTrueInRunsAssuming (assumptions known.entry.assumed) known.entry.matching.now known.entry.old.now known.entry.new.now symbols result }
{
    if stay_alike(known, symbols) {
        return RunDifference::Never;
    }
    nothing_known()
}

/// What is known without a search of each pair of a sort.
fn known_sort(
    alloc: Global,
    known: KnownAlike<'_>,
    sort: NameSort,
) -> Result<Vec<RunDifference>, AllocError>
    requires { StayAlikeIn known.matching.now known.old.now known.new.now (option_map (λ m. m.now) known.alike) }
    ensures { IfOk result (λ list. AreOfPairs (IsTrueInRunsAssuming (assumptions known.entry.assumed) known.entry.matching.now known.entry.old.now known.entry.new.now)
        known.entry.matching.now sort list.items) }
{
    let pairs = pairs_of(sort, known.matching);
    let mut list = Vec::new(alloc);
    for number in 0..pairs.len() {
        list.push(known_of(known, symbols_of(sort, pairs[number])))?;
    }
    Ok(list)
}

/// What is known of all names without a search.
pub(crate) fn known_all(alloc: Global, known: KnownAlike<'_>) -> Result<RunFindings, Memory>
    requires { StayAlikeIn known.matching.now known.old.now known.new.now (option_map (λ m. m.now) known.alike) }
    ensures { IfOk result (AreFoundAssuming (assumptions known.entry.assumed) known.entry.matching.now known.entry.old.now known.entry.new.now) }
{
    let variables = known_sort(alloc, known, NameSort::Variables)?;
    let instances = known_sort(alloc, known, NameSort::Instances)?;
    Ok(RunFindings {
        variables,
        instances,
    })
}
