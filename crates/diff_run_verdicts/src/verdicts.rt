//! The verdicts by what searches found.

ghost use Rattle.std.specs.Prelude.{◌≡◌, IfOk, map};
ghost use Rattle.diagram_program.specs.Program.{Drawing};
ghost use Rattle.diff_meaning.specs.declared.verdict.Verdict.TheVariants.{Same};
ghost use Rattle.diff_runs.specs.Assuming.{Assumptions};
ghost use Rattle.diff_run_verdicts.specs.RunVerdicts.{AreFoundAssuming, AreTrueOfRunsAssuming};
ghost use Rattle.diff_run_verdicts.specs.Telling.{AreToldOf, verdict_of};

use crate::findings::RunFindings;
use diff_matching::{Matching, Pair};
use diff_meaning::{Verdict, Verdicts};
use diff_search::RunDifference;
use scan_cycle::Memory;
use std::alloc::{AllocError, Global};

/// The verdict by what a search found.
fn verdict_of(found: &RunDifference) -> Verdict
    ensures { result ≡ verdict_of found.now }
{
    match found {
        RunDifference::Shown(runs) => Verdict::Differs {
            old: runs.value,
            new: !runs.value,
        },
        RunDifference::Never => Verdict::Same,
        RunDifference::Open(_) => Verdict::Unsettled,
    }
}

/// The verdicts by what searches found.
fn all_of(alloc: Global, list: &[RunDifference]) -> Result<Vec<Verdict>, AllocError>
    ensures { IfOk result (λ v. v.items ≡ map verdict_of list.now) }
{
    list.iter().map(|found| verdict_of(found)).collect(alloc)
}

/// For each pair that it is the same.
fn all_same(alloc: Global, pairs: &[Pair]) -> Result<Vec<Verdict>, AllocError>
    ensures { IfOk result (λ v. v.items ≡ map (λ x. Same) pairs.now) }
{
    pairs.iter().map(|_| Verdict::Same).collect(alloc)
}

/// The verdicts on all names by what searches found: what no runs ever show is the same, what some show differs, whatever was assumed of the inputs.
/// Of edges, which have no name, nothing was searched for; they count as the same, for which no row stands.
///
/// # Errors
///
/// `Memory` when out of memory.
pub fn verdicts_of(
    alloc: Global,
    matching: &Matching,
    findings: &RunFindings,
) -> Result<Verdicts, Memory>
    ensures told { IfOk result (AreToldOf findings.now) }
    ensures truth { IfOk result (λ v. (a : Assumptions) (p q : Drawing) → AreFoundAssuming a matching.now p q findings.now → AreTrueOfRunsAssuming a matching.now p q v) }
{
    let variables = all_of(alloc, &findings.variables)?;
    let instances = all_of(alloc, &findings.instances)?;
    let memories = all_same(alloc, matching.memories())?;
    Ok(Verdicts {
        variables,
        instances,
        memories,
    })
}
