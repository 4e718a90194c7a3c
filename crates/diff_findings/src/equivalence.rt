//! Whether two programs are equivalent.

ghost use Rattle.std.specs.Prelude.{◌≡◌, ◌↔◌, IfOk, IsTrue};
ghost use Rattle.std.specs.List.{list_any};
ghost use Rattle.scan_cycle.specs.Standing.{fresh};
ghost use Rattle.diff_matching.specs.Matching.{Agree, AgreeOnInputs};
ghost use Rattle.diff_matching.specs.Runs.{HaveNoInput};
ghost use Rattle.diff_cases.specs.Assuming.{assumed_of_both};
ghost use Rattle.diff_meaning.specs.Counting.{CountAssuming, StayFromFreshAssuming};
ghost use Rattle.diff_meaning.specs.Verdicts.{AreTrue};
ghost use Rattle.diff_findings.specs.Equivalence.{BeginAlike, IsSaidOfRunsAssuming, is_about_terminals, is_output_alone, is_output_of};
ghost use Rattle.diff_findings.specs.Findings.{findings};

use crate::finding::{Finding, Remark, Sort, Subject};
use crate::listing::Compared;
use diagram_declarations::VarKind;
use diagram_program::Program;
use diff_matching::{Matching, agree};
use diff_meaning::are_all_same;
use diff_meaning::laws::fresh_runs_agree_assuming;
use scan_cycle::{Memory, State};
use std::alloc::Global;

/// Whether a state agrees with the fresh one of the new program.
fn begins_like(
    alloc: Global,
    matching: &Matching,
    old: &State,
    new: &Program,
) -> Result<bool, Memory>
    ensures { IfOk result (λ b. IsTrue b ↔ (Agree matching.now old.now.held (fresh new.now).held × AgreeOnInputs matching.now old.now.held (fresh new.now).held)) }
{
    match State::fresh(alloc, new) {
        Ok(new) => {
            let is_alike = agree(matching, old, &new);
            drop(new);
            Ok(is_alike)
        }
        Err(_) => Err(Memory),
    }
}

/// Whether all that belongs together begins alike.
fn begin_alike(alloc: Global, compared: Compared<'_>) -> Result<bool, Memory>
    ensures { IfOk result (λ b. IsTrue b ↔ BeginAlike compared.entry.matching.now compared.entry.old.now compared.entry.new.now) }
{
    let old = match State::fresh(alloc, compared.old) {
        Ok(state) => state,
        Err(_) => return Err(Memory),
    };
    let is_alike = begins_like(alloc, compared.matching, &old, compared.new);
    drop(old);
    is_alike
}

/// Whether a variable is an output.
fn is_output_of(program: &Program, var: usize) -> bool
    ensures { result ≡ is_output_of program.now var }
{
    match program.decls().vars().get(var) {
        Some(var) => match var.kind {
            VarKind::Output => true,
            VarKind::Input | VarKind::Memory => false,
        },
        None => false,
    }
}

/// Whether a subject is an output, of the program that alone has it.
fn is_output_alone(compared: Compared<'_>, subject: Subject) -> bool
    ensures { result ≡ is_output_alone compared.entry.old.now compared.entry.new.now subject }
{
    match subject.sort {
        Sort::NewVariable => is_output_of(compared.new, subject.number),
        Sort::OldVariable => is_output_of(compared.old, subject.number),
        Sort::NewInstance | Sort::OldInstance | Sort::NewEdge => false,
    }
}

/// Whether a finding says that a variable has another address, or that an output belongs to one program alone.
fn is_about_terminals(compared: Compared<'_>, finding: &Finding) -> bool
    ensures { result ≡ is_about_terminals compared.entry.old.now compared.entry.new.now finding.now }
{
    match finding.remark {
        Remark::Moved { .. } => true,
        Remark::Alone => is_output_alone(compared, finding.subject),
        Remark::Judged(_) | Remark::Initial { .. } | Remark::Preset { .. } => false,
    }
}

/// Whether some finding does.
fn tells_terminals(compared: Compared<'_>, list: &[Finding]) -> bool
    ensures { result ≡ list_any (is_about_terminals compared.entry.old.now compared.entry.new.now) list.now }
{
    for finding in list {
        if is_about_terminals(compared, finding) {
            return true;
        }
    }
    false
}

/// Whether all that belongs together in two programs is left alike and begins alike, and the outputs are the same ones at the same addresses,
/// by what is found of them. Then no run from the fresh states tells the programs apart in which what is assumed of the inputs is true.
///
/// # Errors
///
/// `Memory` when out of memory.
pub fn are_equivalent(
    alloc: Global,
    compared: Compared<'_>,
    list: &[Finding],
) -> Result<bool, Memory>
    requires judged { AreTrue (CountAssuming compared.counted.now) compared.matching.now compared.old.now compared.new.now compared.verdicts.now }
    requires stays { StayFromFreshAssuming (assumed_of_both compared.counted.now.assumed) compared.counted.now.states compared.old.now compared.new.now }
    requires no_input { HaveNoInput compared.matching.now compared.old.now compared.new.now }
    requires list { list.now ≡ findings compared.old.now compared.new.now compared.matching.now compared.verdicts.now }
    ensures { IfOk result (IsSaidOfRunsAssuming (assumed_of_both compared.entry.counted.now.assumed) compared.entry.matching.now compared.entry.old.now compared.entry.new.now
        compared.entry.verdicts.now) }
{
    fresh_runs_agree_assuming(compared.old, compared.new);
    if !are_all_same(compared.verdicts) || tells_terminals(compared, list) {
        return Ok(false);
    }
    match begin_alike(alloc, compared) {
        Ok(true) => Ok(true),
        Ok(false) => Ok(false),
        Err(_) => Err(Memory),
    }
}
