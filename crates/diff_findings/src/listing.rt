//! All that is found.

ghost use Rattle.std.specs.Prelude.{◌≡◌, ◌++◌, IfOk, OnOk};
ghost use Rattle.diff_findings.specs.Findings.{count_of, findings as findings_list, findings_of};

use crate::finding::{Finding, Sort, Subject};
use crate::remarks::add_remarks;
use diagram_program::Program;
use diff_matching::Matching;
use diff_meaning::{Counted, Verdicts};
use scan_cycle::Memory;
use std::alloc::Global;

/// Two programs, what belongs together in them, which states count, and what was judged of what belongs together.
#[derive(Clone, Copy)]
pub struct Compared<'a> {
    pub old: &'a Program,
    pub new: &'a Program,
    pub matching: &'a Matching,
    pub counted: &'a Counted<'a>,
    pub verdicts: &'a Verdicts,
}

/// In which order something is said of names.
const SORTS: [Sort; 5] = [
    Sort::NewVariable,
    Sort::NewInstance,
    Sort::OldVariable,
    Sort::OldInstance,
    Sort::NewEdge,
];

/// How many of a sort there are.
fn count_of(compared: Compared<'_>, sort: Sort) -> usize
    ensures { result ≡ count_of compared.entry.old.now compared.entry.new.now sort }
{
    match sort {
        Sort::NewVariable => compared.new.decls().vars().len(),
        Sort::NewInstance => compared.new.decls().instances().len(),
        Sort::OldVariable => compared.old.decls().vars().len(),
        Sort::OldInstance => compared.old.decls().instances().len(),
        Sort::NewEdge => compared.new.memories(),
    }
}

/// Adds what is said of all of a sort.
#[tactic(auto, unfolding(crate::specs::Findings::findings_of))]
fn add_sort(list: &mut Vec<Finding>, compared: Compared<'_>, sort: Sort) -> Result<(), Memory>
    ensures { OnOk result (list.new.items ≡ list.old.items ++ findings_of compared.entry.old.now compared.entry.new.now compared.entry.matching.now compared.entry.verdicts.now sort) }
{
    for number in 0..count_of(compared, sort) {
        add_remarks(list, compared, Subject { sort, number })?;
    }
    Ok(())
}

/// What is said of two programs: of the variables of the new one, in order of declaration, of its instances, of the variables and the
/// instances that the old one alone has, and of edges.
///
/// # Errors
///
/// `Memory` when out of memory.
pub fn findings(alloc: Global, compared: Compared<'_>) -> Result<Vec<Finding>, Memory>
    ensures { IfOk result (λ v. v.items ≡ findings_list compared.entry.old.now compared.entry.new.now compared.entry.matching.now compared.entry.verdicts.now) }
{
    let mut list = Vec::new(alloc);
    for sort in SORTS.as_slice() {
        add_sort(&mut list, compared, *sort)?;
    }
    Ok(list)
}
