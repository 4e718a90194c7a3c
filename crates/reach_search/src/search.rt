//! What a search for a run is made with.

ghost use Rattle.std.specs.Prelude.{◌≡◌, IfOk};
ghost use Rattle.scan_cycle.specs.Standing.{Fits};
ghost use Rattle.reach_runs.specs.Asking.{question_of};
ghost use Rattle.reach_search.specs.Searches.{AreAsked, IsSearchOf, input_value};
ghost use Rattle.reach_search.specs.Sets.{count_of};

use crate::choosing::Chooser;
use crate::index::Index;
use crate::state_set::StateSet;
use crate::telling::Teller;
use crate::ways::Ways;
use reach_runs::{RunQuery, RunScan};
use reach_states::Untimed;
use scan_cycle::Memory;
use scan_partial::{Knowledge, Room};
use scan_signals::{Operations, Tri};
use std::alloc::Global;

/// How far a search goes.
#[derive(Clone, Copy, Debug, PartialEq, Eq)]
pub struct Limits {
    /// How many states it keeps at most.
    pub states: usize,
    /// How many scans its runs have at most; at least 1.
    pub scans: u64,
    /// How far apart the scans of a run at any moments are where they can be, in milliseconds.
    pub gap: u64,
}

/// What a search for a run is made with.
#[derive(Drop)]
pub(crate) struct Search {
    /// What is known before a scan, and after it.
    pub before: Knowledge<Tri, Untimed>,
    pub after: Knowledge<Tri, Untimed>,
    pub room: Room<Tri>,
    /// What is known of the inputs of the scan, in order of declaration.
    pub inputs: Vec<Tri>,
    /// Of which timers the time has passed in the scan.
    pub over: Vec<bool>,
    /// The states that were found.
    pub set: StateSet,
    pub index: Index,
    pub ways: Ways,
    pub teller: Teller,
    pub chooser: Chooser,
    /// The run that was found.
    pub run: Vec<RunScan>,
}

/// What is known of an input in every scan: it is open where it is listed, and otherwise has the value that the state stores.
fn first_value(query: RunQuery<'_>, var: usize) -> Tri
    ensures { result ≡ input_value (question_of query.entry) var }
{
    if query.listed.contains(&var) {
        Tri::Unsure
    } else {
        Tri::known(query.state.value_or_off(var))
    }
}

/// What is known of the inputs in every scan: the listed ones are open, the others have the value that the state stores.
fn first_inputs(alloc: Global, query: RunQuery<'_>) -> Result<Vec<Tri>, Memory>
    requires { Fits query.program.now query.state.now }
    ensures { IfOk result (λ v. AreAsked (question_of query.entry) v.items) }
{
    let mut inputs: Vec<Tri> = Vec::new(alloc);
    let vars = query.program.decls().vars();
    for var in 0..vars.len() {
        if vars[var].is_input() {
            inputs.push(first_value(query, var))?;
        }
    }
    Ok(inputs)
}

impl Search {
    /// For what is asked.
    ///
    /// # Errors
    ///
    /// `Memory` when out of memory.
    pub(crate) fn new(alloc: Global, query: RunQuery<'_>) -> Result<Search, Memory>
        requires { Fits query.program.now query.state.now }
        ensures search { IfOk result (λ s. IsSearchOf query.entry.program.now s) }
        ensures inputs { IfOk result (λ s. AreAsked (question_of query.entry) s.inputs.items) }
        ensures none { IfOk result (λ s. count_of s.set ≡ 0) }
    {
        let program = query.program;
        let inputs = first_inputs(alloc, query)?;
        let entries = inputs.len();
        let instances = program.decls().instances().len();
        // The small ones first: what is made is dropped again where a later one finds no memory.
        Ok(Search {
            inputs,
            over: vec![in alloc; false; instances]?,
            index: Index::new(alloc)?,
            before: Knowledge::new(alloc, program)?,
            after: Knowledge::new(alloc, program)?,
            room: Room::new(alloc, program)?,
            teller: Teller::new(alloc, query)?,
            chooser: Chooser::new(alloc, program)?,
            set: StateSet::new(alloc, program),
            ways: Ways::new(alloc, entries, instances),
            run: Vec::new(alloc),
        })
    }
}
