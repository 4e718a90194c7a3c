//! The names that were judged.

ghost use Rattle.std.specs.Prelude.{◌≡◌, IfOk, slice_get};
ghost use Rattle.cli_run_verdicts.specs.Naming.{run_name, subjects_of};

use crate::judged::RunsJudged;
use diff_findings::{Sort, Subject};
use diff_matching::Matching;
use scan_cycle::Memory;
use std::alloc::Global;
use text_findings::name_of;

/// What the row of a name is about: variables first, and then instances.
fn subject_at(matching: &Matching, number: usize) -> Option<Subject>
    ensures { result ≡ slice_get (subjects_of matching.now) number }
{
    let variables = matching.variables();
    if number < variables.len() {
        return Some(Subject {
            sort: Sort::NewVariable,
            number: variables[number].new,
        });
    }
    let pair = matching.instances().get(number - variables.len())?;
    Some(Subject {
        sort: Sort::NewInstance,
        number: pair.new,
    })
}

/// The name, as its row has it.
fn row_name(judged: &RunsJudged, number: usize) -> &[u8]
    ensures { result.now ≡ run_name judged.now number }
{
    match subject_at(judged.matching(), number) {
        Some(subject) => name_of(judged.old(), judged.new(), subject),
        None => b"",
    }
}

impl RunsJudged {
    /// The name of the new program's symbol, by its number, counted from 0, as its row has it. It is empty where there is no such name.
    ///
    /// # Errors
    ///
    /// `Memory` when out of memory.
    pub fn name(&self, alloc: Global, number: usize) -> Result<Vec<u8>, Memory>
        ensures { IfOk result (λ name. name.items ≡ run_name self.now number) }
    {
        let mut name = Vec::new(alloc);
        match name.extend_from_slice(row_name(self, number)) {
            Ok(()) => Ok(name),
            Err(_) => {
                drop(name);
                Err(Memory)
            }
        }
    }
}
