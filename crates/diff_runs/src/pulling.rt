//! The runs of two programs that a run of a program has in it in which they stand side by side.

ghost use Rattle.std.specs.Prelude.{◌≡◌, Contains, IfOk, IfSome, Some, false, map, slice_get, slice_index_or};
ghost use Rattle.diff_matching.specs.declared.matching.Pair.{Pair};
ghost use Rattle.diff_runs.specs.Pulling.{ArePlaces, pulled_scan, pulled_values};

use causes_query::source::input_variables;
use diagram_program::Program;
use diff_matching::{Matching, Pair};
use reach_runs::RunScan;
use std::alloc::{AllocError, Global};

/// The place of the input that an input is with, among the inputs of the other program.
fn place_of(pairs: &[Pair], input: usize, there: &[usize]) -> Option<usize>
    ensures { IfSome result (λ place. (x : Pair) × Contains pairs.now x × (x.old ≡ input) × (slice_get there.now place ≡ Some x.new)) }
{
    let pair = pairs.iter().find(|pair| pair.old == input)?;
    there.iter().position(|var| *var == pair.new)
}

/// For each input of a program, in order of declaration: the place of the input that it is with among those of the program in which it stands
/// beside another one. `None` where an input is with none.
///
/// # Errors
///
/// `AllocError` when out of memory.
pub fn places(
    alloc: Global,
    matching: &Matching,
    part: &Program,
    both: &Program,
) -> Result<Option<Vec<usize>>, AllocError>
    ensures { IfOk result (λ found. IfSome found (λ v. ArePlaces matching.now part.now both.now v.items)) }
{
    let of_part = input_variables(alloc, part.decls().vars())?;
    let of_both = input_variables(alloc, both.decls().vars())?;
    let mut places: Vec<usize> = Vec::new(alloc);
    for number in 0..of_part.len() {
        let Some(place) = place_of(matching.inputs(), of_part[number], &of_both) else {
            return Ok(None);
        };
        places.push(place)?;
    }
    Ok(Some(places))
}

/// Whether what is at a place is ON. Past the last one nothing is.
fn is_on_at(values: &[bool], place: usize) -> bool
    ensures { result ≡ slice_index_or values.now place false }
{
    match values.get(place) {
        Some(value) => *value,
        None => false,
    }
}

/// The values at these places.
fn values_at(alloc: Global, places: &[usize], values: &[bool]) -> Result<Vec<bool>, AllocError>
    ensures { IfOk result (λ v. v.items ≡ pulled_values places.now values.now) }
{
    places
        .iter()
        .map(|place| is_on_at(values, *place))
        .collect(alloc)
}

/// The run of one of the programs that a run has in it: at the same moments, each input takes the value at its place.
///
/// # Errors
///
/// `AllocError` when out of memory.
pub fn pulled(alloc: Global, places: &[usize], run: &[RunScan]) -> Result<Vec<RunScan>, AllocError>
    ensures { IfOk result (λ scans. scans.items ≡ map (pulled_scan places.now) run.now) }
{
    let mut scans: Vec<RunScan> = Vec::new(alloc);
    for number in 0..run.len() {
        let scan = &run[number];
        let inputs = values_at(alloc, places, &scan.inputs)?;
        scans.push(RunScan {
            moment: scan.moment,
            inputs,
        })?;
    }
    Ok(scans)
}
