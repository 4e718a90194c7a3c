//! The header of a stimulus: the inputs that it names.

ghost use Rattle.std.specs.Prelude.{◌≡◌, ◌<◌, ◌≤◌, ◌==◌, ◌↔◌, [], All, List, IfErr, IfOk, IfSome, IsTrue, Some, codes, count_by, length, slice_index_or, take};
ghost use Rattle.std.specs.List.{list_any};
ghost use Rattle.csv.specs.Records.{field_at, fields_of};
ghost use Rattle.io_text.specs.Left.{Fields};
ghost use Rattle.diagram_declarations.specs.Decls.{is_input};
ghost use Rattle.text_trace.specs.Steps.{NoColumns};
ghost use Rattle.text_trace.specs.Stimulus.{input_named, IsHeader};

use crate::fault::SimFault;
use csv::ByteRecord;
use diagram_declarations::{Decls, Name, Symbol, Var};
use std::alloc::Global;

/// How many inputs are declared before the variable of a number.
fn inputs_before(vars: &[Var], number: usize) -> usize
    requires { number ≤ length vars.now }
    ensures { result ≡ count_by is_input (take number vars.now) }
{
    vars[..number].iter().filter(|var| var.is_input()).count()
}

/// The place of an input among the inputs, by its name.
fn input_named(decls: &Decls, word: &[u8]) -> Option<usize>
    ensures place { result ≡ input_named decls.now word.now }
    ensures below { IfSome result (λ place. place < count_by is_input decls.now.vars) }
{
    let Some(name) = Name::new(word) else {
        return None;
    };
    let number = match decls.find(&name) {
        Some(Symbol::Var(number)) => number,
        Some(Symbol::Instance(_)) | None => return None,
    };
    let vars = decls.vars();
    if vars.len() <= number {
        return None;
    }
    if !vars[number].is_input() {
        return None;
    }
    Some(inputs_before(vars, number))
}

/// The place among the inputs of the one that a field names.
fn input_at(decls: &Decls, row: &ByteRecord, number: usize) -> Option<usize>
    requires { number < length (fields_of row.now) }
    ensures place { result ≡ input_named decls.now (slice_index_or (fields_of row.now) number []) }
    ensures below { IfSome result (λ place. place < count_by is_input decls.now.vars) }
{
    match row.get(number) {
        Some(word) => input_named(decls, word),
        None => None,
    }
}

/// Whether the header names the input at this place among the inputs.
fn is_named(columns: &[usize], place: usize) -> bool
    ensures { result ≡ list_any (λ c. place == c) columns.now }
{
    columns.iter().any(|column| place == *column)
}

/// Whether the first field is the word for the moment.
fn is_moment(row: &ByteRecord) -> bool
    ensures { IsTrue result ↔ (field_at (fields_of row.now) 0 ≡ Some (codes "moment")) }
{
    match row.get(0) {
        Some(field) => field == b"moment".as_slice(),
        None => false,
    }
}

/// The places among the inputs of those that the header names, one for each column after the moment.
pub(crate) fn columns(
    alloc: Global,
    decls: &Decls,
    row: &ByteRecord,
) -> Result<Vec<usize>, SimFault>
    ensures columns { IfOk result (λ columns. IsHeader decls.now (fields_of row.now) columns.items) }
    ensures below { IfOk result (λ columns. All (λ c. c < count_by is_input decls.now.vars) columns.items) }
    ensures refused { (rows : List Fields) → IfErr result (NoColumns decls.now (fields_of row.now) rows) }
{
    if !is_moment(row) {
        return Err(SimFault::BadRow { row: 1 });
    }
    let mut columns = Vec::new(alloc);
    for number in 1..row.len() {
        let Some(place) = input_at(decls, row, number) else {
            return Err(SimFault::UnknownName { row: 1 });
        };
        if is_named(&columns, place) {
            return Err(SimFault::BadRow { row: 1 });
        }
        let Ok(()) = columns.push(place) else {
            return Err(SimFault::Memory);
        };
    }
    Ok(columns)
}
