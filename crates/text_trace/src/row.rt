//! A record of a stimulus after the header, and the input image that it asks for.

ghost use Rattle.std.specs.Prelude.{◌≡◌, ◌<◌, ◌+◌, All, IfOk, IfSome, None, count_by, drop, false, length, map, slice_index_or};
ghost use Rattle.csv.specs.Records.{field_at, fields_of};
ghost use Rattle.diagram_declarations.specs.Decls.{is_input};
ghost use Rattle.text_trace.specs.Room.{ArePicked, bits_of};
ghost use Rattle.text_trace.specs.Simulation.{IsNoRow};
ghost use Rattle.text_trace.specs.Stimulus.{are_bits, given_by, is_bit, IsRow};

use csv::ByteRecord;
use diagram_declarations::Var;
use io_text::{is_on, read_number};
use scan_cycle::State;
use std::alloc::{AllocError, Global};

/// Whether a field of a record is `0` or `1`.
fn is_bit(row: &ByteRecord, number: usize) -> bool
    ensures { result ≡ is_bit (field_at (fields_of row.now) number) }
{
    match row.get(number) {
        Some([byte]) => *byte == b'1' || *byte == b'0',
        Some(_) | None => false,
    }
}

/// Whether all fields after the first are bits.
fn are_bits(row: &ByteRecord) -> bool
    ensures { result ≡ are_bits (drop 1 (fields_of row.now)) }
{
    for number in 1..row.len() {
        if !is_bit(row, number) {
            return false;
        }
    }
    true
}

/// The moment of a record, where that is a moment and a bit for each column.
pub(crate) fn read_row(columns: &[usize], row: &ByteRecord) -> Option<u64>
    ensures some { IfSome result (λ moment. IsRow columns.now (fields_of row.now) moment (bits_of (fields_of row.now))) }
    ensures none { result ≡ None → IsNoRow columns.now (fields_of row.now) }
{
    if row.len() != columns.len() + 1 {
        return None;
    }
    let Some(field) = row.get(0) else {
        return None;
    };
    if !are_bits(row) {
        return None;
    }
    read_number(field)
}

/// The numbers of the variables that are inputs, in order of declaration.
pub(crate) fn inputs(alloc: Global, vars: &[Var]) -> Result<Vec<usize>, AllocError>
    ensures picked { IfOk result (λ numbers. ArePicked is_input vars.now numbers.items) }
    ensures count { IfOk result (λ numbers. length numbers.items ≡ count_by is_input vars.now) }
{
    let mut numbers = Vec::new(alloc);
    for number in 0..vars.len() {
        if !vars[number].is_input() {
            continue;
        }
        numbers.push(number)?;
    }
    Ok(numbers)
}

/// Gives the input image the values that the inputs have in the state.
pub(crate) fn fill_inputs(inputs: &[usize], state: &State, image: &mut [bool])
    requires { length image.old ≡ length inputs.now }
    ensures { image.new ≡ map (λ n. slice_index_or state.now.held.values n false) inputs.now }
{
    for place in 0..inputs.len() {
        image[place] = state.value_or_off(inputs[place]);
    }
}

/// Gives the inputs of the columns the bits of a record.
pub(crate) fn give_columns(columns: &[usize], row: &ByteRecord, image: &mut [bool])
    requires count { length (fields_of row.now) ≡ length columns.now + 1 }
    requires below { All (λ c. c < length image.old) columns.now }
    ensures { image.new ≡ given_by columns.now (bits_of (fields_of row.now)) image.old }
{
    for number in 0..columns.len() {
        let column = columns[number];
        image[column] = is_on(row, number + 1);
    }
}
