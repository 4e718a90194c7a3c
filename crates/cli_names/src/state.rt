//! What is said of a state that is of another program.

ghost use Rattle.std.specs.Prelude.{List, IfOk, ◌+◌, ◌<◌, ◌^◌, drop, option_map, slice_get, vec_items};
ghost use Rattle.csv.specs.Records.{fields_of};
ghost use Rattle.diagram_declarations.specs.Decls.{Declared, names_of};
ghost use Rattle.io_text.specs.Left.{Fields, IsPlain, Left};
ghost use Rattle.io_text.specs.Text.{records_of};
ghost use Rattle.text_names.specs.Nearest.{name_at};
ghost use Rattle.cli_names.specs.Advice.{Tells, record_advice, records_advice, state_advice};
ghost use Rattle.cli_names.specs.Steps.{PassesTwo};

use crate::fault::AdviceFault;
use crate::told::told;
use csv::ByteRecord;
use diagram_declarations::Decls;
use io_text::{Records, Sink, next, read_from};
use std::alloc::{AllocError, Global};
use text_names::{count_names, name_at, write_other};

/// Writes that a record has another name than the program there, if it has. Returns whether it has.
fn tell_record<W: Sink>(
    number: u64,
    name: &[u8],
    row: &ByteRecord,
    writer: &mut W,
) -> Result<bool, AdviceFault>
    ensures { (d : Declared) → Tells d (record_advice number name.now (slice_get (fields_of row.now) 1)) (W.log writer.old) (W.log writer.new) result }
{
    let Some(found) = row.get(1) else {
        return Ok(false);
    };
    if found == name {
        return Ok(false);
    }
    told(write_other(number, found, name, writer))
}

/// Reads the two records before those that have names. Returns whether both are there.
fn pass_two(records: &mut Records<'_>, row: &mut ByteRecord) -> Result<bool, AllocError>
    requires { IsPlain records.old }
    ensures plain { IfOk result (λ _. IsPlain records.new) }
    ensures passed { (rows : List Fields) → Left records.old rows → IfOk result (λ found. PassesTwo rows found records.new) }
{
    if !next(records, row)? {
        return Ok(false);
    }
    next(records, row)
}

/// Writes of the first record that has another name than the program there what it has. Returns whether there is one.
fn tell_records<W: Sink>(
    decls: &Decls,
    records: &mut Records<'_>,
    row: &mut ByteRecord,
    writer: &mut W,
) -> Result<bool, AdviceFault>
    requires { IsPlain records.old }
    ensures { (rows : List Fields) → Left records.old rows → Tells decls.now (records_advice 3 (names_of decls.now) rows) (W.log writer.old) (W.log writer.new) result }
{
    for number in 0..count_names(decls) {
        match next(records, row) {
            Ok(true) => {}
            Ok(false) => return Ok(false),
            Err(_) => return Err(AdviceFault::Memory),
        }
        match tell_record(number as u64 + 3, name_at(decls, number), row, writer) {
            Ok(false) => {}
            Ok(true) => return Ok(true),
            Err(fault) => return Err(fault),
        }
    }
    Ok(false)
}

/// The same of the text of a state.
fn tell_text<W: Sink>(
    alloc: Global,
    decls: &Decls,
    text: &[u8],
    writer: &mut W,
) -> Result<bool, AdviceFault>
    ensures { Tells decls.now (records_advice 3 (names_of decls.now) (drop 2 (records_of text.now))) (W.log writer.old) (W.log writer.new) result }
{
    let mut records = read_from(alloc, text);
    let mut row = ByteRecord::new(alloc);
    match pass_two(&mut records, &mut row) {
        Ok(true) => tell_records(decls, &mut records, &mut row, writer),
        Ok(false) => Ok(false),
        Err(_) => Err(AdviceFault::Memory),
    }
}

/// The same of the text of a state, where there is one.
pub(crate) fn tell_state<W: Sink>(
    alloc: Global,
    decls: &Decls,
    state: &Option<Vec<u8>>,
    writer: &mut W,
) -> Result<bool, AdviceFault>
    ensures { Tells decls.now (state_advice decls.now (option_map vec_items state.now)) (W.log writer.old) (W.log writer.new) result }
{
    match state {
        Some(text) => tell_text(alloc, decls, text, writer),
        None => Ok(false),
    }
}
