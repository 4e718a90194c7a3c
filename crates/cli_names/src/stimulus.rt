//! What is said of a name in the header of a stimulus that is that of no input.

ghost use Rattle.std.specs.Prelude.{◌≡◌, [], drop, get_or, option_map, slice_index_or, vec_items};
ghost use Rattle.csv.specs.Records.{fields_of};
ghost use Rattle.diagram_declarations.specs.Decls.{is_input_at};
ghost use Rattle.io_text.specs.Text.{records_of};
ghost use Rattle.std.specs.Prelude.{slice_get};
ghost use Rattle.cli_names.specs.Advice.{Tells, name_advice, names_advice, stimulus_advice};

use crate::fault::AdviceFault;
use crate::told::told;
use crate::words::declared_as;
use csv::ByteRecord;
use diagram_declarations::{Decls, Symbol};
use io_text::{Sink, next, read_from};
use std::alloc::Global;
use text_names::{Wanted, write_no_input, write_unknown};

/// Whether the variable of this number is an input.
fn is_input(decls: &Decls, number: usize) -> bool
    ensures { result ≡ is_input_at (slice_get decls.now.vars number) }
{
    match decls.vars().get(number) {
        Some(var) => var.is_input(),
        None => false,
    }
}

/// Writes what is wrong with a name, if it is that of no input. Returns whether it is.
fn tell_name<W: Sink>(
    alloc: Global,
    decls: &Decls,
    name: &[u8],
    writer: &mut W,
) -> Result<bool, AdviceFault>
    ensures { Tells decls.now (name_advice decls.now name.now) (W.log writer.old) (W.log writer.new) result }
{
    match declared_as(decls, name) {
        Some(Symbol::Var(number)) => {
            if is_input(decls, number) {
                return Ok(false);
            }
            told(write_no_input(name, writer))
        }
        Some(Symbol::Instance(_)) => told(write_no_input(name, writer)),
        None => told(write_unknown(alloc, decls, Wanted::Input, name, writer)),
    }
}

/// A field of a record; empty past the last one.
fn field(row: &ByteRecord, number: usize) -> &[u8]
    ensures { result.now ≡ get_or (fields_of row.now) number [] }
{
    match row.get(number) {
        Some(field) => field,
        None => &[],
    }
}

/// Writes of the first name in a header that is that of no input what is wrong with it. Returns whether there is one.
fn tell_header<W: Sink>(
    alloc: Global,
    decls: &Decls,
    header: &ByteRecord,
    writer: &mut W,
) -> Result<bool, AdviceFault>
    ensures { Tells decls.now (names_advice decls.now (drop 1 (fields_of header.now))) (W.log writer.old) (W.log writer.new) result }
{
    for number in 1..header.len() {
        match tell_name(alloc, decls, field(header, number), writer) {
            Ok(false) => {}
            Ok(true) => return Ok(true),
            Err(fault) => return Err(fault),
        }
    }
    Ok(false)
}

/// The same of the text of a stimulus.
fn tell_text<W: Sink>(
    alloc: Global,
    decls: &Decls,
    text: &[u8],
    writer: &mut W,
) -> Result<bool, AdviceFault>
    ensures { Tells decls.now (names_advice decls.now (drop 1 (slice_index_or (records_of text.now) 0 []))) (W.log writer.old) (W.log writer.new) result }
{
    let mut records = read_from(alloc, text);
    let mut header = ByteRecord::new(alloc);
    match next(&mut records, &mut header) {
        Ok(true) => tell_header(alloc, decls, &header, writer),
        Ok(false) => Ok(false),
        Err(_) => Err(AdviceFault::Memory),
    }
}

/// The same of the text of a stimulus, where there is one.
pub(crate) fn tell_stimulus<W: Sink>(
    alloc: Global,
    decls: &Decls,
    stimulus: &Option<Vec<u8>>,
    writer: &mut W,
) -> Result<bool, AdviceFault>
    ensures { Tells decls.now (stimulus_advice decls.now (option_map vec_items stimulus.now)) (W.log writer.old) (W.log writer.new) result }
{
    match stimulus {
        Some(text) => tell_text(alloc, decls, text, writer),
        None => Ok(false),
    }
}
