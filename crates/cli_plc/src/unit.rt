//! The import of a text in XML.

ghost use Rattle.std.specs.Prelude.{◌≡◌, ◌≤◌, option_map};
ghost use Rattle.xml_document.specs.Documents.{IsDocument};
ghost use Rattle.xml_document.specs.Items.{items_of};
ghost use Rattle.io_text.specs.Log.{PutsAll};
ghost use Rattle.cli_plc.specs.Units.{BreaksUnit, CarriesUnit};

use crate::lines::write_fault;
use crate::xml::write_xml_fault;
use cli_inputs::{ToolFault, report_unread};
use io_text::{Sink, WriteFault, put};
use plc_import::{UnitChoice, import_plc};
use std::alloc::Global;
use xml_document::{Document, read_document};

/// The status 1 of a request that ends with a fault, once the writer took what it could of the report.
fn told(written: Result<(), WriteFault>) -> u8
    ensures { result ≡ 1 }
{
    match written {
        Ok(()) => 1,
        Err(_) => 1,
    }
}

/// Writes the program text of a document, or what is said of why there is none.
fn write_document<O: Sink, E: Sink>(
    alloc: Global,
    why: bool,
    text: &[u8],
    document: &Document,
    choice: UnitChoice<'_>,
    out: &mut O,
    err: &mut E,
) -> u8
    requires { IsDocument text.now (items_of document.now) }
    ensures status { result ≤ 1 }
    ensures done { result ≡ 0 → CarriesUnit (option_map (λ word. word.now) choice.entry.name) choice.entry.is_open text.now (PutsAll (O.log out.old) (O.log out.new)) × (E.log err.new ≡ E.log err.old) }
    ensures failed { result ≡ 1 → BreaksUnit why (option_map (λ word. word.now) choice.entry.name) choice.entry.is_open text.now (O.log out.old) (O.log out.new) (E.log err.old) (E.log err.new) }
{
    match import_plc(alloc, document, choice) {
        Ok(drawn) => match put(out, &drawn) {
            Ok(()) => 0,
            Err(_) => report_unread(why, &ToolFault::Write, err),
        },
        Err(fault) => told(write_fault(why, document, fault, err)),
    }
}

/// Writes the program text of a program of a project in PLCopen XML on `out`, or on `err` the line of the fault for which there is none,
/// explained where that is asked for. The program is the unit with a name, or the only one that is a program; outputs of
/// blocks that aren't known become inputs of it, if that is asked for. Returns the status: 0 where the
/// whole text was written, or 1.
pub fn write_unit<O: Sink, E: Sink>(
    alloc: Global,
    why: bool,
    text: &[u8],
    choice: UnitChoice<'_>,
    out: &mut O,
    err: &mut E,
) -> u8
    ensures status { result ≤ 1 }
    ensures done { result ≡ 0 → CarriesUnit (option_map (λ word. word.now) choice.entry.name) choice.entry.is_open text.now (PutsAll (O.log out.old) (O.log out.new)) × (E.log err.new ≡ E.log err.old) }
    ensures failed { result ≡ 1 → BreaksUnit why (option_map (λ word. word.now) choice.entry.name) choice.entry.is_open text.now (O.log out.old) (O.log out.new) (E.log err.old) (E.log err.new) }
{
    match read_document(alloc, text) {
        Ok(document) => write_document(alloc, why, text, &document, choice, out, err),
        Err(fault) => told(write_xml_fault(why, text, fault, err)),
    }
}
