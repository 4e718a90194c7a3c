//! The import of a project: its program text, or the report of why there is none.

ghost use Rattle.std.specs.Prelude.{◌≡◌, ◌≤◌, IfErr, IfOk, option_map};
ghost use Rattle.clp_project.specs.Project.{IsProject};
ghost use Rattle.clp_import.specs.Import.{HasText, IsFaultOfAny};
ghost use Rattle.io_text.specs.Log.{PutsAll};
ghost use Rattle.cli_import.specs.Carrying.{BreaksCarrying, BreaksProject, Carries, CarriesProject};

use crate::faults::{write_import_fault, write_project_fault, write_refusals};
use cli_inputs::{ToolFault, report_unread};
use cli_plc::{is_xml, write_unit};
use clp_import::{ImportFault, Linked, import, refusals};
use clp_project::{Project, ReadingOptions, joined, links_in, read_project};
use io_text::{Sink, WriteFault, put};
use plc_import::UnitChoice;
use std::alloc::Global;

/// How a project is imported.
#[derive(Clone, Copy)]
pub struct Importing<'n> {
    /// How a project of ClassicLadder is read.
    pub reading: ReadingOptions,
    /// The name of the program that is meant of a project in PLCopen XML; its only one where there is none.
    pub pou: Option<&'n [u8]>,
    /// Whether a fault is explained.
    pub why: bool,
}

/// The status 1 of a request that ends with a fault, once the writer took what it could of the report.
fn told(written: Result<(), WriteFault>) -> u8
    ensures { result ≡ 1 }
{
    match written {
        Ok(()) => 1,
        Err(_) => 1,
    }
}

/// The program text of a project, with names from a HAL file.
fn text_of(
    alloc: Global,
    reading: ReadingOptions,
    project: &Project<'_>,
    hal: &[u8],
) -> Result<Vec<u8>, ImportFault>
    ensures carried { IfOk result (λ v. HasText reading project.now v.items) }
    ensures fault { IfErr result (λ e. IsFaultOfAny reading project.now e) }
{
    let Ok(lines) = joined(alloc, hal) else {
        return Err(ImportFault::Memory);
    };
    match links_in(alloc, &lines) {
        Ok(links) => import(alloc, reading, project, &Linked { links: &links }),
        Err(_) => Err(ImportFault::Memory),
    }
}

/// How a project is read, and whether each fault is explained.
#[derive(Clone, Copy)]
struct ImportOptions {
    reading: ReadingOptions,
    why: bool,
}

/// Writes the program text of a project none of whose elements is refused.
fn carry_whole<O: Sink, E: Sink>(
    alloc: Global,
    options: ImportOptions,
    text: &[u8],
    project: &Project<'_>,
    hal: &[u8],
    out: &mut O,
    err: &mut E,
) -> u8
    requires { IsProject options.reading text.now project.now }
    ensures status { result ≤ 1 }
    ensures done { result ≡ 0 → CarriesProject options.reading text.now (PutsAll (O.log out.old) (O.log out.new)) × (E.log err.new ≡ E.log err.old) }
    ensures failed { result ≡ 1 → BreaksProject options.reading options.why text.now (O.log out.old) (O.log out.new) (E.log err.old) (E.log err.new) }
{
    match text_of(alloc, options.reading, project, hal) {
        Ok(drawn) => match put(out, &drawn) {
            Ok(()) => 0,
            Err(_) => report_unread(options.why, &ToolFault::Write, err),
        },
        Err(fault) => told(write_import_fault(options.why, fault, err)),
    }
}

/// Writes the program text of the project, or what is refused of it.
fn carry_project<O: Sink, E: Sink>(
    alloc: Global,
    options: ImportOptions,
    text: &[u8],
    project: &Project<'_>,
    hal: &[u8],
    out: &mut O,
    err: &mut E,
) -> u8
    requires { IsProject options.reading text.now project.now }
    ensures status { result ≤ 1 }
    ensures done { result ≡ 0 → CarriesProject options.reading text.now (PutsAll (O.log out.old) (O.log out.new)) × (E.log err.new ≡ E.log err.old) }
    ensures failed { result ≡ 1 → BreaksProject options.reading options.why text.now (O.log out.old) (O.log out.new) (E.log err.old) (E.log err.new) }
{
    match refusals(alloc, options.reading, project) {
        Ok(refused) => {
            if refused.is_empty() {
                return carry_whole(alloc, options, text, project, hal, out, err);
            }
            told(write_refusals(options.why, &refused, err))
        }
        Err(_) => told(write_import_fault(options.why, ImportFault::Memory, err)),
    }
}

/// Writes the program text of a ClassicLadder project, or what is said of why there is none.
fn carry_clp<O: Sink, E: Sink>(
    alloc: Global,
    reading: ReadingOptions,
    why: bool,
    text: &[u8],
    hal: &[u8],
    out: &mut O,
    err: &mut E,
) -> u8
    ensures status { result ≤ 1 }
    ensures done { result ≡ 0 → CarriesProject reading text.now (PutsAll (O.log out.old) (O.log out.new)) × (E.log err.new ≡ E.log err.old) }
    ensures failed { result ≡ 1 → BreaksProject reading why text.now (O.log out.old) (O.log out.new) (E.log err.old) (E.log err.new) }
{
    match read_project(alloc, reading, text) {
        Ok(project) => {
            let options = ImportOptions { reading, why };
            carry_project(alloc, options, text, &project, hal, out, err)
        }
        Err(fault) => told(write_project_fault(why, fault, err)),
    }
}

/// Writes the program text of a project on `out`, or on `err` what is said of why there is none. A text that begins as XML does is a project in
/// PLCopen XML, of which the program that is meant is carried over; any other is one of ClassicLadder: there is a line for each element that can't
/// be carried over, or the line of another fault, each explained where that is asked for. The text of a HAL file, empty where there is none, gives
/// names to inputs and outputs of a ClassicLadder project. Returns the status: 0 where the whole text was written, or 1.
pub fn carry<O: Sink, E: Sink>(
    alloc: Global,
    importing: Importing<'_>,
    text: &[u8],
    hal: &[u8],
    out: &mut O,
    err: &mut E,
) -> u8
    ensures status { result ≤ 1 }
    ensures done { result ≡ 0 → Carries importing.entry.reading (option_map (λ word. word.now) importing.entry.pou) text.now (PutsAll (O.log out.old) (O.log out.new)) × (E.log err.new ≡ E.log err.old) }
    ensures failed { result ≡ 1 → BreaksCarrying importing.entry.reading importing.entry.why (option_map (λ word. word.now) importing.entry.pou) text.now (O.log out.old) (O.log out.new) (E.log err.old) (E.log err.new) }
{
    if is_xml(text) {
        let choice = UnitChoice {
            name: importing.pou,
            is_open: importing.reading.opened,
        };
        return write_unit(alloc, importing.why, text, choice, out, err);
    }
    carry_clp(alloc, importing.reading, importing.why, text, hal, out, err)
}
