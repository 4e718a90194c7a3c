//! A ladder program in a language of controllers, or the report of why there is none.

ghost use Rattle.std.specs.Prelude.{◌≡◌, ◌≤◌, ◌⊎◌, IfErr, IfOk};
ghost use Rattle.cli_inputs.specs.Reports.{Refuses, logs};
ghost use Rattle.cli_inputs.specs.Setting.{HasProgramFault, given_by};
ghost use Rattle.diagram_reader.specs.Titled.{HasProgram};
ghost use Rattle.export_program.specs.Exported.{IsRefused, addresses};
ghost use Rattle.io_text.specs.Log.{PutsAll, WriteLog};
ghost use Rattle.cli_export.specs.Exporting.{BreaksExport, Exports, IsSaid, IsWrittenAs};

use crate::lines::write_fault;
use cli_arguments::Language;
use cli_inputs::{Texts, ToolFault, read_given_program, report};
use diagram_declarations::Decls;
use diagram_program::Program;
use export_program::{ExportFault, export};
use export_text::Form;
use io_text::{Sink, put};
use plc_export::export_plc;
use std::alloc::Global;

/// How a program is exported.
#[derive(Clone, Copy)]
pub struct Exporting<'n> {
    /// The language in which it is written.
    pub language: Language,
    /// The name of the program in the text.
    pub name: &'n [u8],
    /// Whether an address with one number is written by byte and bit.
    pub bits: bool,
    /// Whether the inputs of bistables are spelled as CODESYS has them.
    pub codesys: bool,
}

/// Writes the report of a fault, as far as the writer takes it. Returns the status 1.
fn told<E: Sink>(why: bool, decls: &Decls, fault: ExportFault, err: &mut E) -> u8
    ensures status { result ≡ 1 }
    ensures said { IsSaid why decls.now fault (E.log err.old) (E.log err.new) }
{
    match write_fault(why, decls, fault, err) {
        Ok(()) => 1,
        Err(_) => 1,
    }
}

/// The text of a program in a language.
fn text_of(
    alloc: Global,
    language: Language,
    program: &Program,
    form: Form<'_>,
) -> Result<Vec<u8>, ExportFault>
    ensures exported { IfOk result (λ text. IsWrittenAs language (addresses form.entry.bits) form.entry.name.now program.now text.items) }
    ensures refused { IfErr result (IsRefused (addresses form.entry.bits) form.entry.name.now program.now) }
{
    match language {
        Language::Statements => export(alloc, program, form),
        Language::Diagram => export_plc(alloc, program, form),
    }
}

/// Writes a program that was read.
fn write_program<O: Sink, E: Sink>(
    alloc: Global,
    exporting: Exporting<'_>,
    texts: &Texts,
    program: &Program,
    out: &mut O,
    err: &mut E,
) -> u8
    requires { HasProgram (given_by texts.now).aliases (given_by texts.now).program program.now }
    ensures status { result ≤ 1 }
    ensures done { result ≡ 0 → Exports (given_by texts.now) exporting.entry.language exporting.entry.name.now exporting.entry.bits (PutsAll (O.log out.old) (O.log out.new)) × (E.log err.new ≡ E.log err.old) }
    ensures failed { result ≡ 1 → BreaksExport (given_by texts.now) exporting.entry.language exporting.entry.name.now exporting.entry.bits (O.log out.old) (O.log out.new) (E.log err.old) (E.log err.new) }
{
    let form = Form {
        name: exporting.name,
        bits: exporting.bits,
        codesys: exporting.codesys,
        titles: texts.aliases,
        elements: false,
    };
    match text_of(alloc, exporting.language, program, form) {
        Ok(text) => match put(out, &text) {
            Ok(()) => 0,
            Err(_) => report(texts, &ToolFault::Write, err),
        },
        Err(fault) => told(texts.why, program.decls(), fault, err),
    }
}

/// Reads the program, and writes it in the language that is asked for on `out`, or on `err` the line of the fault for which there is no such text, explained
/// where that is asked for. Returns the status: 0 where the whole text was written, or 1.
pub fn write_export<O: Sink, E: Sink>(
    alloc: Global,
    exporting: Exporting<'_>,
    texts: &Texts,
    out: &mut O,
    err: &mut E,
) -> u8
    ensures status { result ≤ 1 }
    ensures done { result ≡ 0 → Exports (given_by texts.now) exporting.entry.language exporting.entry.name.now exporting.entry.bits (PutsAll (O.log out.old) (O.log out.new)) × (E.log err.new ≡ E.log err.old) }
    ensures failed { (save : WriteLog) → result ≡ 1 → Refuses (given_by texts.now) (HasProgramFault (given_by texts.now)) (logs (O.log out.old) save (E.log err.old)) (logs (O.log out.new) save (E.log err.new))
        ⊎ BreaksExport (given_by texts.now) exporting.entry.language exporting.entry.name.now exporting.entry.bits (O.log out.old) (O.log out.new) (E.log err.old) (E.log err.new) }
{
    let program = match read_given_program(alloc, texts) {
        Ok(program) => program,
        Err(fault) => return report(texts, &fault, err),
    };
    write_program(alloc, exporting, texts, &program, out, err)
}
