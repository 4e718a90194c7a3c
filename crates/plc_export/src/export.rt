//! A project, written and compared with the program that it was written from.

ghost use Rattle.std.specs.Prelude.{IfErr, IfOk, IfSome, IsTrue, option_map};
ghost use Rattle.xml_document.specs.Documents.{IsDocument};
ghost use Rattle.xml_document.specs.Items.{items_of};
ghost use Rattle.xml_parts.specs.Parts.{items_from};
ghost use Rattle.export_program.specs.Exported.{IsExportedAs, IsExportedBy, IsRefused, addresses};
ghost use Rattle.export_program.specs.Refusals.{IsOfText};
ghost use Rattle.plc_units.specs.Doing.{DoesUnit};
ghost use Rattle.plc_export.specs.Exported.{IsExportedUnit, IsOnlyUnit, IsUnitOf};

use diagram_program::Program;
use export_program::{ExportFault, Exported, export_program};
use export_text::Form;
use plc_text::{PlcFault, PlcText, read_plc};
use plc_units::{Unit, does_unit, unit_in};
use plc_writer::write_plc;
use std::alloc::{AllocError, Global};
use xml_document::{Document, XmlFault, read_document};

/// The document that a text is.
fn document_of(alloc: Global, text: &[u8]) -> Result<Document, ExportFault>
    ensures is { IfOk result (λ document. IsDocument text.now (items_of document)) }
    ensures refused { IfErr result IsOfText }
{
    match read_document(alloc, text) {
        Ok(document) => Ok(document),
        Err(XmlFault::Memory) => Err(ExportFault::Memory),
        Err(_) => Err(ExportFault::NotFaithful),
    }
}

/// What the elements of a project are said to be.
fn elements_of(alloc: Global, document: &Document) -> Result<PlcText, ExportFault>
    ensures refused { IfErr result IsOfText }
{
    match read_plc(alloc, document, None, false) {
        Ok(plc) => Ok(plc),
        Err(PlcFault::Memory) => Err(ExportFault::Memory),
        Err(PlcFault::TooLarge) => Err(ExportFault::TooLarge),
        Err(_) => Err(ExportFault::NotFaithful),
    }
}

/// The only program of a project, if it has a name.
fn only_unit(alloc: Global, document: &Document, name: &[u8]) -> Result<Option<Unit>, AllocError>
    ensures { IfOk result (λ found. IfSome found (λ unit. IsOnlyUnit name.now (items_of document.now)
        (option_map (items_from document.now) unit.interface) (items_from document.now unit.body))) }
{
    let Some(named) = unit_in(alloc, document, Some(name))? else {
        return Ok(None);
    };
    match unit_in(alloc, document, None)? {
        Some(only) if only == named => Ok(Some(only)),
        _ => Ok(None),
    }
}

/// Whether the only program of a project has a name, and is a program in Structured Text.
fn is_unit_of(
    alloc: Global,
    document: &Document,
    name: &[u8],
    exported: &Exported,
) -> Result<bool, ExportFault>
    ensures is { IfOk result (λ is. IsTrue is → IsUnitOf name.now (items_of document.now) exported.now.text.items exported.now.program) }
    ensures refused { IfErr result IsOfText }
{
    let plc = elements_of(alloc, document)?;
    let Some(unit) = only_unit(alloc, document, name)? else {
        return Ok(false);
    };
    Ok(does_unit(
        alloc,
        document,
        unit,
        false,
        &exported.text,
        &plc,
        &exported.program,
    )?)
}

/// The text of a project in PLCopen XML with one program, whose ladder diagram declares and does what statements of Structured Text do that are an
/// export of a ladder program: each of its runs does what a scan of that program does.
///
/// # Errors
///
/// As of `export`; `TooLarge` also where the diagram would have more than 4,000 elements or 40,000 connections.
pub fn export_plc(alloc: Global, program: &Program, form: Form<'_>) -> Result<Vec<u8>, ExportFault>
    ensures exported { IfOk result (λ text. IsExportedUnit (addresses form.entry.bits) form.entry.name.now program.now text.items) }
    ensures refused { IfErr result (IsRefused (addresses form.entry.bits) form.entry.name.now program.now) }
{
    let by_elements = Form {
        elements: true,
        ..form
    };
    let exported = export_program(alloc, program, by_elements)?;
    let text = write_plc(alloc, &exported.text, &exported.program, form.name)?;
    let document = document_of(alloc, &text)?;
    if is_unit_of(alloc, &document, form.name, &exported)? {
        Ok(text)
    } else {
        Err(ExportFault::NotFaithful)
    }
}
