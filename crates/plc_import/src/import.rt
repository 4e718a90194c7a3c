//! The import of a unit.

ghost use Rattle.std.specs.Prelude.{IfOk, option_map};
ghost use Rattle.xml_document.specs.Items.{items_of};
ghost use Rattle.xml_parts.specs.Parts.{items_from};
ghost use Rattle.plc_import.specs.Imported.{IsDrawnUnit, IsImported};

use crate::fault::{PlcImportFault, undrawn};
use draw_program::draw;
use plc_text::{PlcFault, PlcText, read_plc};
use plc_units::{Unit, does_unit, unit_in};
use std::alloc::Global;
use xml_document::Document;

/// Which program of a project is asked for, and how it is read.
#[derive(Clone, Copy)]
pub struct UnitChoice<'n> {
    /// Its name; the only program where there is none.
    pub name: Option<&'n [u8]>,
    /// Whether outputs of blocks that aren't known are inputs, which may have any value.
    pub is_open: bool,
}

/// Draws the unit that is asked for, by its text in Structured Text.
fn drawing_of(
    alloc: Global,
    document: &Document,
    unit: Unit,
    is_open: bool,
    plc: &PlcText,
) -> Result<Vec<u8>, PlcImportFault>
    ensures { IfOk result (λ text. IsDrawnUnit is_open (option_map (items_from document.now) unit.interface) (items_from document.now unit.body) text.items) }
{
    let drawn = match draw(alloc, &plc.text) {
        Ok(drawn) => drawn,
        Err(fault) => return Err(undrawn(fault)),
    };
    if does_unit(
        alloc,
        document,
        unit,
        is_open,
        &plc.text,
        plc,
        &drawn.program,
    )? {
        Ok(drawn.bytes)
    } else {
        Err(PlcImportFault::NotFaithful)
    }
}

/// Draws a program of a project in PLCopen XML as a ladder program that does what its body does: the unit with a name, or the only one that is a
/// program. If it may be open, outputs of blocks that aren't known become inputs of the program.
///
/// # Errors
///
/// `Unit` where there is no such unit, or where it has something that no program has; the counts of a drawing that is too large; `NotFaithful` where
/// the drawing isn't found to do what the unit does, which is a fault of this library.
pub fn import_plc(
    alloc: Global,
    document: &Document,
    choice: UnitChoice<'_>,
) -> Result<Vec<u8>, PlcImportFault>
    ensures { IfOk result (λ text. IsImported (items_of document.now) (option_map (λ word. word.now) choice.entry.name) choice.entry.is_open text.items) }
{
    let plc = match read_plc(alloc, document, choice.name, choice.is_open) {
        Ok(plc) => plc,
        Err(PlcFault::Memory) => return Err(PlcImportFault::Memory),
        Err(fault) => return Err(PlcImportFault::Unit(fault)),
    };
    match unit_in(alloc, document, choice.name)? {
        Some(unit) => drawing_of(alloc, document, unit, choice.is_open, &plc),
        None => Err(PlcImportFault::NotFaithful),
    }
}
