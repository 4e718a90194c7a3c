//! Reads a whole project from its parts.

ghost use Rattle.std.specs.Prelude.{◌≡◌, IfErr, IfOk, map};
ghost use Rattle.clp_project.specs.Format.{part_of};
ghost use Rattle.clp_project.specs.Tables.{presets_in, sections_in};
ghost use Rattle.clp_project.specs.declared.fault.Table.TheVariants.{Sections};
ghost use Rattle.clp_project.specs.Project.{sections_head, AreOfProject, HasRungs, IsFaultOf, IsProject, IsRight, IsTableFault};

use crate::fault::{ClpFault, Table};
use crate::lines::{is_line, lines_of, part_of};
use crate::order::{Placed, arranged};
use crate::reading::ReadingOptions;
use crate::rung::{ClpRung, rungs_in};
use crate::table::{
    ClpSymbol, Expression, Preset, Section, expressions_in, presets_in, sections_in, symbols_in,
};
use std::alloc::Global;

/// What a project says, in its own terms: the rungs in the order of the scan, the presets by number, the symbols, and what
/// compares and operates compute.
#[derive(Drop)]
pub struct Project<'a> {
    pub rungs: Vec<Placed<'a>>,
    pub timers: Vec<Preset>,
    pub monostables: Vec<Preset>,
    pub iec_timers: Vec<Preset>,
    pub symbols: Vec<ClpSymbol<'a>>,
    pub expressions: Vec<Expression<'a>>,
}

/// The presets of the table that begins with this line.
fn preset_table(
    alloc: Global,
    table: Table,
    head: &[u8],
    lines: &[&[u8]],
) -> Result<Vec<Preset>, ClpFault>
    ensures found { IfOk result (λ v. presets_in (part_of head.now (map (λ l. l.now) lines.now)) ≡ Some v.items) }
    ensures none { IfErr result (λ e. IsTableFault table (presets_in (part_of head.now (map (λ l. l.now) lines.now))) e) }
{
    match presets_in(alloc, part_of(head, lines))? {
        Some(presets) => Ok(presets),
        None => Err(ClpFault::BadTable { table }),
    }
}

/// The sections of a project, from their part of the file.
fn section_table(alloc: Global, lines: &[&[u8]]) -> Result<Vec<Section>, ClpFault>
    ensures found { IfOk result (λ v. sections_in (part_of sections_head (map (λ l. l.now) lines.now)) ≡ Some v.items) }
    ensures none { IfErr result (λ e. IsTableFault Sections (sections_in (part_of sections_head (map (λ l. l.now) lines.now))) e) }
{
    match sections_in(alloc, part_of(b"_FILE-sections.csv", lines))? {
        Some(sections) => Ok(sections),
        None => Err(ClpFault::BadTable {
            table: Table::Sections,
        }),
    }
}

/// The rungs of a project in the order of the scan.
fn rungs_of<'a>(
    alloc: Global,
    reading: ReadingOptions,
    lines: &[&'a [u8]],
) -> Result<Vec<Placed<'a>>, ClpFault>
    ensures found { IfOk result (λ v. HasRungs reading (map (λ l. l.now) lines.now) (Ok v.items)) }
    ensures none { IfErr result (λ e. IsFaultOf reading (map (λ l. l.now) lines.now) e) }
{
    let rungs = rungs_in(alloc, lines)?;
    let sections = section_table(alloc, lines)?;
    arranged(alloc, reading, &rungs, &sections)
}

/// The project of the lines of a file.
fn project_in<'a>(
    alloc: Global,
    reading: ReadingOptions,
    lines: &[&'a [u8]],
) -> Result<Project<'a>, ClpFault>
    ensures found { IfOk result (λ p. AreOfProject reading (map (λ l. l.now) lines.now) p) }
    ensures none { IfErr result (λ e. IsFaultOf reading (map (λ l. l.now) lines.now) e) }
{
    match lines {
        [line, ..] if is_line(b"_FILES_CLASSICLADDER", line) => (),
        _ => return Err(ClpFault::NoProject),
    }
    let rungs = rungs_of(alloc, reading, lines)?;
    let timers = preset_table(alloc, Table::Timers, b"_FILE-timers.csv", lines)?;
    let monostables = preset_table(alloc, Table::Monostables, b"_FILE-monostables.csv", lines)?;
    let iec_timers = preset_table(alloc, Table::IecTimers, b"_FILE-timers_iec.csv", lines)?;
    let symbols = symbols_in(alloc, part_of(b"_FILE-symbols.csv", lines))?;
    let expressions = expressions_in(alloc, part_of(b"_FILE-arithmetic_expressions.csv", lines))?;
    Ok(Project {
        rungs,
        timers,
        monostables,
        iec_timers,
        symbols,
        expressions,
    })
}

/// Reads the project of a file.
///
/// # Errors
///
/// What of the text is no project; `Memory` when out of memory.
pub fn read_project<'a>(
    alloc: Global,
    reading: ReadingOptions,
    text: &'a [u8],
) -> Result<Project<'a>, ClpFault>
    ensures found { IfOk result (λ p. IsProject reading text.entry.now p) }
    ensures none { IfErr result (λ e. IsRight reading text.entry.now e) }
{
    let lines = lines_of(alloc, text)?;
    project_in(alloc, reading, &lines)
}
