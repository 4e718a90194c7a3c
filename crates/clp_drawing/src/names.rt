//! What the variables and the blocks of a project are called in a program.

ghost use Rattle.std.specs.Prelude.{◌<◌};
ghost use Rattle.diagram_program.specs.declared.geometry.TheConstants.{ROWS};

use crate::bytes::{Word, trimmed};
use crate::control::is_timer_taken_on;
use crate::drawn::DrawnRung;
use clp_meaning::{BlockRef, BlockSort, ClpOperand, Meaning, element_at, source_of};
use clp_project::{ClpPin, ClpSymbol, Link, Project};
use diagram_declarations::{Name, Title};
use diagram_program::geometry::{CELL, COLUMNS, PLACES};
use std::alloc::{AllocError, Global};

/// The longest name of a block: over a contact on its output `.Q` is written after it.
const LONGEST_OF_BLOCK: usize = CELL - 2;

/// What is opened: a compare, or a contact on a step of a sequential chart.
#[derive(Clone, Copy, PartialEq, Eq, PartialOrd, Ord)]
pub(crate) struct Opened {
    /// The number of the rung in the program.
    pub(crate) rung: u32,
    /// A hundred times the row, and the column; both are counted from 1.
    pub(crate) place: u32,
    pub(crate) is_step: bool,
}

/// A variable or a block that the program has, in the order of declaration.
#[derive(Clone, Copy, PartialEq, Eq, PartialOrd, Ord)]
pub(crate) struct Used {
    pub(crate) source: ClpOperand,
    /// What the variable stands for where that is opened: then it is an input.
    pub(crate) opened: Option<Opened>,
    pub(crate) number: u32,
}

impl Used {
    /// A variable of the project that needs a name in the program.
    fn new(source: ClpOperand, number: u32) -> Used {
        Used {
            source,
            opened: None,
            number,
        }
    }
}

/// What it is called.
#[derive(Clone, Copy)]
pub(crate) struct Named {
    pub(crate) used: Used,
    pub(crate) name: Name,
    /// Whether it is a block that is drawn; another block is a variable that is always OFF.
    pub(crate) is_block: bool,
    /// Whether it is an old timer whose control is taken as ON.
    pub(crate) is_taken_on: bool,
    /// What lists and traces can call it.
    pub(crate) alias: Option<Title>,
}

/// The letters before the number in ClassicLadder's name of a variable, as `I` in `%I3`.
fn letters(source: ClpOperand) -> &'static [u8] {
    match source {
        ClpOperand::Input => b"I",
        ClpOperand::Output => b"Q",
        ClpOperand::Memory => b"B",
        ClpOperand::Done(BlockSort::Timer) => b"T",
        ClpOperand::Done(BlockSort::Monostable) => b"M",
        ClpOperand::Done(BlockSort::IecTimer) => b"TM",
        ClpOperand::Other => b"",
    }
}

/// The variable or block that the element at a place uses.
pub(crate) fn used_at(sheet: &DrawnRung<'_>, row: usize, column: usize) -> Option<Used>
    requires { (row < ROWS) × (column < COLUMNS) }
{
    let element = element_at(sheet.elements, row, column);
    match sheet.meaning(row, column) {
        Meaning::Contact(_) | Meaning::Coil(_) => match source_of(element.class) {
            ClpOperand::Other => None,
            source => Some(Used::new(source, element.number)),
        },
        Meaning::Opened(_) => Some(Used {
            source: ClpOperand::Input,
            opened: Some(Opened {
                rung: sheet.rung,
                place: 100 * (row as u32 + 1) + (column as u32 + 1),
                is_step: element.class == 30 && element.kind != 20,
            }),
            number: element.number,
        }),
        Meaning::Block(sort) => Some(Used::new(ClpOperand::Done(sort), element.number)),
        Meaning::Off => Some(Used::new(ClpOperand::Done(BlockSort::Timer), element.number)),
        Meaning::Blank | Meaning::Wire | Meaning::Jump | Meaning::Operate | Meaning::Other => None,
    }
}

/// Adds a variable or block to those that are used, in order, unless it is there.
fn add_used(used: &mut Vec<Used>, new: Used) -> Result<(), AllocError> {
    if let Err(place) = used.binary_search(&new) {
        used.insert(place, new)?;
    }
    Ok(())
}

/// Adds what the elements of a rung use, each variable and block once.
fn add_sheet(used: &mut Vec<Used>, sheet: &DrawnRung<'_>) -> Result<(), AllocError> {
    for place in 0..PLACES {
        let (row, column) = (place / COLUMNS, place % COLUMNS);
        if sheet.is_drawn(row, column) {
            if let Some(new) = used_at(sheet, row, column) {
                add_used(used, new)?;
            }
        }
    }
    Ok(())
}

/// All variables and blocks that the drawn elements use.
pub(crate) fn used_in(alloc: Global, sheets: &[DrawnRung<'_>]) -> Result<Vec<Used>, AllocError> {
    let mut used = Vec::new(alloc);
    for sheet in sheets {
        add_sheet(&mut used, sheet)?;
    }
    Ok(used)
}

/// Adds the blocks that are drawn in a rung.
fn add_blocks(blocks: &mut Vec<BlockRef>, sheet: &DrawnRung<'_>) -> Result<(), AllocError> {
    for place in 0..PLACES {
        if let Some(block) = sheet.block_at(place / COLUMNS, place % COLUMNS) {
            blocks.push(block)?;
        }
    }
    Ok(())
}

/// The blocks that are drawn, each as often as it is.
pub(crate) fn drawn_blocks(
    alloc: Global,
    sheets: &[DrawnRung<'_>],
) -> Result<Vec<BlockRef>, AllocError> {
    let mut blocks = Vec::new(alloc);
    for sheet in sheets {
        add_blocks(&mut blocks, sheet)?;
    }
    Ok(blocks)
}

/// The block that is meant, if its element is drawn somewhere.
fn drawn_block(sheets: &[DrawnRung<'_>], used: Used) -> Option<BlockRef> {
    let ClpOperand::Done(sort) = used.source else {
        return None;
    };
    let block = BlockRef {
        sort,
        number: used.number,
    };
    for sheet in sheets {
        if sheet.has_block(block) {
            return Some(block);
        }
    }
    None
}

/// The blocks that are drawn, out of what is used, in order.
pub(crate) fn blocks_in(
    alloc: Global,
    sheets: &[DrawnRung<'_>],
    used: &[Used],
) -> Result<Vec<BlockRef>, AllocError> {
    let mut blocks = Vec::new(alloc);
    for other in used {
        if let Some(block) = drawn_block(sheets, *other) {
            blocks.push(block)?;
        }
    }
    Ok(blocks)
}

/// The name that ClassicLadder gives a variable or block, as `%I3`.
pub(crate) fn variable_of(used: Used) -> Word {
    let mut variable = Word::new();
    variable.add(b"%");
    variable.add_number(letters(used.source), used.number);
    variable
}

/// The symbol that the project has for a variable or block.
pub(crate) fn symbol_of<'p, 'a>(project: &'p Project<'a>, used: Used) -> Option<&'p ClpSymbol<'a>> {
    if used.opened.is_some() {
        return None;
    }
    let variable = variable_of(used);
    for symbol in &project.symbols {
        if trimmed(symbol.variable) == variable.bytes() {
            return Some(symbol);
        }
    }
    None
}

/// A symbol as a name of the program: each byte that can't be in a name becomes an underscore.
fn cleaned(symbol: &[u8]) -> Word {
    let mut name = Word::new();
    let mut gap = false;
    for b in trimmed(symbol) {
        if b.is_ascii_alphanumeric() || *b == b'_' {
            let is_joined = if name.is_empty() {
                b.is_ascii_digit()
            } else {
                gap
            };
            if is_joined {
                name.push(b'_');
            }
            name.push(*b);
            gap = false;
        } else {
            gap = true;
        }
    }
    name
}

/// The name of these bytes, if it is short enough to be written over a cell and no other variable or block has it.
fn free_name(named: &[Named], is_block: bool, bytes: &[u8]) -> Option<Name> {
    let longest = if is_block { LONGEST_OF_BLOCK } else { CELL };
    if bytes.len() > longest {
        return None;
    }
    let name = Name::new(bytes)?;
    for other in named {
        if name.same(&other.name) {
            return None;
        }
    }
    Some(name)
}

/// The letters that a plain name begins with, as `I` in `I3`.
fn letters_of(used: Used) -> &'static [u8] {
    match used.opened {
        Some(opened) if opened.is_step => b"X",
        Some(_) => b"CMP",
        None => letters(used.source),
    }
}

/// Whether a variable stands for a block that isn't drawn, so that it is never ON.
pub(crate) fn is_off(used: Used, is_block: bool) -> bool {
    match used.source {
        ClpOperand::Done(_) => !is_block,
        ClpOperand::Input | ClpOperand::Output | ClpOperand::Memory | ClpOperand::Other => false,
    }
}

/// The plain name of a variable or block, as `I3`: its letters and its number, and `count` after them if the names before are
/// taken.
fn plain(used: Used, is_block: bool, count: u32) -> Word {
    let mut name = Word::new();
    name.add_number(letters_of(used), used.number);
    if is_off(used, is_block) {
        name.add(b"_off");
    }
    if count > 0 {
        name.add_number(b"_", count);
    }
    name
}

/// The symbol of a variable or block as a name, if that is free.
fn symbol_name(project: &Project<'_>, named: &[Named], used: Used, is_block: bool) -> Option<Name> {
    let symbol = symbol_of(project, used)?;
    if trimmed(symbol.name).starts_with(b"%") {
        return None;
    }
    free_name(named, is_block, cleaned(symbol.name).bytes())
}

/// The signal that is connected with the pin of an input or an output, the first where there are several.
pub(crate) fn signal_of<'a>(links: &[Link<'a>], used: Used) -> Option<&'a [u8]> {
    if used.opened.is_some() {
        return None;
    }
    let pin = match used.source {
        ClpOperand::Input => ClpPin::Input(used.number),
        ClpOperand::Output => ClpPin::Output(used.number),
        ClpOperand::Memory | ClpOperand::Done(_) | ClpOperand::Other => return None,
    };
    for link in links {
        if link.pin == pin {
            return Some(link.signal);
        }
    }
    None
}

/// The name of a variable or block: its symbol in the project, the signal of its pin, or else a plain name, the first of these that
/// is free.
fn name_of(
    project: &Project<'_>,
    links: &[Link<'_>],
    named: &[Named],
    used: Used,
    is_block: bool,
) -> Option<Name> {
    if let Some(name) = symbol_name(project, named, used, is_block) {
        return Some(name);
    }
    if let Some(signal) = signal_of(links, used) {
        if let Some(name) = free_name(named, false, cleaned(signal).bytes()) {
            return Some(name);
        }
    }
    for count in 0..100u32 {
        let name = plain(used, is_block, count);
        if let Some(name) = free_name(named, is_block, name.bytes()) {
            return Some(name);
        }
    }
    None
}

/// A variable or block with the name that it gets, if one is free. Its alias is given later.
fn named_of(
    project: &Project<'_>,
    links: &[Link<'_>],
    sheets: &[DrawnRung<'_>],
    named: &[Named],
    used: Used,
) -> Option<Named> {
    let block = drawn_block(sheets, used);
    let is_taken_on = match block {
        Some(block) => is_timer_taken_on(sheets, block),
        None => false,
    };
    Some(Named {
        used,
        name: name_of(project, links, named, used, block.is_some())?,
        is_block: block.is_some(),
        is_taken_on,
        alias: None,
    })
}

/// All that is used, with names.
pub(crate) fn names_of(
    alloc: Global,
    project: &Project<'_>,
    links: &[Link<'_>],
    sheets: &[DrawnRung<'_>],
    used: &[Used],
) -> Result<Vec<Named>, AllocError> {
    let mut named = Vec::new(alloc);
    for other in used {
        if let Some(new) = named_of(project, links, sheets, &named, *other) {
            named.push(new)?;
        }
    }
    Ok(named)
}

/// The variable or block with its name.
pub(crate) fn name_in(named: &[Named], used: Used) -> Option<&Named> {
    for other in named {
        if other.used == used {
            return Some(other);
        }
    }
    None
}
