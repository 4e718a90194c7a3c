//! The text of a program, as it is drawn.

ghost use Rattle.std.specs.Prelude.{◌<◌};
ghost use Rattle.diagram_program.specs.declared.geometry.TheConstants.{COLUMNS, ROWS};

use crate::bytes::{Text, trimmed};
use crate::control::add_taken_on;
use crate::drawn::DrawnRung;
use crate::names::{
    Named, Opened, Used, is_off, name_in, signal_of, symbol_of, used_at, variable_of,
};
use clp_meaning::{BlockSort, ClpOperand, Meaning, element_at, entry_of, is_contact, timed_as};
use clp_project::{Expression, Link, Project};
use diagram_declarations::BlockKind;
use diagram_program::geometry::{CELL, COLUMNS, ROWS};
use diagram_program::{CoilMode, Mode};
use std::alloc::{AllocError, Global};

/// The column where the comments after the declarations begin: after the longest declaration, without an alias and with one.
const COMMENTS: usize = 40;

const COMMENTS_AFTER_ALIASES: usize = 64;

/// Adds a part of a duration, as `2m`, where it isn't 0.
fn add_part(text: &mut Text, number: u32, unit: &[u8]) {
    if number > 0 {
        text.add_number(b"", number);
        text.add(unit);
    }
}

/// Adds a duration in parts, from days to milliseconds.
fn add_duration(text: &mut Text, millis: u32) {
    text.add(b"T#");
    add_part(text, millis / 86_400_000, b"d");
    add_part(text, millis / 3_600_000 % 24, b"h");
    add_part(text, millis / 60_000 % 60, b"m");
    add_part(text, millis / 1000 % 60, b"s");
    if millis == 0 {
        text.add(b"0ms");
    } else {
        add_part(text, millis % 1000, b"ms");
    }
}

/// Adds the address of a variable; one that stands for a block that isn't drawn has none.
fn add_address(text: &mut Text, used: Used) {
    if let Some(opened) = used.opened {
        text.add_number(b" AT %IX", opened.rung);
        text.add_number(b".", opened.place);
        return;
    }
    match used.source {
        ClpOperand::Input => text.add_number(b" AT %IX", used.number),
        ClpOperand::Output => text.add_number(b" AT %QX", used.number),
        ClpOperand::Memory => text.add_number(b" AT %MX", used.number),
        ClpOperand::Done(_) | ClpOperand::Other => {}
    }
}

/// Adds the type of a block, and its preset.
fn add_type(text: &mut Text, project: &Project<'_>, used: Used) {
    if let ClpOperand::Done(sort) = used.source {
        if let Some(timed) = timed_as(sort, entry_of(project, sort, used.number as usize)) {
            if let Ok(preset) = u32::try_from(timed.preset) {
                text.add(b" : ");
                text.add(timed.kind.traits().word);
                text.add(b" := (PT := ");
                add_duration(text, preset);
                text.add(b");");
            }
        }
    }
}

/// The words of the expression with this number, which a compare computes.
fn expression_of<'a>(expressions: &[Expression<'a>], number: u32) -> Option<&'a [u8]> {
    for expression in expressions {
        if expression.number == Some(number) {
            return Some(expression.text);
        }
    }
    None
}

/// Adds the comment on an input that stands for a step or a compare: the number of the step, or the words of the compare.
fn add_opened(text: &mut Text, project: &Project<'_>, opened: Opened, number: u32) {
    if opened.is_step {
        text.add_number(b"(* step ", number);
    } else {
        text.add(b"(* compare ");
        match expression_of(&project.expressions, number) {
            Some(words) => text.add_remark(words),
            None => text.add_number(b"", number),
        }
    }
    text.add(b", any value *)\n");
}

/// Adds words of the project to a comment, if there are any.
fn add_words(text: &mut Text, words: &[u8]) {
    if !trimmed(words).is_empty() {
        text.add(b", ");
        text.add_remark(words);
    }
}

/// Adds the comment on a variable or block: its name and symbol in the project, and the signal that is connected with its pin.
fn add_origin(text: &mut Text, project: &Project<'_>, links: &[Link<'_>], named: &Named) {
    text.add(b"(* ");
    text.add(variable_of(named.used).bytes());
    if let Some(symbol) = symbol_of(project, named.used) {
        add_words(text, symbol.name);
        add_words(text, symbol.comment);
    }
    if let Some(signal) = signal_of(links, named.used) {
        text.add(b", signal ");
        text.add_remark(signal);
    }
    if is_off(named.used, named.is_block) {
        text.add(b": nothing writes it, always OFF");
    }
    if named.is_taken_on {
        text.add(b": nothing is drawn to its control, taken as ON");
    }
    text.add(b" *)\n");
}

/// The column where the comments after the declarations begin.
fn comment_place(named: &[Named]) -> usize {
    for other in named {
        if other.alias.is_some() {
            return COMMENTS_AFTER_ALIASES;
        }
    }
    COMMENTS
}

/// Adds a declaration: its name, its alias, and its type with the address or the preset.
fn add_declared(text: &mut Text, project: &Project<'_>, named: &Named) {
    text.add(b"  ");
    text.add(named.name.bytes());
    if let Some(alias) = &named.alias {
        text.add(b" (* ");
        text.add(alias.bytes());
        text.add(b" *)");
    }
    if named.is_block {
        add_type(text, project, named.used);
    } else {
        add_address(text, named.used);
        text.add(b" : BOOL;");
    }
    text.add(b" ");
}

/// Adds the line of one declaration, with its comment from the column `place` on.
fn add_declaration(
    text: &mut Text,
    project: &Project<'_>,
    links: &[Link<'_>],
    named: &Named,
    place: usize,
) {
    let start = text.len();
    add_declared(text, project, named);
    text.fill(start, place);
    match named.used.opened {
        Some(opened) => add_opened(text, project, opened, named.used.number),
        None => add_origin(text, project, links, named),
    }
}

/// Adds the block of declarations, a line each.
fn add_declarations(text: &mut Text, project: &Project<'_>, links: &[Link<'_>], named: &[Named]) {
    text.add(b"VAR\n");
    let place = comment_place(named);
    for other in named {
        add_declaration(text, project, links, other, place);
    }
    text.add(b"END_VAR\n");
}

/// The characters of a contact's cell, by its mode.
fn contact_cell(mode: Mode) -> &'static [u8] {
    match mode {
        Mode::Plain => b"----| |----",
        Mode::Negated => b"----|/|----",
        Mode::Rising => b"----|P|----",
        Mode::Falling => b"----|N|----",
    }
}

/// The characters of a coil's cell, by its mode.
fn coil_cell(mode: CoilMode) -> &'static [u8] {
    match mode {
        CoilMode::Store => b"----( )----",
        CoilMode::Inverse => b"----(/)----",
        CoilMode::Set => b"----(S)----",
        CoilMode::Reset => b"----(R)----",
        CoilMode::Rising => b"----(P)----",
        CoilMode::Falling => b"----(N)----",
    }
}

/// The characters of a timer's block; the other kinds come from no project.
fn block_cell(kind: BlockKind) -> &'static [u8] {
    match kind {
        BlockKind::Tof => b"-|IN TOF Q|",
        BlockKind::Tp => b"-|IN TP  Q|",
        BlockKind::Ton | BlockKind::Ctu | BlockKind::Ctd | BlockKind::Sr | BlockKind::Rs => {
            b"-|IN TON Q|"
        }
    }
}

/// The characters of the block that a timer of the project becomes.
fn timed_cell(project: &Project<'_>, sort: BlockSort, number: u32) -> &'static [u8] {
    match timed_as(sort, entry_of(project, sort, number as usize)) {
        Some(timed) => block_cell(timed.kind),
        None => b"",
    }
}

/// The characters of a cell, by what its element means; the number of a jump is added after them.
fn cell_of(project: &Project<'_>, meaning: Meaning, number: u32) -> &'static [u8] {
    match meaning {
        Meaning::Blank | Meaning::Operate | Meaning::Other => b"           ",
        Meaning::Wire => b"-----------",
        Meaning::Contact(mode) | Meaning::Opened(mode) => contact_cell(mode),
        Meaning::Off => contact_cell(Mode::Plain),
        Meaning::Coil(mode) => coil_cell(mode),
        Meaning::Jump => b"--->>R",
        Meaning::Block(sort) => timed_cell(project, sort, number),
    }
}

/// Adds the name over a cell, in the middle of the cell.
fn add_name(text: &mut Text, named: &[Named], sheet: &DrawnRung<'_>, row: usize, column: usize)
    requires { (row < ROWS) × (column < COLUMNS) }
{
    if let Some(used) = used_at(sheet, row, column) {
        if let Some(found) = name_in(named, used) {
            let spelling = found.name.bytes();
            text.fill(text.len(), CELL.saturating_sub(spelling.len()) / 2);
            text.add(spelling);
            if found.is_block && is_contact(sheet.meaning(row, column)) {
                text.add(b".Q");
            }
        }
    }
}

/// The characters of the joint on the left of a column.
fn joint(sheet: &DrawnRung<'_>, row: usize, column: usize) -> &'static [u8]
    requires { (row < ROWS) × (column < COLUMNS) }
{
    let (left, right) = (sheet.is_left(row, column), sheet.is_drawn(row, column));
    if sheet.has_link(row, column) || sheet.has_link(row + 1, column) {
        if left || right { b"+" } else { b"|" }
    } else if left && right {
        b"-"
    } else {
        b" "
    }
}

/// Adds the upper line of a row: the names over its cells, and the wires between the rows.
fn add_name_line(text: &mut Text, named: &[Named], sheet: &DrawnRung<'_>, row: usize)
    requires { row < ROWS }
{
    text.add(b"|");
    for column in 0..COLUMNS {
        if column >= 1 {
            text.add(if sheet.has_link(row, column) {
                b"|"
            } else {
                b" "
            });
        }
        let start = text.len();
        if sheet.is_drawn(row, column) {
            add_name(text, named, sheet, row, column);
        }
        text.fill(start, CELL);
    }
    text.end_line();
}

/// Adds the lower line of a row: its cells, and the joints between them.
fn add_wire_line(text: &mut Text, project: &Project<'_>, sheet: &DrawnRung<'_>, row: usize)
    requires { row < ROWS }
{
    text.add(b"|");
    for column in 0..COLUMNS {
        if column >= 1 {
            text.add(joint(sheet, row, column));
        }
        let meaning = if sheet.is_drawn(row, column) {
            sheet.meaning(row, column)
        } else {
            Meaning::Blank
        };
        let number = element_at(sheet.elements, row, column).number;
        text.add(cell_of(project, meaning, number));
        if meaning == Meaning::Jump {
            text.add_number(b"", number);
        }
    }
    text.end_line();
}

/// Whether a rung has a jump to the rung with this number.
fn jumps_to(sheet: &DrawnRung<'_>, number: u32) -> bool {
    for row in 0..ROWS {
        let element = element_at(sheet.elements, row, COLUMNS - 1);
        if element.kind == 54 && element.number == number && sheet.is_drawn(row, COLUMNS - 1) {
            return true;
        }
    }
    false
}

/// Whether an earlier rung of the same section jumps to this one, so that it needs a label.
fn is_target(sheets: &[DrawnRung<'_>], sheet: &DrawnRung<'_>) -> bool {
    for other in sheets {
        if other.rung < sheet.rung
            && other.placed.section == sheet.placed.section
            && jumps_to(other, sheet.placed.rung.number)
        {
            return true;
        }
    }
    false
}

/// Adds the comment over a rung, and its label where there is a jump to it.
fn add_title(text: &mut Text, sheet: &DrawnRung<'_>, is_target: bool) {
    let placed = sheet.placed;
    text.add_number(b"\n(* ", sheet.rung);
    text.add_number(b": ClassicLadder rung ", placed.rung.number);
    add_words(text, placed.rung.label);
    add_words(text, placed.rung.comment);
    text.add(b" *)\n");
    if is_target {
        text.add_number(b"R", placed.rung.number);
        text.add(b":\n");
    }
}

/// Adds the rows of a rung, down to the last one that is used.
fn add_rows(text: &mut Text, project: &Project<'_>, named: &[Named], sheet: &DrawnRung<'_>) {
    let rows = sheet.rows();
    for row in 0..ROWS {
        if row < rows {
            add_name_line(text, named, sheet, row);
            add_wire_line(text, project, sheet, row);
        }
    }
}

/// How many operates a rung has: elements of the last column that compute something.
fn operates_in(sheet: &DrawnRung<'_>) -> u32 {
    let mut count = 0u32;
    for row in 0..ROWS {
        if sheet.meaning(row, COLUMNS - 1) == Meaning::Operate {
            count = count.saturating_add(1);
        }
    }
    count
}

/// How many elements of all rungs compute something, which no diagram can.
fn operates_of(sheets: &[DrawnRung<'_>]) -> u32 {
    let mut count = 0u32;
    for sheet in sheets {
        count = count.saturating_add(operates_in(sheet));
    }
    count
}

/// Adds a comment that says how much of the project is opened, if something is.
fn add_opened_count(text: &mut Text, opened: u32, operates: u32) {
    if opened > 0 || operates > 0 {
        text.add_number(b"(* Opened: ", opened);
        text.add_number(
            b" inputs of any value stand for compares and steps; operates left out: ",
            operates,
        );
        text.add(b".\n   The program can do all that the project can, and perhaps more. *)\n");
    }
}

/// Adds what the program has in another way than the project.
fn add_head(text: &mut Text, sheets: &[DrawnRung<'_>], named: &[Named]) {
    let mut opened = 0u32;
    let mut taken_on = 0u32;
    for other in named {
        if other.used.opened.is_some() {
            opened = opened.saturating_add(1);
        }
        if other.is_taken_on {
            taken_on = taken_on.saturating_add(1);
        }
    }
    add_opened_count(text, opened, operates_of(sheets));
    add_taken_on(text, taken_on);
}

/// The whole text of a program: comments, declarations and rungs, with these names.
pub(crate) fn drawing(
    alloc: Global,
    project: &Project<'_>,
    links: &[Link<'_>],
    sheets: &[DrawnRung<'_>],
    named: &[Named],
) -> Result<Vec<u8>, AllocError> {
    let mut text = Text::new(alloc);
    add_head(&mut text, sheets, named);
    add_declarations(&mut text, project, links, named);
    for sheet in sheets {
        add_title(&mut text, sheet, is_target(sheets, sheet));
        add_rows(&mut text, project, named, sheet);
    }
    text.end()
}
