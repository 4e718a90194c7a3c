//! The lines of a rung.

use crate::grid::{Cell, Grid};
use crate::names::Names;
use crate::text::Text;
use crate::word::Word;
use diagram_declarations::{BlockKind, Output, Pin};
use diagram_program::CoilMode;
use diagram_program::geometry::{CELL, COLUMNS, ROWS};
use st_expression::Operand;

/// The most dashes before a jump.
const DASHES: usize = 4;

/// The characters of a coil's cell.
fn coil_cell(mode: CoilMode) -> &'static [u8] {
    match mode {
        CoilMode::Store => b"----( )----",
        CoilMode::Inverse => b"----(/)----",
        CoilMode::Set => b"----(S)----",
        CoilMode::Reset => b"----(R)----",
        CoilMode::Rising => b"----(P)----",
        CoilMode::Falling => b"----(N)----",
    }
}

/// The characters of the upper cell of a block.
fn block_cell(kind: BlockKind) -> &'static [u8] {
    match kind {
        BlockKind::Ton => b"-|IN TON Q|",
        BlockKind::Tof => b"-|IN TOF Q|",
        BlockKind::Tp => b"-|IN TP  Q|",
        BlockKind::Ctu => b"-|CU CTU Q|",
        BlockKind::Ctd => b"-|CD CTD Q|",
        BlockKind::Sr => b"-|S1 SR Q1|",
        BlockKind::Rs => b"-|S  RS Q1|",
    }
}

/// The characters of the lower cell of a block.
fn lower_cell(pin: Pin, is_fed: bool) -> &'static [u8] {
    match (pin, is_fed) {
        (Pin::Reset, true) => b"-|R       |",
        (Pin::Reset, false) => b" |R       |",
        (Pin::Load, true) => b"-|LD      |",
        (Pin::Load, false) => b" |LD      |",
        (Pin::Reset1, true) => b"-|R1      |",
        (Pin::Reset1, false) => b" |R1      |",
    }
}

/// The name of a variable or a helper.
fn variable_word(names: &Names<'_>, variable: usize) -> Word {
    match names.variables.get(variable) {
        Some(name) => Word::new().with(name.bytes()),
        None => {
            let number = variable.saturating_sub(names.variables.len());
            Word::new()
                .with(names.helper)
                .with_number(number.saturating_add(1))
        }
    }
}

/// The name of an instance.
fn instance_word(names: &Names<'_>, instance: usize) -> Word {
    match names.instances.get(instance) {
        Some(named) => Word::new().with(named.name.bytes()),
        None => Word::new(),
    }
}

/// The kind of an instance. Past the last it is a TON.
pub(crate) fn kind_in(names: &Names<'_>, instance: usize) -> BlockKind {
    match names.instances.get(instance) {
        Some(named) => named.kind,
        None => BlockKind::Ton,
    }
}

/// The name of an operand.
fn operand_word(names: &Names<'_>, operand: Operand) -> Word {
    match operand {
        Operand::Variable(variable) => variable_word(names, variable),
        Operand::Output(instance) => {
            let word = instance_word(names, instance);
            match kind_in(names, instance).traits().output {
                Output::Q => word.with(b".Q"),
                Output::Q1 => word.with(b".Q1"),
            }
        }
    }
}

/// The label of a number.
pub(crate) fn add_label(text: &mut Text, names: &Names<'_>, label: usize) {
    text.add_number(names.label, label);
}

/// The name over a cell.
fn name_of(names: &Names<'_>, cell: Cell) -> Word {
    match cell {
        Cell::Contact(contact) => operand_word(names, contact.operand),
        Cell::Coil { variable, .. } => variable_word(names, variable),
        Cell::Block { instance } => instance_word(names, instance),
        Cell::Blank | Cell::Wire | Cell::Lower { .. } | Cell::Jump { .. } | Cell::Exit => {
            Word::new()
        }
    }
}

/// Adds a jump to a label, with as many dashes before it as there is room for.
fn add_jump(text: &mut Text, names: &Names<'_>, label: usize) {
    let word = Word::new().with(b">>").with(names.label).with_number(label);
    let dashes = CELL.saturating_sub(word.bytes().len()).max(1).min(DASHES);
    for _ in 0..dashes {
        text.add(b"-");
    }
    text.add(word.bytes());
}

/// Adds the characters of a cell.
fn add_cell(text: &mut Text, names: &Names<'_>, cell: Cell) {
    match cell {
        Cell::Blank => {}
        Cell::Wire => text.add(b"-----------"),
        Cell::Contact(contact) => text.add(if contact.on {
            b"----| |----"
        } else {
            b"----|/|----"
        }),
        Cell::Coil { mode, .. } => text.add(coil_cell(mode)),
        Cell::Block { instance } => text.add(block_cell(kind_in(names, instance))),
        Cell::Lower { pin, is_fed } => text.add(lower_cell(pin, is_fed)),
        Cell::Jump { label } => add_jump(text, names, label),
        Cell::Exit => text.add(b"---<RETURN>"),
    }
}

/// Whether a wire leads to a cell from the left.
fn has_left(cell: Cell) -> bool {
    !matches!(cell, Cell::Blank | Cell::Lower { is_fed: false, .. })
}

/// Whether a wire leads on from a cell to the right.
fn has_right(cell: Cell) -> bool {
    matches!(cell, Cell::Wire | Cell::Contact(_) | Cell::Coil { .. })
}

/// The character at the joint on the left of a column.
fn joint(grid: &Grid, row: usize, column: usize) -> &'static [u8] {
    let is_fed = has_left(grid.cell(row, column));
    let is_left = has_right(grid.cell(row, column.saturating_sub(1)));
    if grid.is_linked(row, column) || grid.is_linked(row.saturating_add(1), column) {
        if is_fed || is_left { b"+" } else { b"|" }
    } else if is_fed {
        b"-"
    } else {
        b" "
    }
}

/// Adds the upper line of a row: the names, and the vertical links to the row above it.
fn add_name_line(text: &mut Text, names: &Names<'_>, grid: &Grid, row: usize) {
    text.add(b"|");
    for column in 0..COLUMNS {
        if column > 0 {
            text.add(if grid.is_linked(row, column) {
                b"|"
            } else {
                b" "
            });
        }
        let start = text.len();
        text.add_centred(name_of(names, grid.cell(row, column)).bytes(), CELL);
        text.fill(start, CELL);
    }
    text.end_line();
}

/// Adds the lower line of a row: the cells, and the joints between them.
fn add_wire_line(text: &mut Text, names: &Names<'_>, grid: &Grid, row: usize) {
    text.add(b"|");
    for column in 0..COLUMNS {
        if column > 0 {
            text.add(joint(grid, row, column));
        }
        let start = text.len();
        add_cell(text, names, grid.cell(row, column));
        text.fill(start, CELL);
    }
    text.end_line();
}

/// Adds the lines of a rung.
pub(crate) fn add_rung(text: &mut Text, names: &Names<'_>, grid: &Grid) {
    let rows = grid.rows();
    for row in 0..ROWS {
        if row < rows {
            add_name_line(text, names, grid, row);
            add_wire_line(text, names, grid, row);
        }
    }
}
