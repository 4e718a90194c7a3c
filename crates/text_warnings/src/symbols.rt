//! What cells do with variables and instances.

ghost use Rattle.std.specs.Prelude.{◌≡◌, ◌↔◌, IsTrue, Some};
ghost use Rattle.diagram_program.specs.Program.{block_in};
ghost use Rattle.text_warnings.specs.Warned.{Clashes, Draws, IsLatch, IsOfKind, Reads, drawn_symbol, operand_of};
ghost use Rattle.text_warnings.specs.Warnings.{symbol_of};

use diagram_declarations::{Decls, Symbol, VarKind};
use diagram_program::{Cell, CoilMode, Operand};

/// The variable or the instance that a contact reads.
pub(crate) fn operand_of(cell: Cell) -> Option<Symbol>
    ensures { result ≡ operand_of cell }
{
    match cell.contact() {
        Some((_, Operand::Var(var))) => Some(Symbol::Var(var)),
        Some((_, Operand::Output(inst))) => Some(Symbol::Instance(inst)),
        None => None,
    }
}

/// The variable or the instance that a contact reads or a coil writes.
pub(crate) fn symbol_of(cell: Cell) -> Option<Symbol>
    ensures { result ≡ symbol_of cell }
{
    match cell.coil() {
        Some((_, var)) => Some(Symbol::Var(var)),
        None => operand_of(cell),
    }
}

/// The variable or the instance that is drawn at a cell, by a contact, a coil or a block.
fn drawn_symbol(cell: Cell) -> Option<Symbol>
    ensures { result ≡ drawn_symbol cell }
{
    match cell {
        Cell::Contact { operand, .. } => match operand {
            Operand::Var(var) => Some(Symbol::Var(var)),
            Operand::Output(inst) => Some(Symbol::Instance(inst)),
        },
        Cell::Coil { var, .. } => Some(Symbol::Var(var)),
        Cell::Block { inst } => Some(Symbol::Instance(inst)),
        Cell::Empty | Cell::Wire | Cell::Lower { .. } | Cell::Jump { .. } | Cell::Return => None,
    }
}

/// Whether something of the variable or the instance is drawn at the cell.
pub(crate) fn draws_any_of(symbol: Symbol, cell: Cell) -> bool
    ensures { IsTrue result ↔ Draws symbol cell }
{
    match drawn_symbol(cell) {
        Some(other) => other == symbol,
        None => false,
    }
}

/// Whether the cell is a contact on the variable or the instance.
pub(crate) fn reads(symbol: Symbol, cell: Cell) -> bool
    ensures { IsTrue result ↔ Reads symbol cell }
{
    match operand_of(cell) {
        Some(other) => other == symbol,
        None => false,
    }
}

/// Whether the cell is the block of the instance.
pub(crate) fn draws(inst: usize, cell: Cell) -> bool
    ensures { IsTrue result ↔ (block_in cell ≡ Some inst) }
{
    match cell.block() {
        Some(drawn) => drawn == inst,
        None => false,
    }
}

/// Whether a coil only sets or only resets, so that several may write one variable.
fn is_latch(mode: CoilMode) -> bool
    ensures { IsTrue result ↔ IsLatch mode }
{
    match mode {
        CoilMode::Set | CoilMode::Reset => true,
        CoilMode::Store | CoilMode::Inverse | CoilMode::Rising | CoilMode::Falling => false,
    }
}

/// Whether the cell is a coil on the variable that is not meant beside one of this mode.
#[tactic(auto, unfolding(crate::specs::Warned::Clashes))]
pub(crate) fn clashes(mode: CoilMode, var: usize, cell: Cell) -> bool
    ensures { IsTrue result ↔ Clashes mode var cell }
{
    match cell.coil() {
        Some((other, written)) => written == var && !(is_latch(mode) && is_latch(other)),
        None => false,
    }
}

/// Whether a variable is of this kind: an input, an output or a memory.
pub(crate) fn is_of_kind(kind: VarKind, decls: &Decls, var: usize) -> bool
    ensures { IsTrue result ↔ IsOfKind kind decls.now var }
{
    match decls.vars().get(var) {
        Some(var) => var.kind == kind,
        None => false,
    }
}
