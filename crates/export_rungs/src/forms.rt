//! The forms of cells that write.

ghost use Rattle.std.specs.Prelude.{◌≡◌, IfSome, None, Some};
ghost use Rattle.diagram_program.specs.declared.cell.Cell.TheVariants.{Coil, Contact};
ghost use Rattle.diagram_program.specs.declared.mode.Mode.TheVariants as contact;
ghost use Rattle.diagram_program.specs.declared.mode.CoilMode.TheVariants.{Falling, Inverse, Rising, Store};
ghost use Rattle.export_rungs.specs.Forms.{IsEdge};

use diagram_program::{Cell, CoilMode, Mode, Operand};

/// The operand and the memory of an edge contact.
pub(crate) fn edge_contact(cell: Cell) -> Option<(Operand, usize)>
    ensures { IfSome result (λ x. IsEdge x.0 x.1 cell) }
{
    match cell {
        Cell::Contact {
            operand,
            memory: Some(memory),
            ..
        } => Some((operand, memory)),
        _ => None,
    }
}

/// The operand and the memory of a contact `|P|`.
pub(crate) fn rising_contact(cell: Cell) -> Option<(Operand, usize)>
    ensures { IfSome result (λ x. cell ≡ Contact contact.Rising x.0 (Some x.1)) }
{
    match cell {
        Cell::Contact {
            mode: Mode::Rising,
            operand,
            memory: Some(memory),
        } => Some((operand, memory)),
        _ => None,
    }
}

/// The operand and the memory of a contact `|N|`.
pub(crate) fn falling_contact(cell: Cell) -> Option<(Operand, usize)>
    ensures { IfSome result (λ x. cell ≡ Contact contact.Falling x.0 (Some x.1)) }
{
    match cell {
        Cell::Contact {
            mode: Mode::Falling,
            operand,
            memory: Some(memory),
        } => Some((operand, memory)),
        _ => None,
    }
}

/// The variable of a coil `( )`.
pub(crate) fn store_coil(cell: Cell) -> Option<usize>
    ensures { IfSome result (λ var. cell ≡ Coil Store var None) }
{
    match cell {
        Cell::Coil {
            mode: CoilMode::Store,
            var,
            memory: None,
        } => Some(var),
        _ => None,
    }
}

/// The variable of a coil `(/)`.
pub(crate) fn inverse_coil(cell: Cell) -> Option<usize>
    ensures { IfSome result (λ var. cell ≡ Coil Inverse var None) }
{
    match cell {
        Cell::Coil {
            mode: CoilMode::Inverse,
            var,
            memory: None,
        } => Some(var),
        _ => None,
    }
}

/// The variable and the memory of a coil `(P)`.
pub(crate) fn rising_coil(cell: Cell) -> Option<(usize, usize)>
    ensures { IfSome result (λ x. cell ≡ Coil Rising x.0 (Some x.1)) }
{
    match cell {
        Cell::Coil {
            mode: CoilMode::Rising,
            var,
            memory: Some(memory),
        } => Some((var, memory)),
        _ => None,
    }
}

/// The variable and the memory of a coil `(N)`.
pub(crate) fn falling_coil(cell: Cell) -> Option<(usize, usize)>
    ensures { IfSome result (λ x. cell ≡ Coil Falling x.0 (Some x.1)) }
{
    match cell {
        Cell::Coil {
            mode: CoilMode::Falling,
            var,
            memory: Some(memory),
        } => Some((var, memory)),
        _ => None,
    }
}
