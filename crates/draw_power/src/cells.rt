//! One cell after the other.

ghost use Rattle.std.specs.Prelude.{◌≡◌, ◌<◌, Bool, IfSome, IsTrue, true, if◌then◌else◌};
ghost use Rattle.diagram_program.specs.declared.geometry.TheConstants.{ROWS, COLUMNS};
ghost use Rattle.diagram_program.specs.declared.mode.Mode.TheVariants.{Plain, Negated};
ghost use Rattle.diagram_program.specs.Program.{site_at};
ghost use Rattle.scan_signals.specs.Truth.{plain};
ghost use Rattle.scan_cycle.specs.Cells.{Frame, operand_value};
ghost use Rattle.st_statements.specs.Run.{seen};
ghost use Rattle.draw_power.specs.Power.{Carries, IsBehind, IsClosedWhere, IsFed, Joins, is_seen};

use crate::ends::{Ends, Start, either, only};
use crate::network::Network;
use diagram_program::geometry::{COLUMNS, Place, ROWS};
use diagram_program::{Cell, Mode};
use st_expression::Operand;

/// Whether just the power of these rows comes to a place.
#[tactic(auto, using(crate::proofs::Flow::fed_first, crate::proofs::Flow::fed_by))]
pub(crate) fn is_fed(net: Network<'_>, at: Start) -> bool
    requires row { at.row < ROWS }
    requires column { at.from.column < COLUMNS }
    ensures { IsTrue result → IsFed net.entry at.row at.from }
{
    if at.from.column == 0 {
        return true;
    }
    let place = Place {
        rung: net.rung,
        row: at.row,
        column: at.from.column,
    };
    for row in 0..ROWS {
        if net.program.feeds(place, row) != at.from.rows[row] {
            return false;
        }
    }
    true
}

/// Whether a contact's operand is one of an expression.
fn is_same(read: diagram_program::Operand, sought: Operand) -> bool
    ensures { IsTrue result → (f : Frame Bool) → operand_value plain f read ≡ seen f sought }
{
    match (read, sought) {
        (diagram_program::Operand::Var(number), Operand::Variable(other)) => number == other,
        (diagram_program::Operand::Output(number), Operand::Output(other)) => number == other,
        _ => false,
    }
}

/// The mode of a contact that is closed where its operand is `on`.
fn mode_of(on: bool) -> Mode
    ensures { result ≡ (if on then Plain else Negated) }
{
    if on { Mode::Plain } else { Mode::Negated }
}

/// Whether a cell is a contact that is closed where the operand is `on`.
#[tactic(auto, using(crate::proofs::Flow::closed_by))]
fn is_contact(cell: Cell, operand: Operand, on: bool) -> bool
    ensures { IsTrue result → IsClosedWhere (is_seen on operand) cell }
{
    match cell {
        Cell::Contact {
            mode,
            operand: read,
            ..
        } => mode == mode_of(on) && is_same(read, operand),
        _ => false,
    }
}

/// The right end of a cell.
fn behind(at: Start) -> Ends
    requires row { at.row < ROWS }
    requires column { at.from.column < COLUMNS }
    ensures { IsBehind at.row at.from result }
{
    Ends {
        column: at.from.column + 1,
        rows: only(at.row),
    }
}

/// The cell at a place, if just the power of these rows comes to it.
fn fed_cell(net: Network<'_>, at: Start) -> Option<Cell>
    ensures cell { IfSome result (λ cell. cell ≡ (site_at net.entry.program.now net.entry.rung at.row at.from.column).cell) }
    ensures fed { IfSome result (λ cell. IsFed net.entry at.row at.from) }
    ensures row { IfSome result (λ cell. at.row < ROWS) }
    ensures column { IfSome result (λ cell. at.from.column < COLUMNS) }
{
    if at.row < ROWS && at.from.column < COLUMNS && is_fed(net, at) {
        Some(net.program.cell(net.rung, at.row, at.from.column))
    } else {
        None
    }
}

/// The right end of a contact that is closed where the operand is `on`. None where another cell is there.
pub(crate) fn contact(net: Network<'_>, operand: Operand, on: bool, at: Start) -> Option<Ends>
    ensures { IfSome result (λ to. Carries net.entry at.from to (is_seen on operand)) }
{
    let cell = fed_cell(net, at)?;
    if is_contact(cell, operand, on) {
        Some(behind(at))
    } else {
        None
    }
}

/// The right end of a wire. None where another cell is there.
#[tactic(auto, using(crate::proofs::Flow::through_wire))]
fn wire(net: Network<'_>, at: Start) -> Option<Ends>
    ensures { IfSome result (λ to. Carries net.entry at.from to (λ f. true)) }
{
    match fed_cell(net, at)? {
        Cell::Wire => Some(behind(at)),
        _ => None,
    }
}

/// The right end of wires in a row, up to a column. None where another cell is in between.
#[tactic(auto, using(crate::proofs::Flow::carries_from, crate::proofs::Flow::wire_more))]
pub(crate) fn wires(net: Network<'_>, at: Start, column: usize) -> Option<Ends>
    ensures { IfSome result (λ to. Carries net.entry at.from to (λ f. true)) }
{
    let row = at.row;
    let mut last = at.from;
    for _ in at.from.column..column {
        last = wire(net, Start { row, from: last })?;
    }
    Some(last)
}

/// The right end of two networks that end together: each is led on along its row to the column, or as far as the other one goes.
#[tactic(auto, using(crate::proofs::Flow::joins))]
pub(crate) fn joined(net: Network<'_>, first: Start, second: Start, column: usize) -> Option<Ends>
    ensures { IfSome result (λ to. Joins net.entry first.from second.from to) }
{
    let column = column.max(first.from.column).max(second.from.column);
    let upper = wires(net, first, column)?;
    let lower = wires(net, second, column)?;
    if upper.column != lower.column {
        return None;
    }
    Some(Ends {
        column: upper.column,
        rows: either(upper.rows, lower.rows),
    })
}
