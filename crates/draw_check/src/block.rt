//! Calls of blocks and triggers.

ghost use Rattle.std.specs.Prelude.{◌≡◌, ◌<◌, IsTrue};
ghost use Rattle.diagram_program.specs.declared.geometry.TheConstants.{PLACES};
ghost use Rattle.diagram_program.specs.Program.{is_linked};
ghost use Rattle.scan_cycle.specs.Programs.{diagram_of};
ghost use Rattle.draw_check.specs.Groups.{IsSecond};

use crate::plan::{Network, is_link};
use diagram_program::geometry::{PLACES, ROWS};
use diagram_program::{Cell, Program};
use st_expression::Expression;
use st_statements::constant_of;

/// Whether a cell is the lower cell of a block and has a left link.
fn is_linked_lower(cell: Cell) -> bool
    ensures { result ≡ is_linked cell }
{
    matches!(cell, Cell::Lower { linked: true, .. })
}

/// Whether the cell below a place is the lower cell of a block and has a left link.
#[tactic(auto, using(crate::proofs::Lower::linked_below, crate::proofs::Lower::none_below))]
pub fn is_linked(program: &Program, rung: usize, place: usize) -> bool
    requires rung { rung < program.now.rungs }
    requires place { place < PLACES }
    ensures { result ≡ (diagram_of program.now).linked rung place }
{
    if place % ROWS + 1 >= ROWS {
        return false;
    }
    is_linked_lower(program.cell(rung, place % ROWS + 1, place / ROWS))
}

/// Whether the second input of the block at a place is the value of an expression.
pub(crate) fn is_second(network: Network<'_>, place: usize, expression: &Expression) -> bool
    requires { network.rung < network.program.now.rungs }
    ensures { IsTrue result → IsSecond network.entry.program.now network.entry.helpers.now network.entry.rung place expression.now }
{
    if place >= PLACES {
        return false;
    }
    if is_linked(network.program, network.rung, place) {
        is_link(network, place + 1, place % ROWS + 1, expression, true)
    } else {
        constant_of(expression) == Some(false)
    }
}
