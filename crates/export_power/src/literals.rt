//! Operands that have the power of a cell: contacts, and the outputs of blocks.

ghost use Rattle.std.specs.Prelude.{◌≡◌, ◌<◌, IfSome, IsTrue, false, if◌then◌else◌};
ghost use Rattle.diagram_program.specs.declared.geometry.TheConstants.{PLACES};
ghost use Rattle.diagram_program.specs.declared.mode.Mode.TheVariants.{Plain, Negated};
ghost use Rattle.diagram_program.specs.Program.{is_block};
ghost use Rattle.st_statements.specs.Run.{seen};
ghost use Rattle.draw_power.specs.Power.{is_seen};
ghost use Rattle.export_power.specs.Carried.{Carries, IsLiteral, LetsThrough, Shows};

use crate::cells::{cell_at, ends_before, unwired};
use crate::ends::{Ends, place_of, rail};
use crate::known::Meaning;
use crate::network::Network;
use crate::operands::{is_called, is_known, is_known_power, stands_for};
use diagram_program::{Cell, Mode};
use st_expression::Operand;

/// The mode of a contact that is closed where its operand is `on`.
fn mode_of(on: bool) -> Mode
    ensures { result ≡ (if on then Plain else Negated) }
{
    if on { Mode::Plain } else { Mode::Negated }
}

/// Whether a cell is a contact that is closed where an operand is `on`, by its mode and what it reads.
fn is_literal(net: Network<'_>, cell: Cell, operand: Operand, on: bool) -> bool
    ensures { IsTrue result → IsLiteral net.entry cell (is_seen on operand) }
{
    match cell {
        Cell::Contact {
            mode,
            operand: read,
            ..
        } => mode == mode_of(on) && stands_for(net, operand, read),
        _ => false,
    }
}

/// Whether a cell is a contact.
fn is_contact(cell: Cell) -> bool
    ensures { IsTrue result → is_block cell ≡ false }
{
    matches!(cell, Cell::Contact { .. })
}

/// Whether the cell at a place is a contact that is closed where an operand is `on`.
fn is_closed_where(net: Network<'_>, place: usize, operand: Operand, on: bool) -> bool
    requires rung { net.rung < net.program.now.rungs }
    requires place { place < PLACES }
    ensures { IsTrue result → LetsThrough net.entry place (is_seen on operand) }
{
    let cell = cell_at(net, place);
    if on && is_contact(cell) && is_known(net, operand, Meaning::Closed(place)) {
        return true;
    }
    is_literal(net, cell, operand, on)
}

/// What feeds the contact of which these are the right end, if it is closed where an operand is `on`.
#[tactic(auto, using(crate::proofs::Back::through_contact))]
pub(crate) fn before_contact(net: Network<'_>, operand: Operand, on: bool, to: Ends) -> Option<Ends>
    requires { net.rung < net.program.now.rungs }
    ensures { IfSome result (λ from. Carries net.entry from to (is_seen on operand)) }
{
    let place = place_of(to)?;
    if is_closed_where(net, place, operand, on) {
        Some(unwired(net, ends_before(net.program, net.rung, place)))
    } else {
        None
    }
}

/// Whether these are the right end of a block that was called, and the operand is its output.
fn is_output(net: Network<'_>, operand: Operand, ends: Ends) -> bool
    requires { net.rung < net.program.now.rungs }
    ensures { IsTrue result → Shows net.entry ends (λ s. seen s operand) }
{
    let Some(place) = place_of(ends) else {
        return false;
    };
    match (cell_at(net, place), operand) {
        (Cell::Block { inst }, Operand::Output(number)) => {
            inst == number && is_called(net.done, number)
        }
        _ => false,
    }
}

/// What feeds that of which these are the right end, if an operand has its value: the power itself, a block's output, or a contact.
#[tactic(auto, using(crate::proofs::Back::from_rail, crate::proofs::Back::known_shows))]
pub(crate) fn before_operand(net: Network<'_>, operand: Operand, to: Ends) -> Option<Ends>
    requires { net.rung < net.program.now.rungs }
    ensures { IfSome result (λ from. Carries net.entry from to (λ s. seen s operand)) }
{
    if is_known_power(net, operand, to) || is_output(net, operand, to) {
        return Some(rail());
    }
    before_contact(net, operand, true, to)
}
