//! The cells of a rung, and what feeds them.

ghost use Rattle.std.specs.Prelude.{◌≡◌, ◌<◌, ℕ, Bool, IfSome, IsTrue, true};
ghost use Rattle.diagram_program.specs.declared.geometry.TheConstants.{PLACES};
ghost use Rattle.diagram_program.specs.Program.{cell_of};
ghost use Rattle.scan_signals.specs.Truth.{plain};
ghost use Rattle.scan_cycle.specs.Cells.{Frame, Kept};
ghost use Rattle.scan_cycle.specs.Programs.{diagram_of};
ghost use Rattle.scan_cycle.specs.Rung.{link};
ghost use Rattle.draw_power.specs.Power.{IsClosedWhere, power};
ghost use Rattle.export_power.specs.Carried.{Carries};

use crate::ends::{Ends, place_of};
use crate::network::Network;
use diagram_program::geometry::{COLUMNS, Place, ROWS};
use diagram_program::{Cell, Program};

/// The right ends of those cells that feed a place; before the first column the left rail.
#[tactic(auto, using(crate::proofs::Back::link_is))]
pub fn ends_before(program: &Program, rung: usize, place: usize) -> Ends
    requires rung { rung < program.now.rungs }
    requires place { place < PLACES }
    ensures { (k : Kept) (now : ℕ) (f : Frame Bool)
        → link plain (diagram_of program.now) k now rung f place ≡ power program.now rung k now f result.column result.rows }
{
    // There are few rungs, so that `Place` can name this one.
    let _rungs = program.rungs();
    let at = Place {
        rung,
        row: place % ROWS,
        column: place / ROWS,
    };
    let mut rows = [false; ROWS];
    for row in 0..ROWS {
        rows[row] = program.feeds(at, row);
    }
    Ends {
        column: at.column,
        rows,
    }
}

/// The cell at a place.
#[tactic(auto, using(crate::proofs::Back::at_place))]
pub(crate) fn cell_at(net: Network<'_>, place: usize) -> Cell
    requires rung { net.rung < net.program.now.rungs }
    requires place { place < PLACES }
    ensures { result ≡ cell_of net.entry.program.now net.entry.rung place }
{
    net.program.cell(net.rung, place % ROWS, place / ROWS)
}

/// Whether a cell passes its left link on, as wires and coils do.
fn passes_on(cell: Cell) -> bool
    ensures { IsTrue result → IsClosedWhere (λ f. true) cell }
{
    matches!(cell, Cell::Wire | Cell::Coil { .. })
}

/// What feeds the wire or the coil of which these are the right end. None where they are that of another cell, or of several.
fn before_wire(net: Network<'_>, to: Ends) -> Option<Ends>
    requires { net.rung < net.program.now.rungs }
    ensures { IfSome result (λ from. Carries net.entry from to (λ s. true)) }
{
    let place = place_of(to)?;
    if passes_on(cell_at(net, place)) {
        Some(ends_before(net.program, net.rung, place))
    } else {
        None
    }
}

/// The ends from which wires and coils alone lead to these.
#[tactic(auto, using(crate::proofs::Back::carries_from, crate::proofs::Back::wire_before))]
pub(crate) fn unwired(net: Network<'_>, to: Ends) -> Ends
    requires { net.rung < net.program.now.rungs }
    ensures { Carries net.entry result to (λ s. true) }
{
    let mut near = to;
    for _ in 0..COLUMNS {
        let Some(from) = before_wire(net, near) else {
            return near;
        };
        near = from;
    }
    near
}
