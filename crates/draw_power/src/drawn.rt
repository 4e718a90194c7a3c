//! Whether a place has the power of an expression.

ghost use Rattle.std.specs.Prelude.{◌≡◌, ◌<◌, ℕ, Bool, IsTrue};
ghost use Rattle.scan_signals.specs.Truth.{plain};
ghost use Rattle.scan_cycle.specs.Cells.{Frame, Kept};
ghost use Rattle.scan_cycle.specs.Programs.{diagram_of};
ghost use Rattle.scan_cycle.specs.Rung.{link};
ghost use Rattle.st_statements.specs.Run.{seen};
ghost use Rattle.draw_power.specs.Helpers.{AreHelpers, value_as};
ghost use Rattle.draw_power.specs.Parts.{shown};
ghost use Rattle.draw_power.specs.Power.{Leads};

use crate::cells::{is_fed, wires};
use crate::ends::{Ends, Start};
use crate::following::follow;
use crate::helpers::Helper;
use crate::network::Network;
use crate::part::Part;
use diagram_program::Program;
use diagram_program::geometry::{COLUMNS, ROWS};
use st_expression::Expression;

/// Whether the power of these rows, and no other, comes to a place, along wires in a row.
#[tactic(auto, using(crate::proofs::Flow::leads))]
fn leads(net: Network<'_>, at: Start, place: usize) -> bool
    ensures { IsTrue result → Leads net.entry at.from place }
{
    let column = place / ROWS;
    let Some(from) = wires(net, at, column) else {
        return false;
    };
    let row = place % ROWS;
    from.column == column && column < COLUMNS && is_fed(net, Start { row, from })
}

/// Whether the left link of a place is what a part shows: the part is followed from the left rail on, and wires lead from its end to
/// the place.
fn is_network(net: Network<'_>, part: Part<'_>, row: usize, place: usize) -> bool
    ensures { IsTrue result → (k : Kept) (now : ℕ) (f : Frame Bool) → AreHelpers net.entry.helpers.now f
        → link plain (diagram_of net.entry.program.now) k now net.entry.rung f place ≡ shown part.entry f }
{
    let rail = Ends {
        column: 0,
        rows: [false; ROWS],
    };
    let Some(from) = follow(net, part, Start { row, from: rail }, 0) else {
        return false;
    };
    let own_row = place % ROWS;
    leads(net, Start { row, from }, place) || leads(net, Start { row: own_row, from }, place)
}

/// Whether the left link of a place of a rung is the value of an expression, or its inverse where it isn't `on`, in every state in which
/// each helper's variable has the value of its part.
///
/// It is true where the expression is drawn in this way alone:
///
/// - The expression begins at the left rail with its upper left cell in `row`, and takes a rectangle, as each of its parts does.
/// - An operand is a contact: plain, and negated where its inverse is drawn. So is the variable of the first helper that stands for an
///   expression of the same tree, unless that is a single operand.
/// - AND is in series: the second part begins in the upper row of the first one, in the column behind it.
/// - OR is one part below the other: both begin in the same column, the second one in the row below the rectangle of the first. Wires in
///   its upper row lead each on to the column behind the wider one, and an OR that is a part of an OR ends in the column of the outer one.
/// - NOT of an AND is the OR of what is NOT its parts, and NOT of an OR the AND of it.
/// - `a = b` is `(a AND b) OR (NOT a AND NOT b)`, and `a XOR b` is `(a AND NOT b) OR (NOT a AND b)`; the inverse of one is the other.
/// - What constants decide takes no cell. A part of an OR that they decide to be off isn't there; where they decide a part of `=` or XOR,
///   the other one is alone, or its inverse. A whole that they decide to be off isn't drawn at all.
/// - Behind the whole, wires in `row` or in the row of the place lead on to the place.
/// - Each cell, and the place, is fed from the rows in which the network before it ends, and from no other row.
pub fn is_drawn(
    program: &Program,
    rung: usize,
    helpers: &[Helper<'_>],
    expression: &Expression,
    on: bool,
    row: usize,
    place: usize,
) -> bool
    requires { rung < program.now.rungs }
    ensures { IsTrue result → (k : Kept) (now : ℕ) (f : Frame Bool) → AreHelpers helpers.now f
        → link plain (diagram_of program.now) k now rung f place ≡ value_as on (seen f) expression.now }
{
    // There are few rungs, so that `Place` can name this one.
    let _rungs = program.rungs();
    let net = Network {
        program,
        rung,
        helpers,
    };
    is_network(net, Part { expression, on }, row, place)
}
