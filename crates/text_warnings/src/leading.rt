//! Where power can get from the right end of a cell.

ghost use Rattle.std.specs.Prelude.{◌≡◌, ◌↔◌, ◌+◌, ◌-◌, ◌<◌, ◌≤◌, IsTrue};
ghost use Rattle.diagram_program.specs.declared.geometry.TheConstants.{COLUMNS, ROWS, RUNGS};
ghost use Rattle.text_warnings.specs.Routes.{HasRoute, LeadsNowhere, LeadsThrough};
ghost use Rattle.text_warnings.specs.Leading.{AreLeading};

use diagram_program::geometry::{COLUMNS, Place, ROWS};
use diagram_program::{Cell, Program};

/// Whether the right link of the row `from` leads into the cell at a place and on to a cell that uses power; `onward` says whether
/// the right end of this cell leads to one.
#[tactic(auto, unfolding(crate::specs::Routes::LeadsThrough))]
fn leads_through(program: &Program, from: usize, at: Place, onward: bool) -> bool
    requires rungs { at.rung < program.now.rungs }
    requires rows { from < ROWS }
    requires onward { IsTrue onward ↔ HasRoute program.now at.rung at.row at.column }
    ensures { IsTrue result ↔ LeadsThrough program.now at.rung from at.row at.column (HasRoute program.now at.rung at.row at.column) }
{
    program.feeds(at, from)
        && match program.site(at).cell {
            Cell::Coil { .. } | Cell::Block { .. } | Cell::Jump { .. } | Cell::Return => true,
            Cell::Lower { linked, .. } => linked,
            Cell::Wire | Cell::Contact { .. } => onward,
            Cell::Empty => false,
        }
}

/// Whether the right link of the row `from` leads to a cell that uses power; `count` columns are after the next one, and `onward`
/// says from which rows of the next column power gets to one.
fn leads(program: &Program, rung: usize, from: usize, count: usize, onward: &[bool; ROWS]) -> bool
    requires rungs { rung < program.now.rungs }
    requires few { rung < RUNGS }
    requires rows { from < ROWS }
    requires columns { count + 1 < COLUMNS }
    requires onward { AreLeading program.now rung count onward.now }
    ensures { IsTrue result ↔ HasRoute program.now rung from (COLUMNS - (count + 1 + 1)) }
{
    let column = COLUMNS - (count + 1);
    for row in 0..ROWS {
        if leads_through(program, from, Place { rung, row, column }, onward[row]) {
            return true;
        }
    }
    false
}

/// From which rows of a column power gets to a cell that uses it; `count` columns are after the next one, and `onward` says the
/// same of the next column.
fn leading_before(
    program: &Program,
    rung: usize,
    count: usize,
    onward: &[bool; ROWS],
) -> [bool; ROWS]
    requires rungs { rung < program.now.rungs }
    requires few { rung < RUNGS }
    requires columns { count + 1 < COLUMNS }
    requires onward { AreLeading program.now rung count onward.now }
    ensures { AreLeading program.now rung (count + 1) result }
{
    let mut leading = [false; ROWS];
    for from in 0..ROWS {
        leading[from] = leads(program, rung, from, count, onward);
    }
    leading
}

/// From which rows the right end of a cell leads to one that uses power, with `count` columns on its right.
fn leading(program: &Program, rung: usize, count: usize) -> [bool; ROWS]
    requires rungs { rung < program.now.rungs }
    requires few { rung < RUNGS }
    requires columns { count < COLUMNS }
    ensures { AreLeading program.now rung count result }
{
    let mut leading = [false; ROWS];
    for behind in 0..count {
        leading = leading_before(program, rung, behind, &leading);
    }
    leading
}

/// Whether the place has a contact from which power gets to nothing that uses it.
pub(crate) fn leads_nowhere(program: &Program, at: Place) -> bool
    requires { at.rung < program.now.rungs }
    ensures { IsTrue result ↔ LeadsNowhere program.now at.rung at.row at.column }
{
    program.site(at).cell.contact().is_some()
        && !leading(program, at.rung, COLUMNS - (at.column + 1))[at.row]
}
