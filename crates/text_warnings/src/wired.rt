//! What is connected to the left rail by wires alone.

ghost use Rattle.std.specs.Prelude.{◌↔◌, ◌+◌, ◌<◌, IsTrue};
ghost use Rattle.diagram_program.specs.declared.geometry.TheConstants.{COLUMNS, ROWS, RUNGS};
ghost use Rattle.text_warnings.specs.Ways.{AlwaysLeaves, IsWired, IsWiredBy};
ghost use Rattle.text_warnings.specs.Reaching.{AreWired};

use diagram_program::geometry::{Place, ROWS};
use diagram_program::{Cell, Program};

/// Whether a wire at a place feeds this row of the next column; `wired`: whether wires connect it to the left rail.
#[tactic(auto, unfolding(crate::specs::Ways::IsWiredBy))]
fn is_wired_by(program: &Program, row: usize, at: Place, wired: bool) -> bool
    requires rungs { at.rung < program.now.rungs }
    requires columns { at.column + 1 < COLUMNS }
    requires rows { row < ROWS }
    requires wired { IsTrue wired ↔ IsWired program.now at.rung at.column at.row }
    ensures { IsTrue result ↔ IsWiredBy program.now at.rung row at.row at.column (IsWired program.now at.rung at.column at.row) }
{
    let fed = Place {
        rung: at.rung,
        row,
        column: at.column + 1,
    };
    program.feeds(fed, at.row) && program.site(at).cell == Cell::Wire && wired
}

/// Whether wires connect the left end of the cell after a place to the left rail; `wired`: which left ends in the place's column they do.
fn is_wired(program: &Program, at: Place, wired: &[bool; ROWS]) -> bool
    requires rungs { at.rung < program.now.rungs }
    requires columns { at.column + 1 < COLUMNS }
    requires wired { AreWired program.now at.rung at.column wired.now }
    ensures { IsTrue result ↔ IsWired program.now at.rung (at.column + 1) at.row }
{
    for from in 0..ROWS {
        let wire = Place {
            rung: at.rung,
            row: from,
            column: at.column,
        };
        if is_wired_by(program, at.row, wire, wired[from]) {
            return true;
        }
    }
    false
}

/// Which left ends of cells in the next column wires connect to the left rail; `wired`: which in this one.
fn wired_behind(program: &Program, rung: usize, column: usize, wired: &[bool; ROWS]) -> [bool; ROWS]
    requires rungs { rung < program.now.rungs }
    requires few { rung < RUNGS }
    requires columns { column + 1 < COLUMNS }
    requires wired { AreWired program.now rung column wired.now }
    ensures { AreWired program.now rung (column + 1) result }
{
    let mut behind = [false; ROWS];
    for row in 0..ROWS {
        behind[row] = is_wired(program, Place { rung, row, column }, wired);
    }
    behind
}

/// Which left ends of cells in a column wires connect to the left rail.
fn wired(program: &Program, rung: usize, column: usize) -> [bool; ROWS]
    requires rungs { rung < program.now.rungs }
    requires few { rung < RUNGS }
    requires columns { column < COLUMNS }
    ensures { AreWired program.now rung column result }
{
    let mut wired = [true; ROWS];
    for before in 0..column {
        wired = wired_behind(program, rung, before, &wired);
    }
    wired
}

/// Whether the rung always ends with its jump or return: wires connect it to the left rail.
pub(crate) fn always_leaves(program: &Program, rung: usize) -> bool
    requires rungs { rung < program.now.rungs }
    requires few { rung < RUNGS }
    ensures { IsTrue result ↔ AlwaysLeaves program.now rung }
{
    match program.jump(rung) {
        Some((row, column, _target)) => wired(program, rung, column)[row],
        None => false,
    }
}
