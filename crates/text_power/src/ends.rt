//! Where power ends on the routes to a cell.

ghost use Rattle.std.specs.Prelude.{◌≡◌, ◌<◌, ◌≤◌, ◌-◌, ◌+◌, ◌%◌, ◌/◌, ◌&&◌, ◌*◌, false};
ghost use Rattle.diagram_program.specs.declared.geometry.TheConstants.{COLUMNS, PLACES, ROWS, RUNGS};
ghost use Rattle.text_power.specs.Ends.{AreAnswers, any_past, any_to, is_ended, is_live, of_rung};

use crate::show::mark_in;
use diagram_program::geometry::{PLACES, Place, ROWS};
use diagram_program::{Cell, Program};
use scan_cycle::Mark;

/// A rung of a program, and what was seen of the program.
#[derive(Clone, Copy)]
pub(crate) struct Rung<'a> {
    pub program: &'a Program,
    pub marks: &'a [Mark],
    pub number: usize,
}

/// Whether power gets through a cell to its right end, if `live` says that it comes to its left end.
fn passes(rung: Rung<'_>, row: usize, column: usize, live: bool) -> bool
    requires number { rung.number < rung.program.now.rungs }
    requires few { rung.program.now.rungs ≤ RUNGS }
    requires row { row < ROWS }
    requires column { column < COLUMNS }
    requires live { live ≡ any_to (of_rung is_live rung) rung.program.now rung.number (ROWS * column + row) }
    ensures { result ≡ any_past (of_rung is_live rung.entry) rung.entry.program.now rung.entry.number row column }
{
    let mark = mark_in(rung.marks, rung.number, row, column);
    match rung.program.cell(rung.number, row, column) {
        Cell::Block { .. } => mark.right,
        Cell::Wire | Cell::Coil { .. } => live,
        Cell::Contact { .. } => live & mark.on,
        Cell::Empty | Cell::Lower { .. } | Cell::Jump { .. } | Cell::Return => false,
    }
}

/// Whether power ends at the place `end` on a route to the right end of a cell: at the cell itself, or before it.
fn ends(rung: Rung<'_>, row: usize, column: usize, live: bool, ended: bool, end: usize) -> bool
    requires number { rung.number < rung.program.now.rungs }
    requires few { rung.program.now.rungs ≤ RUNGS }
    requires row { row < ROWS }
    requires column { column < COLUMNS }
    requires live { live ≡ any_to (of_rung is_live rung) rung.program.now rung.number (ROWS * column + row) }
    requires ended { ended ≡ any_to (of_rung (is_ended end) rung) rung.program.now rung.number (ROWS * column + row) }
    ensures { result ≡ any_past (of_rung (is_ended end) rung.entry) rung.entry.program.now rung.entry.number row column }
{
    let mark = mark_in(rung.marks, rung.number, row, column);
    let here = ROWS * column + row == end;
    match rung.program.cell(rung.number, row, column) {
        Cell::Block { .. } => !mark.right & here,
        Cell::Wire | Cell::Coil { .. } => ended,
        Cell::Contact { .. } => ended | (live & !mark.on & here),
        Cell::Empty | Cell::Lower { .. } | Cell::Jump { .. } | Cell::Return => ended
            | (live & here),
    }
}

/// Whether power comes to the left end of a place, by the places before it.
fn is_live(rung: Rung<'_>, at: usize, live: &[bool]) -> bool
    requires number { rung.number < rung.program.now.rungs }
    requires at { at < PLACES }
    requires live { AreAnswers (of_rung is_live rung) rung.program.now rung.number at live.now }
    ensures { result ≡ any_to (of_rung is_live rung.entry) rung.entry.program.now rung.entry.number at }
{
    let _rungs = rung.program.rungs();
    if at < ROWS {
        return true;
    }
    let (row, column) = (at % ROWS, at / ROWS);
    let here = Place {
        rung: rung.number,
        row,
        column,
    };
    let mut found = false;
    for from in 0..ROWS {
        let before = ROWS * (column - 1) + from;
        found = found
            | (rung.program.feeds(here, from) & passes(rung, from, column - 1, live[before]));
    }
    found
}

/// Whether power ends at the place `end` on a route to a place.
fn is_ended(rung: Rung<'_>, at: usize, live: &[bool], ended: &[bool], end: usize) -> bool
    requires number { rung.number < rung.program.now.rungs }
    requires at { at < PLACES }
    requires live { AreAnswers (of_rung is_live rung) rung.program.now rung.number at live.now }
    requires ended { AreAnswers (of_rung (is_ended end) rung) rung.program.now rung.number at ended.now }
    ensures { result ≡ any_to (of_rung (is_ended end) rung.entry) rung.entry.program.now rung.entry.number at }
{
    let _rungs = rung.program.rungs();
    if at < ROWS {
        return false;
    }
    let (row, column) = (at % ROWS, at / ROWS);
    let here = Place {
        rung: rung.number,
        row,
        column,
    };
    let mut found = false;
    for from in 0..ROWS {
        let before = ROWS * (column - 1) + from;
        let past = ends(rung, from, column - 1, live[before], ended[before], end);
        found = found | (rung.program.feeds(here, from) & past);
    }
    found
}

/// Which places of a rung power comes to.
pub(crate) fn live_places(rung: Rung<'_>) -> [bool; PLACES]
    requires { rung.number < rung.program.now.rungs }
    ensures { AreAnswers (of_rung is_live rung.entry) rung.entry.program.now rung.entry.number PLACES result }
{
    let mut live = [false; PLACES];
    for at in 0..PLACES {
        live[at] = is_live(rung, at, &live);
    }
    live
}

/// Whether power ends at the place `end` on a route to each place.
pub(crate) fn ended_places(rung: Rung<'_>, live: &[bool], end: usize) -> [bool; PLACES]
    requires number { rung.number < rung.program.now.rungs }
    requires live { AreAnswers (of_rung is_live rung) rung.program.now rung.number PLACES live.now }
    ensures { AreAnswers (of_rung (is_ended end) rung.entry) rung.entry.program.now rung.entry.number PLACES result }
{
    let mut ended = [false; PLACES];
    for at in 0..PLACES {
        ended[at] = is_ended(rung, at, live, &ended, end);
    }
    ended
}
