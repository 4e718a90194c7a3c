//! A rung, and the power in it.

ghost use Rattle.std.specs.Prelude.{◌≡◌, ◌<◌, IsTrue};
ghost use Rattle.scan_cycle.specs.Programs.{diagram_of};
ghost use Rattle.export_rungs.specs.Steps.{Shows, ShowsSecond};

use crate::scan::Scan;
use diagram_program::gates::Action;
use diagram_program::geometry::PLACES;
use draw_check::is_linked;
use export_power::{Known, Network, is_link};
use st_expression::Expression;
use st_statements::constant_of;

/// A rung of a program, and the variables that stand for something in it.
#[derive(Clone, Copy)]
pub(crate) struct Rung<'a> {
    pub scan: Scan<'a>,
    pub rung: usize,
    pub known: &'a [Known],
    ghost within: { rung < scan.program.now.rungs },
}

/// Whether an expression has the value of the left link of a place, where these cells are done.
pub(crate) fn shows(at: Rung<'_>, done: &[Action], expression: &Expression, place: usize) -> bool
    ensures { IsTrue result → Shows at.entry.scan.program.now at.entry.rung done.now at.entry.known.now place expression.now }
{
    let network = Network {
        program: at.scan.program,
        rung: at.rung,
        known: at.known,
        done,
    };
    is_link(network, expression, place)
}

/// Whether an expression has the value of the second input of the block at a place, where these cells are done.
pub(crate) fn shows_second(
    at: Rung<'_>,
    done: &[Action],
    expression: &Expression,
    place: usize,
) -> bool
    ensures { IsTrue result → ShowsSecond at.entry.scan.program.now at.entry.rung done.now at.entry.known.now place expression.now }
{
    if place >= PLACES {
        return false;
    }
    if is_linked(at.scan.program, at.rung, place) {
        shows(at, done, expression, place + 1)
    } else {
        constant_of(expression) == Some(false)
    }
}
