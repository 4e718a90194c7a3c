//! Which rungs a scan can reach.

ghost use Rattle.std.specs.Prelude.{◌↔◌, ◌<◌, ◌≤◌, ◌+◌, IsTrue};
ghost use Rattle.diagram_program.specs.declared.geometry.TheConstants.{RUNGS};
ghost use Rattle.text_warnings.specs.Ways.{Follows, IsNeverReached, IsReached, JumpsTo};
ghost use Rattle.text_warnings.specs.Reaching.{AreReached};

use crate::wired::always_leaves;
use diagram_program::Program;
use diagram_program::geometry::{Place, RUNGS};

/// Whether the rung's jump or return goes to another one.
fn jumps_to(program: &Program, from: usize, rung: usize) -> bool
    requires { from < program.now.rungs }
    ensures { IsTrue result ↔ JumpsTo program.now from rung }
{
    match program.jump(from) {
        Some((_, _, target)) => target == rung,
        None => false,
    }
}

/// Whether a scan can go on from a rung to this one.
fn follows(program: &Program, before: usize, rung: usize) -> bool
    requires rungs { before < program.now.rungs }
    requires few { before < RUNGS }
    ensures { IsTrue result ↔ Follows program.now before rung }
{
    rung == before + 1 && !always_leaves(program, before) || jumps_to(program, before, rung)
}

/// Whether a scan reaches a rung: it is the first one, or some rung that a scan reaches is followed by it; `reached` says which of
/// those before it a scan reaches.
fn comes_to(program: &Program, rung: usize, reached: &[bool; RUNGS]) -> bool
    requires rungs { rung < program.now.rungs }
    requires few { rung < RUNGS }
    requires reached { AreReached program.now rung reached.now }
    ensures { IsTrue result ↔ IsReached program.now rung }
{
    for before in 0..rung {
        if reached[before] && follows(program, before, rung) {
            return true;
        }
    }
    rung == 0
}

/// Which of the first rungs a scan reaches.
fn reached_below(program: &Program, count: usize) -> [bool; RUNGS]
    requires rungs { count ≤ program.now.rungs }
    requires few { count ≤ RUNGS }
    ensures { AreReached program.now count result }
{
    let mut reached = [false; RUNGS];
    for rung in 0..count {
        reached[rung] = comes_to(program, rung, &reached);
    }
    reached
}

/// Whether a scan can come to a rung by jumps and the rungs before it.
fn is_reached(program: &Program, rung: usize) -> bool
    requires { rung < program.now.rungs }
    ensures { IsTrue result ↔ IsReached program.now rung }
{
    let _rungs = program.rungs();
    comes_to(program, rung, &reached_below(program, rung))
}

/// Whether the place is the first one of a rung that no scan reaches.
pub(crate) fn is_never_reached(program: &Program, at: Place) -> bool
    requires { at.rung < program.now.rungs }
    ensures { IsTrue result ↔ IsNeverReached program.now at.rung at.row at.column }
{
    at.row == 0 && at.column == 0 && !is_reached(program, at.rung)
}
