//! Jumps and returns.

ghost use Rattle.std.specs.Prelude.{◌≡◌, ◌<◌, [], IfSome, IsTrue};
ghost use Rattle.draw_check.specs.Groups.{Branches, Leaves};

use crate::plan::{Network, is_idle, is_link};
use diagram_program::Program;
use diagram_program::geometry::{COLUMNS, ROWS};
use st_expression::Expression;

/// Where a rung goes that has a jump or return alone, under the condition or its inverse.
#[tactic(auto, using(crate::proofs::Rungs::branches))]
pub(crate) fn branch(network: Network<'_>, condition: &Expression, on: bool) -> Option<usize>
    requires { network.rung < network.program.now.rungs }
    ensures { IfSome result (λ target. Branches network.entry.program.now network.entry.helpers.now network.entry.rung target on condition.now) }
{
    let (row, column, target) = network.program.jump(network.rung)?;
    if row >= ROWS
        || column >= COLUMNS
        || !is_idle(network.program, network.rung)
        || !is_link(network, ROWS * column + row, 0, condition, on)
    {
        return None;
    }
    Some(target)
}

/// Whether a rung goes to another one in any case.
#[tactic(auto, using(crate::proofs::Rungs::leaves))]
pub(crate) fn is_left(program: &Program, rung: usize, target: usize) -> bool
    requires { rung < program.now.rungs }
    ensures { IsTrue result → Leaves program.now rung target }
{
    let network = Network {
        program,
        rung,
        helpers: &[],
    };
    match branch(network, &Expression::Constant(true), true) {
        Some(found) => found == target,
        None => false,
    }
}
