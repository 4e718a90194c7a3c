//! What is compared.

ghost use Rattle.std.specs.Prelude.{◌≡◌, ◌∷◌, ◌<◌, [], IfSome, IsTrue, None};
ghost use Rattle.diagram_program.specs.Gates.{actions_of};
ghost use Rattle.diagram_program.specs.Program.{jump_of};
ghost use Rattle.draw_check.specs.Groups.{IsLink};

use diagram_program::Program;
use diagram_program::gates::Action;
use draw_power::{Helper, is_drawn};
use st_expression::Expression;

/// A program, and how it was drawn from statements.
#[derive(Clone, Copy)]
pub struct Plan<'a> {
    pub program: &'a Program,
    /// How many variables the statements have; those of the program with a greater number are helpers.
    pub variables: usize,
    /// For each rung that writes a helper the part of an expression that the helper stands for.
    pub parts: &'a [Option<&'a Expression>],
}

/// A rung of the program, and the helpers that its contacts may read.
#[derive(Clone, Copy)]
pub(crate) struct Network<'a> {
    pub program: &'a Program,
    pub rung: usize,
    pub helpers: &'a [Helper<'a>],
}

/// Whether the left link of a place is the value of an expression, or its inverse where it isn't `on`.
pub(crate) fn is_link(
    network: Network<'_>,
    place: usize,
    row: usize,
    expression: &Expression,
    on: bool,
) -> bool
    requires { network.rung < network.program.now.rungs }
    ensures { IsTrue result → IsLink network.entry.program.now network.entry.helpers.now network.entry.rung place on expression.now }
{
    let Network {
        program,
        rung,
        helpers,
    } = network;
    is_drawn(program, rung, helpers, expression, on, row, place)
}

/// The one cell of a rung that writes, where there is no jump.
pub(crate) fn only_action(program: &Program, rung: usize) -> Option<Action>
    requires { rung < program.now.rungs }
    ensures action { IfSome result (λ a. actions_of program.now rung ≡ a ∷ []) }
    ensures jump { IfSome result (λ _. jump_of program.now rung ≡ None) }
{
    match (program.actions(rung), program.jump(rung)) {
        ([action], None) => Some(*action),
        _ => None,
    }
}

/// The first of some actions, and those behind it.
pub(crate) fn first_of(actions: &[Action]) -> Option<(Action, &[Action])>
    ensures first { IfSome result (λ x. actions.now ≡ x.0 ∷ x.1.now) }
    ensures none { result ≡ None → actions.now ≡ [] }
{
    match actions {
        [action, more @ ..] => Some((*action, more)),
        [] => None,
    }
}

/// Whether no cell of a rung writes.
pub(crate) fn is_idle(program: &Program, rung: usize) -> bool
    requires { rung < program.now.rungs }
    ensures { IsTrue result → actions_of program.now rung ≡ [] }
{
    matches!(program.actions(rung), [])
}

/// Whether a rung has no jump and no return.
pub(crate) fn is_without_jump(program: &Program, rung: usize) -> bool
    requires { rung < program.now.rungs }
    ensures { IsTrue result → jump_of program.now rung ≡ None }
{
    match program.jump(rung) {
        Some(_) => false,
        None => true,
    }
}
