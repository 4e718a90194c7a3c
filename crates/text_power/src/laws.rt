//! Laws over the definitions, each the contract of a function without effect.

ghost use Rattle.std.specs.Prelude.{ℕ, List};
ghost use Rattle.scan_cycle.specs.declared.seen.Mark.{Mark};
ghost use Rattle.text_power.specs.Cuts.{CutsHold, PowerComesByRoutes};
ghost use Rattle.text_power.specs.Marks.{LinkedEndsAgree, LoneCoilsObey};
ghost use Rattle.text_power.specs.Show.{IsErased};

use diagram_program::Program;
use scan_cycle::scene::checked;

/// Erasing the marks of a line gives the line, where it has none of their characters.
pub fn erased()
    ensures { (marks : List Mark) (rung line : ℕ) (text : List ℕ) → IsErased marks rung line text }
{}

/// Both ends of a vertical link have the same power.
pub fn linked_ends(program: &Program)
    ensures { LinkedEndsAgree program.now }
{
    checked(program);
}

/// A coil that is alone on its variable in its rung obeys its wire: a plain one is ON exactly where its wire is live.
pub fn lone_coils(program: &Program)
    ensures { LoneCoilsObey program.now }
{
    program.checked();
}

/// There is power at a place of an evaluated rung exactly where it ends nowhere on one of the routes to it.
pub fn power_ends(program: &Program)
    ensures { PowerComesByRoutes program.now }
{
    checked(program);
}

/// As long as the places where power ends let none through, a coil gets none, whatever else changes.
pub fn cuts(program: &Program)
    ensures { CutsHold program.now }
{
    checked(program);
}
