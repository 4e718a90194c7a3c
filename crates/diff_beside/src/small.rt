//! How large the numbers in a program are.

ghost use Rattle.std.specs.Prelude.{ℕ, ◌≤◌, ◌*◌, length};
ghost use Rattle.diagram_declarations.specs.declared.limits.TheConstants.{MOST_INSTANCES, MOST_VARS};
ghost use Rattle.diagram_program.specs.declared.geometry.TheConstants.{PLACES, RUNGS};
ghost use Rattle.diagram_program.specs.Program.{cell_in, memories_of, IsWellFormed, IsWhole};
ghost use Rattle.diff_beside.specs.Moving.{IsSmall};

use diagram_program::Program;

/// Does nothing: its contract is how large the numbers in a program are.
pub(crate) fn checked(program: &Program)
    ensures vars { length program.now.decls.vars ≤ MOST_VARS }
    ensures instances { length program.now.decls.instances ≤ MOST_INSTANCES }
    ensures memories { memories_of program.now ≤ PLACES * RUNGS }
    ensures whole { IsWhole program.now }
    ensures well_formed { IsWellFormed program.now }
    ensures small { (i : ℕ) → IsSmall (cell_in program.now i) }
{
    let _vars = program.decls().vars();
    let _rungs = program.rungs();
    program.checked();
}
