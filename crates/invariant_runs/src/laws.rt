//! Laws over the definitions: each function does nothing, and its contract is the law.

ghost use Rattle.invariant_runs.specs.Reached.{RunsStay, RunsStayAssuming};

use diagram_program::Program;
use invariant_sets::laws::{stays_assuming, stays_so};
use scan_cycle::scene::checked;

/// What is settled to stay so is so in each state that a run reaches.
///
/// From a state of the program in which a set is so, and of no pair both are ON, and which are settled to stay so, any scans lead to a state of
/// the program in which it is still so, with any inputs and at any moments that don't fall.
pub fn reached(program: &Program)
    ensures { RunsStay program.now }
{
    checked(program);
    stays_so(program);
}

/// The same of scans in which what is assumed of the inputs is true.
pub fn reached_assuming(program: &Program)
    ensures { RunsStayAssuming program.now }
{
    checked(program);
    stays_assuming(program);
}
