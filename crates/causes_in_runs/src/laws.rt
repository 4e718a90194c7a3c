//! Laws over the definitions: each function does nothing, and its contract is the law.

ghost use Rattle.causes_in_runs.specs.Leading.{RunsLead};

use diagram_program::Program;
use invariant_sets::laws::allowed_where_given;
use scan_cycle::scene::checked;

/// A run that comes to a number comes from a state that leads to it: the one before its last scan, with the inputs that this scan gives.
///
/// So where no state that counts leads to a number, no run comes to it, if each state that a run reaches counts. Where something is assumed of the
/// inputs, it is of states and runs with which it is true.
pub fn unreached(program: &Program)
    ensures { RunsLead program.now }
{
    checked(program);
    allowed_where_given(program);
    program.checked();
}
