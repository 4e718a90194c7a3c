//! Copies of states.

ghost use Rattle.std.specs.Prelude.{◌≡◌, IfOk};
ghost use Rattle.scan_cycle.specs.Standing.{Fits};

use diagram_program::Program;
use scan_cycle::{Memory, State};
use std::alloc::Global;

/// A copy of a state of the program.
pub(crate) fn copy_of(alloc: Global, program: &Program, state: &State) -> Result<State, Memory>
    requires { Fits program.now state.now }
    ensures { IfOk result (λ s. s ≡ state.now) }
{
    let mut copy = State::fresh(alloc, program)?;
    state.checked();
    copy.checked();
    copy.copy_from(state);
    Ok(copy)
}
