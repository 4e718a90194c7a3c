//! What is known before the first of several scans.

ghost use Rattle.std.specs.Prelude.{◌≡◌};
ghost use Rattle.scan_cycle.specs.Standing.{Fits};
ghost use Rattle.scan_partial.specs.Sizes.{HasSizes};
ghost use Rattle.scan_symbolic.specs.KnownScan.{all_known};

use diagram_program::Program;
use scan_cycle::State;
use scan_partial::{Keep, Knowledge};
use scan_signals::Signal;

/// Becomes what the state stores.
pub(crate) fn begin<S: Signal, B: Keep<S>>(
    program: &Program,
    state: &State,
    known: &mut Knowledge<S, B>,
)
    requires state { Fits program.now state.now }
    requires known { HasSizes program.now known.old }
    ensures known { known.new ≡ all_known S.algebra B.keeping state.now.held }
    ensures sizes { HasSizes program.now known.new }
{
    state.checked();
    known.know(state);
}
