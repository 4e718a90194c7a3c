//! A rung that is followed.

ghost use Rattle.std.specs.Prelude.{◌<◌};
ghost use Rattle.diagram_program.specs.declared.geometry.TheConstants.{RUNGS};

use crate::helpers::Helper;
use diagram_program::Program;

/// A rung of a program, and the helpers that its contacts may read.
#[derive(Clone, Copy)]
pub(crate) struct Network<'a> {
    pub program: &'a Program,
    pub rung: usize,
    pub helpers: &'a [Helper<'a>],
    ghost within: { rung < program.now.rungs },
    ghost few: { rung < RUNGS },
}
