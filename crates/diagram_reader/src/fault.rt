//! The faults of a text.

use crate::grid_rule::GridRule;
use diagram_declarations::VarFault;
use thiserror::Error;

/// Why a text is no program.
///
/// Rungs and lines are counted from 1. A fault in a gap line names the rung that would follow.
#[derive(Clone, Copy, Debug, PartialEq, Eq, Error)]
pub enum GridFault {
    /// A rule of the declarations, a byte or a comment of the drawing, or out of memory.
    #[error("{0}")]
    Vars(VarFault),
    /// A rule of the drawing.
    #[error("rung {rung}, line {line}: {rule}")]
    Grid {
        rule: GridRule,
        rung: usize,
        line: usize,
    },
}
