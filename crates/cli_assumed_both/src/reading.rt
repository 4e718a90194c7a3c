//! The reading of what a request of two programs assumes.

ghost use Rattle.std.specs.Prelude.{IfErr, IfOk, option_map};
ghost use Rattle.cli_inputs.specs.Setting.{given_by};
ghost use Rattle.cli_diff.specs.AssumedEnding.{assumes_in};
ghost use Rattle.cli_assumed_both.specs.Together.{HasAssumedFault, IsAssumedWhere, assumption_read};

use crate::together::check_together;
use cli_diff::{Assumes, DiffTexts, ReadAssumed, SidedFault, read_of_both};
use diagram_program::Program;
use std::alloc::Global;

/// Reads what a request assumes of two programs, whose texts these are, and refuses it where it cannot be true in both.
///
/// # Errors
///
/// The first expression that is refused, and of which program; `NeverTrue` where no values of the inputs, the same for inputs of one name, make
/// true what is assumed of both; `Memory`.
pub fn read_what_is_assumed(
    alloc: Global,
    assumes: Assumes<'_>,
    texts: &DiffTexts,
    old: &Program,
    new: &Program,
) -> Result<Option<ReadAssumed>, SidedFault>
    ensures read { IfOk result (λ a. IsAssumedWhere (given_by texts.now.old) (given_by texts.now.new) (assumes_in assumes.entry) old.now new.now (option_map assumption_read a)) }
    ensures fault { IfErr result (λ e. HasAssumedFault e.side (given_by texts.now.old) (given_by texts.now.new) (assumes_in assumes.entry) old.now new.now e.fault) }
{
    if assumes.expressions.is_empty() && !assumes.takes_comments {
        return Ok(None);
    }
    let read = match read_of_both(alloc, assumes, texts, old, new) {
        Ok(read) => read,
        Err(fault) => return Err(fault),
    };
    match check_together(alloc, &read, old, new) {
        Ok(()) => Ok(Some(read)),
        Err(fault) => {
            drop(read);
            Err(SidedFault { side: None, fault })
        }
    }
}
