//! The texts of two programs, read from their files.

ghost use Rattle.std.specs.Prelude.{◌≤◌};

use crate::opening::two_readers_of;
use crate::unread::Opening;
use cli_diff::{DiffTexts, Manner, SidedFault, read_texts};
use cli_inputs::report_unread_by;
use io_text::CountedWriter;
use std::alloc::Global;

/// Reads the texts of both programs.
pub(crate) fn texts_of(
    rt: &HostRuntime,
    alloc: Global,
    manner: Manner,
    old: &str,
    new: &str,
) -> Result<DiffTexts, SidedFault> {
    let opening = Opening::new(rt);
    let mut readers = two_readers_of(&opening, old, new);
    let texts = read_texts(alloc, manner, &mut readers);
    drop(readers);
    drop(opening);
    texts
}

/// Writes the line of a fault of reading them. Returns the status.
pub(crate) fn refuse_text(rt: &HostRuntime, why: bool, fault: &SidedFault) -> u8
    ensures { result ≤ 2 }
{
    let mut err = CountedWriter::new(rt.stderr());
    report_unread_by(fault.side, why, &fault.fault, &mut err)
}
