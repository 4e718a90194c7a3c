//! The reading of the files of two programs, and the judging of these.

ghost use Rattle.std.specs.Prelude.{◌≡◌, ◌≤◌, ◌⊎◌, option_map};
ghost use Rattle.io_text.specs.Log.{PutsAll, WriteLog};
ghost use Rattle.cli_inputs.specs.Reports.{logs, unread};
ghost use Rattle.cli_inputs.specs.Setting.{Given, given_by};
ghost use Rattle.cli_diff.specs.Ending.{RefusesOf};
ghost use Rattle.cli_diff.specs.Files.{AreBothRead, StopsAtOne, diff_files};
ghost use Rattle.cli_verdicts.specs.Ending.{BreaksVerdicts, CountsVerdicts, HasVerdictFault, IsSaidBy};

use crate::judging::judge;
use cli_arguments::VerdictRequest;
use cli_diff::{DiffReaders, Manner, read_texts};
use cli_inputs::report_unread_by;
use io_text::{Sink, Source};
use std::alloc::Global;

/// Reads the texts of two programs and judges these, as `judge` does. A text that can't be read is a fault, whose line is on `err`.
/// Returns the status: 0 where all was written, 1 where a fault stopped it.
pub fn judge_files<R: Source, O: Sink, E: Sink>(
    alloc: Global,
    request: &VerdictRequest,
    readers: &mut DiffReaders<R>,
    out: &mut O,
    err: &mut E,
) -> u8
    ensures status { result ≤ 1 }
    ensures done { result ≡ 0 → (g h : Given) × IsSaidBy g request.now × IsSaidBy h request.now
        × AreBothRead (diff_files (R.log readers.old.old_program) (R.log readers.old.new_program) (option_map R.log readers.old.old_state) (option_map R.log readers.old.new_state)) g h
        × CountsVerdicts g h request.now (O.log out.old) (O.log out.new) (PutsAll (E.log err.old) (E.log err.new)) }
    ensures failed { (save : WriteLog) → result ≡ 1
        → RefusesOf (unread request.now.why) (unread request.now.why) (StopsAtOne (diff_files (R.log readers.old.old_program) (R.log readers.old.new_program) (option_map R.log readers.old.old_state) (option_map R.log readers.old.new_state))
        (diff_files (R.log readers.new.old_program) (R.log readers.new.new_program) (option_map R.log readers.new.old_state) (option_map R.log readers.new.new_state)))
        (logs (O.log out.old) save (E.log err.old)) (logs (O.log out.new) save (E.log err.new))
        ⊎ ((g h : Given) × IsSaidBy g request.now × IsSaidBy h request.now
        × AreBothRead (diff_files (R.log readers.old.old_program) (R.log readers.old.new_program) (option_map R.log readers.old.old_state) (option_map R.log readers.old.new_state)) g h
        × (RefusesOf g h (HasVerdictFault g h request.now) (logs (O.log out.old) save (E.log err.old)) (logs (O.log out.new) save (E.log err.new))
        ⊎ BreaksVerdicts g h request.now (logs (O.log out.old) save (E.log err.old)) (logs (O.log out.new) save (E.log err.new)))) }
{
    let manner = Manner {
        why: request.why,
        aliases: request.aliases,
    };
    match read_texts(alloc, manner, readers) {
        Ok(texts) => {
            let status = judge(alloc, request, &texts, out, err);
            drop(texts);
            status
        }
        Err(fault) => report_unread_by(fault.side, request.why, &fault.fault, err),
    }
}
