//! The writing of a witness.

ghost use Rattle.std.specs.Prelude.{◌≡◌, ◌≤◌, slice_get};
ghost use Rattle.scan_cycle.specs.Standing.{Fits};
ghost use Rattle.cli_inputs.specs.Reports.{IsReported, unread};
ghost use Rattle.cli_inputs.specs.declared.fault.ToolFault.TheVariants.{Write};
ghost use Rattle.io_text.specs.Log.{Puts};
ghost use Rattle.cli_witnesses.specs.Saving.{BreaksSaving, Saves, file_text};

use crate::judged::Judged;
use crate::stimulus::write_stimulus;
use cli_inputs::{ToolFault, report_unread};
use diff_meaning::Witness;
use io_text::{Sink, WriteFault};
use text_state::write_state;

/// Which file of a witness is meant.
#[derive(Clone, Copy)]
pub enum WitnessFile {
    /// The state of the old program.
    OldState,
    /// The state of the new program.
    NewState,
    /// The stimulus that shows the difference.
    Stimulus,
}

/// Writes a file of a witness.
fn write_file<W: Sink>(
    judged: &Judged,
    witness: &Witness,
    file: WitnessFile,
    writer: &mut W,
) -> Result<(), WriteFault>
    requires of_old { Fits judged.now.old witness.now.old_state }
    requires of_new { Fits judged.now.new witness.now.new_state }
    ensures { Puts (W.log writer.old) (W.log writer.new) result (file_text file judged.now witness.now) }
{
    match file {
        WitnessFile::OldState => write_state(judged.old(), &witness.old_state, writer),
        WitnessFile::NewState => write_state(judged.new(), &witness.new_state, writer),
        WitnessFile::Stimulus => {
            let matching = judged.matching();
            write_stimulus(judged.old(), matching, &witness.old_state, writer)
        }
    }
}

/// Writes a file of the witness of a number, counted from 0: its state of the old program or of the new one, as a simulation saves states, or a
/// stimulus of one scan at the moment at which it shows the difference, which gives the inputs that belong together what the states store. Where
/// there is no such witness nothing is written. Returns the status: 0, or 1 where the writer failed, whose fault is on `err` then.
pub fn save_witness<W: Sink, E: Sink>(
    judged: &Judged,
    number: usize,
    file: WitnessFile,
    writer: &mut W,
    err: &mut E,
) -> u8
    ensures status { result ≤ 1 }
    ensures done { result ≡ 0 → Saves file judged.now (slice_get judged.now.witnesses number) (W.log writer.old) (W.log writer.new) }
    ensures unsaid { result ≡ 0 → E.log err.new ≡ E.log err.old }
    ensures failed { result ≡ 1 → BreaksSaving file judged.now (slice_get judged.now.witnesses number) (W.log writer.old) (W.log writer.new) }
    ensures said { result ≡ 1 → IsReported (unread judged.now.why) (E.log err.old) (E.log err.new) Write }
{
    judged.checked();
    let witnesses = judged.witnesses();
    if witnesses.len() <= number {
        return 0;
    }
    match write_file(judged, &witnesses[number], file, writer) {
        Ok(()) => 0,
        Err(_) => report_unread(judged.why(), &ToolFault::Write, err),
    }
}
