//! A request for the waveform of a stimulus.

ghost use Rattle.std.specs.Prelude.{◌≡◌, ◌≤◌, ◌⊎◌};
ghost use Rattle.io_text.specs.Log.{WriteLog};
ghost use Rattle.cli_inputs.specs.Reports.{Refuses, logs};
ghost use Rattle.cli_views.specs.Views.{BreaksWaves, IsWaved};
ghost use Rattle.cli_inputs.specs.Setting.{HasSettingFault, given_by};

use crate::tracing::stimulus;
use cli_inputs::{Texts, ToolFault, read_setting, report};
use io_text::Sink;
use std::alloc::Global;
use text_trace::write_waves;

/// Simulates the stimulus from the state of the texts, with scans between its records where a time between two is given, and writes what
/// its scans change.
pub fn wave<O: Sink, E: Sink>(
    alloc: Global,
    texts: &Texts,
    every: Option<u64>,
    out: &mut O,
    err: &mut E,
) -> u8
    ensures status { result ≤ 1 }
    ensures done { result ≡ 0 → IsWaved (given_by texts.now) every (O.log out.old) (O.log out.new) × (E.log err.new ≡ E.log err.old) }
    ensures failed { (save : WriteLog) → result ≡ 1
        → Refuses (given_by texts.now) (HasSettingFault (given_by texts.now)) (logs (O.log out.old) save (E.log err.old)) (logs (O.log out.new) save (E.log err.new))
        ⊎ BreaksWaves (given_by texts.now) every (logs (O.log out.old) save (E.log err.old)) (logs (O.log out.new) save (E.log err.new)) }
{
    let mut setting = match read_setting(alloc, texts) {
        Ok(setting) => setting,
        Err(fault) => return report(texts, &fault, err),
    };
    match write_waves(
        alloc,
        &setting.program,
        &mut setting.state,
        stimulus(texts),
        every.unwrap_or(0),
        out,
    ) {
        Ok(_) => 0,
        Err(fault) => report(texts, &ToolFault::Sim(fault), err),
    }
}
