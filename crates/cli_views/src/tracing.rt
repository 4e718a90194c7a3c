//! A request for the trace of a stimulus.

ghost use Rattle.std.specs.Prelude.{◌≡◌, ◌≤◌, ◌⊎◌, [], OnErr, OnOk, true, unwrap_or};
ghost use Rattle.scan_cycle.specs.Standing.{Fits};
ghost use Rattle.text_state.specs.StateText.{state_text};
ghost use Rattle.io_text.specs.Log.{PutsPrefix};
ghost use Rattle.cli_inputs.specs.Reports.{Refuses, logs};
ghost use Rattle.cli_views.specs.Views.{BreaksTrace, IsSaved, IsTraced};
ghost use Rattle.cli_inputs.specs.Setting.{HasSettingFault, given_by};

use cli_inputs::{Texts, ToolFault, read_setting, report};
use diagram_program::Program;
use io_text::{Sink, WriteFault};
use scan_cycle::State;
use std::alloc::Global;
use text_state::write_state;
use text_trace::simulate_every;

/// Writes the state after the last scan, where it is to be saved.
pub(crate) fn save_state<S: Sink>(
    saves: bool,
    program: &Program,
    state: &State,
    save: &mut S,
) -> Result<(), WriteFault>
    requires { Fits program.now state.now }
    ensures saved { OnOk result (IsSaved saves (S.log save.old) (S.log save.new) program.now state.now) }
    ensures asked { OnErr result (saves ≡ true) }
    ensures broken { OnErr result (PutsPrefix (S.log save.old) (S.log save.new) (state_text program.now state.now)) }
{
    if saves {
        return write_state(program, state, save);
    }
    Ok(())
}

/// The bytes of the stimulus; none where there is no text.
pub(crate) fn stimulus(texts: &Texts) -> &[u8]
    ensures { result.now ≡ unwrap_or (given_by texts.now).stimulus [] }
{
    match &texts.stimulus {
        Some(text) => text,
        None => &[],
    }
}

/// Simulates the stimulus from the state of the texts, with scans between its records where a time between two is given, and saves the
/// state after the last scan where that is asked for.
pub fn trace<O: Sink, S: Sink, E: Sink>(
    alloc: Global,
    texts: &Texts,
    every: Option<u64>,
    saves: bool,
    out: &mut O,
    save: &mut S,
    err: &mut E,
) -> u8
    ensures status { result ≤ 1 }
    ensures done { result ≡ 0 → IsTraced (given_by texts.now) every saves (logs (O.log out.old) (S.log save.old) (E.log err.old)) (logs (O.log out.new) (S.log save.new) (E.log err.new)) }
    ensures failed { result ≡ 1
        → Refuses (given_by texts.now) (HasSettingFault (given_by texts.now)) (logs (O.log out.old) (S.log save.old) (E.log err.old)) (logs (O.log out.new) (S.log save.new) (E.log err.new))
        ⊎ BreaksTrace (given_by texts.now) every saves (logs (O.log out.old) (S.log save.old) (E.log err.old)) (logs (O.log out.new) (S.log save.new) (E.log err.new)) }
{
    let mut setting = match read_setting(alloc, texts) {
        Ok(setting) => setting,
        Err(fault) => return report(texts, &fault, err),
    };
    let run = simulate_every(
        alloc,
        &setting.program,
        &mut setting.state,
        stimulus(texts),
        every.unwrap_or(0),
        out,
    );
    if let Err(fault) = run {
        return report(texts, &ToolFault::Sim(fault), err);
    }
    let Ok(()) = save_state(saves, &setting.program, &setting.state, save) else {
        return report(texts, &ToolFault::Write, err);
    };
    0
}
