//! A request for the trace of a stimulus with what is watched beside its outputs, or of changes.

ghost use Rattle.std.specs.Prelude.{◌≡◌, ◌≤◌, ◌⊎◌, false, unwrap_or};
ghost use Rattle.cli_inputs.specs.Reports.{Refuses, logs};
ghost use Rattle.scan_cycle.specs.Standing.{Fits};
ghost use Rattle.text_trace.specs.Reached.{WatchesTold};
ghost use Rattle.cli_inputs.specs.Setting.{IsSet, given_by, stimulus_records};
ghost use Rattle.cli_views.specs.Views.{BreaksWatch, HasWatchFault, IsWatched, watch_fault};

use crate::tracing::{save_state, stimulus};
use crate::watched::watched_columns;
use cli_arguments::WatchRequest;
use cli_inputs::{Setting, Texts, ToolFault, read_setting, report};
use io_text::Sink;
use std::alloc::Global;
use text_trace::{Column, WatchFault, Watched, watch as watch_scans};

/// Simulates the stimulus, and writes the trace with these columns beside the outputs, and how far it is where that is asked for.
pub(crate) fn write_trace<O: Sink, E: Sink>(
    alloc: Global,
    request: &WatchRequest,
    columns: &[Column],
    setting: &mut Setting,
    texts: &Texts,
    out: &mut O,
    err: &mut E,
) -> Result<u64, WatchFault>
    requires { Fits setting.old.program setting.old.state }
    ensures fits { Fits setting.new.program setting.new.state }
    ensures program { setting.new.program ≡ setting.old.program }
    ensures trace { WatchesTold request.now.progress request.now.changes columns.now (unwrap_or request.now.sim.every 0) setting.old.program setting.old.state (stimulus_records (given_by texts.now)) setting.new.state (O.log out.old) (O.log out.new) (E.log err.old) (E.log err.new) result }
    ensures untold { request.now.progress ≡ false → E.log err.new ≡ E.log err.old }
{
    let watched = Watched {
        columns,
        changes: request.changes,
        every: request.sim.every.unwrap_or(0),
        tells: request.progress,
    };
    let (program, state) = (&setting.program, &mut setting.state);
    watch_scans(alloc, program, watched, state, stimulus(texts), out, err)
}

/// The fault of a simulation, or of the writer of its lines.
fn fault_of(fault: WatchFault) -> ToolFault
    ensures { result ≡ watch_fault fault }
{
    match fault {
        WatchFault::Sim(fault) => ToolFault::Sim(fault),
        WatchFault::Lines => ToolFault::Write,
    }
}

/// Simulates the stimulus from a state, and saves the one after the last scan where that is asked for.
fn watch_from<O: Sink, S: Sink, E: Sink>(
    alloc: Global,
    request: &WatchRequest,
    setting: &mut Setting,
    texts: &Texts,
    out: &mut O,
    save: &mut S,
    err: &mut E,
) -> u8
    requires fits { Fits setting.old.program setting.old.state }
    requires set { IsSet (given_by texts.now) setting.old.program setting.old.state }
    ensures status { result ≤ 1 }
    ensures done { result ≡ 0 → IsWatched (given_by texts.now) request.now (logs (O.log out.old) (S.log save.old) (E.log err.old)) (logs (O.log out.new) (S.log save.new) (E.log err.new)) }
    ensures failed { result ≡ 1
        → Refuses (given_by texts.now) (HasWatchFault (given_by texts.now) request.now) (logs (O.log out.old) (S.log save.old) (E.log err.old)) (logs (O.log out.new) (S.log save.new) (E.log err.new))
        ⊎ BreaksWatch (given_by texts.now) request.now (logs (O.log out.old) (S.log save.old) (E.log err.old)) (logs (O.log out.new) (S.log save.new) (E.log err.new)) }
{
    let decls = setting.program.decls();
    let columns = match watched_columns(alloc, decls, request.all, &request.names) {
        Ok(columns) => columns,
        Err(fault) => return report(texts, &fault, err),
    };
    let run = write_trace(alloc, request, &columns, setting, texts, out, err);
    if let Err(fault) = run {
        return report(texts, &fault_of(fault), err);
    }
    let saves = request.sim.save.is_some();
    let Ok(()) = save_state(saves, &setting.program, &setting.state, save) else {
        return report(texts, &ToolFault::Write, err);
    };
    0
}

/// Simulates the stimulus as `trace` does, and writes what is watched beside the outputs. A name that isn't declared is a fault before
/// anything is written.
pub fn watch<O: Sink, S: Sink, E: Sink>(
    alloc: Global,
    request: &WatchRequest,
    texts: &Texts,
    out: &mut O,
    save: &mut S,
    err: &mut E,
) -> u8
    ensures status { result ≤ 1 }
    ensures done { result ≡ 0 → IsWatched (given_by texts.now) request.now (logs (O.log out.old) (S.log save.old) (E.log err.old)) (logs (O.log out.new) (S.log save.new) (E.log err.new)) }
    ensures failed { result ≡ 1
        → Refuses (given_by texts.now) (HasWatchFault (given_by texts.now) request.now) (logs (O.log out.old) (S.log save.old) (E.log err.old)) (logs (O.log out.new) (S.log save.new) (E.log err.new))
        ⊎ BreaksWatch (given_by texts.now) request.now (logs (O.log out.old) (S.log save.old) (E.log err.old)) (logs (O.log out.new) (S.log save.new) (E.log err.new)) }
{
    match read_setting(alloc, texts) {
        Ok(mut setting) => watch_from(alloc, request, &mut setting, texts, out, save, err),
        Err(fault) => report(texts, &fault, err),
    }
}
