//! A request for a trace beside the one that is expected.

ghost use Rattle.std.specs.Prelude.{◌≡◌, ◌≤◌, ◌⊎◌, [], unwrap_or};
ghost use Rattle.cli_inputs.specs.Reports.{Refuses, logs};
ghost use Rattle.scan_cycle.specs.Standing.{Fits};
ghost use Rattle.cli_inputs.specs.Setting.{IsSet, given_by};
ghost use Rattle.cli_views.specs.Expecting.{BreaksExpected, IsExpected, kept_fault, unsaid};
ghost use Rattle.cli_views.specs.Views.{HasWatchFault};

use crate::tracing::save_state;
use crate::watched::watched_columns;
use crate::watching::write_trace;
use cli_arguments::ExpectRequest;
use cli_inputs::{Setting, Texts, ToolFault, read_setting, report};
use io_text::{CountedWriter, Sink};
use std::alloc::Global;
use text_expected::{ExpectFault, write_difference};
use text_trace::{SimFault, WatchFault};

/// The bytes of the trace that is expected; none where there is no text.
fn expected(texts: &Texts) -> &[u8]
    ensures { result.now ≡ unwrap_or (given_by texts.now).trace [] }
{
    match &texts.trace {
        Some(text) => text,
        None => &[],
    }
}

/// The fault of a simulation whose trace is kept in memory: where its writer fails, memory ran out.
fn kept_fault(fault: WatchFault) -> ToolFault
    ensures { result ≡ kept_fault fault }
{
    match fault {
        WatchFault::Sim(SimFault::Write) => ToolFault::Memory,
        WatchFault::Sim(other) => ToolFault::Sim(other),
        WatchFault::Lines => ToolFault::Write,
    }
}

/// The fault of a comparison.
fn unsaid(fault: ExpectFault) -> ToolFault
    ensures { result ≡ unsaid fault }
{
    match fault {
        ExpectFault::Write => ToolFault::Write,
        ExpectFault::Memory => ToolFault::Memory,
    }
}

/// Simulates the stimulus from a state, compares its trace with the one that is expected, and saves the state after the last scan where that
/// is asked for and they are the same.
fn expect_from<O: Sink, S: Sink, E: Sink>(
    alloc: Global,
    request: &ExpectRequest,
    setting: &mut Setting,
    texts: &Texts,
    out: &mut O,
    save: &mut S,
    err: &mut E,
) -> u8
    requires fits { Fits setting.old.program setting.old.state }
    requires set { IsSet (given_by texts.now) setting.old.program setting.old.state }
    ensures status { result ≤ 1 }
    ensures done { result ≡ 0 → IsExpected (given_by texts.now) request.now (logs (O.log out.old) (S.log save.old) (E.log err.old)) (logs (O.log out.new) (S.log save.new) (E.log err.new)) }
    ensures failed { result ≡ 1
        → Refuses (given_by texts.now) (HasWatchFault (given_by texts.now) request.now.watch) (logs (O.log out.old) (S.log save.old) (E.log err.old)) (logs (O.log out.new) (S.log save.new) (E.log err.new))
        ⊎ BreaksExpected (given_by texts.now) request.now (logs (O.log out.old) (S.log save.old) (E.log err.old)) (logs (O.log out.new) (S.log save.new) (E.log err.new)) }
{
    let (watch, decls) = (&request.watch, setting.program.decls());
    let columns = match watched_columns(alloc, decls, watch.all, &watch.names) {
        Ok(columns) => columns,
        Err(fault) => return report(texts, &fault, err),
    };
    let mut kept = CountedWriter::new(Vec::new(alloc));
    let run = write_trace(alloc, watch, &columns, setting, texts, &mut kept, err);
    if let Err(fault) = run {
        return report(texts, &kept_fault(fault), err);
    }
    let trace = kept.into_inner();
    match write_difference(alloc, expected(texts), &trace, out) {
        Ok(true) => (),
        Ok(false) => return 1,
        Err(fault) => return report(texts, &unsaid(fault), err),
    }
    let saves = watch.sim.save.is_some();
    let Ok(()) = save_state(saves, &setting.program, &setting.state, save) else {
        return report(texts, &ToolFault::Write, err);
    };
    0
}

/// Simulates the stimulus as `watch` does, and writes the first record at which its trace differs from the one that is expected, in place of
/// the trace. Returns the status: 0 where none differs, 1 where one does or a fault stopped it.
pub fn expect<O: Sink, S: Sink, E: Sink>(
    alloc: Global,
    request: &ExpectRequest,
    texts: &Texts,
    out: &mut O,
    save: &mut S,
    err: &mut E,
) -> u8
    ensures status { result ≤ 1 }
    ensures done { result ≡ 0 → IsExpected (given_by texts.now) request.now (logs (O.log out.old) (S.log save.old) (E.log err.old)) (logs (O.log out.new) (S.log save.new) (E.log err.new)) }
    ensures failed { result ≡ 1
        → Refuses (given_by texts.now) (HasWatchFault (given_by texts.now) request.now.watch) (logs (O.log out.old) (S.log save.old) (E.log err.old)) (logs (O.log out.new) (S.log save.new) (E.log err.new))
        ⊎ BreaksExpected (given_by texts.now) request.now (logs (O.log out.old) (S.log save.old) (E.log err.old)) (logs (O.log out.new) (S.log save.new) (E.log err.new)) }
{
    match read_setting(alloc, texts) {
        Ok(mut setting) => expect_from(alloc, request, &mut setting, texts, out, save, err),
        Err(fault) => report(texts, &fault, err),
    }
}
