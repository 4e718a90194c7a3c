//! The requests of the subcommand `sim`.

ghost use Rattle.std.specs.Prelude.{◌≡◌, Bool, List, [], true, false, codes, IfOk, IfErr, map, string_bytes, Option};
ghost use Rattle.clap.specs.Words.{Text, found_of, rows_of};
ghost use Rattle.cli_arguments.specs.Asking.{Asks, AsksNone, HasFlag, HasOption, HasWatched, IsPlainTrace, NamesTrace, NamesWatch};
ghost use Rattle.cli_arguments.specs.Parts.{Plays};
ghost use Rattle.cli_arguments.specs.Faults.{UsageWhere};

use crate::found::{is_given, is_set, number, optional, text, texts};
use crate::parts::{Sources, sources_of};
use crate::request::{ExpectRequest, Request, SimRequest, WatchRequest, WavesRequest, WordFault};
use clap::ArgMatches;
use std::alloc::Global;

/// The request of `sim`: a trace, one with watched columns or of changes, one beside what is expected, or a waveform.
pub(crate) fn sim_request(alloc: Global, found: &ArgMatches<'_>) -> Result<Request, WordFault>
    ensures ok { IfOk result (Asks (codes "sim") (rows_of (found_of found.now))) }
    ensures err { IfErr result (UsageWhere (AsksNone (codes "sim") (rows_of (found_of found.now)))) }
{
    if is_set(found, "vcd") {
        return waves_request(alloc, found);
    }
    if is_given(found, "expect") {
        return expect_request(alloc, found);
    }
    if is_plain(found) {
        return trace_request(alloc, found);
    }
    watch_request(alloc, found)
}

/// Whether columns beside the outputs are asked for.
fn is_watched(found: &ArgMatches<'_>) -> bool
    ensures none { result ≡ false → HasWatched (rows_of (found_of found.now)) false [] }
    ensures some { result ≡ true → HasWatched (rows_of (found_of found.now)) false [] → ⊥ }
{
    is_set(found, "watch-all") || is_given(found, "watch")
}

/// Whether a trace has no columns beside the outputs, and all its rows, and no lines that tell how far it is.
fn is_plain(found: &ArgMatches<'_>) -> bool
    ensures plain { result ≡ true → IsPlainTrace (rows_of (found_of found.now)) }
    ensures other { result ≡ false → IsPlainTrace (rows_of (found_of found.now)) → ⊥ }
{
    !is_watched(found) && !is_set(found, "changes") && !is_set(found, "progress")
}

/// The request for the waveform of a stimulus.
fn waves_request(alloc: Global, found: &ArgMatches<'_>) -> Result<Request, WordFault>
    requires { HasFlag (codes "vcd") (rows_of (found_of found.now)) }
    ensures ok { IfOk result (Asks (codes "sim") (rows_of (found_of found.now))) }
    ensures err { IfErr result (UsageWhere (AsksNone (codes "sim") (rows_of (found_of found.now)))) }
{
    // A state is saved beside a trace.
    if is_given(found, "save") {
        return Err(WordFault::Usage);
    }
    // What is expected is a trace.
    if is_given(found, "expect") {
        return Err(WordFault::Usage);
    }
    // A waveform has all that can be watched, and only changes.
    if !is_plain(found) {
        return Err(WordFault::Usage);
    }
    let pause = number(found, "every")?;
    let Played {
        state,
        file,
        stimulus,
    } = played_of(alloc, found)?;
    Ok(Request::Waves(WavesRequest {
        state,
        every: pause,
        file,
        stimulus,
    }))
}

/// What is asked of a stimulus: the state in which the first scan begins, the program text and the stimulus itself.
#[derive(Drop)]
pub(crate) struct Played {
    pub state: Option<String>,
    pub file: String,
    pub stimulus: String,
}

/// The files of a simulation: program, state and stimulus.
pub(crate) fn played_of(alloc: Global, found: &ArgMatches<'_>) -> Result<Played, WordFault>
    ensures ok { IfOk result (Plays (rows_of (found_of found.now))) }
    ensures err { IfErr result (UsageWhere ((w : Played) → Plays (rows_of (found_of found.now)) w → ⊥)) }
{
    let stimulus = text(alloc, found, "stimulus")?;
    let Sources { state, file } = sources_of(alloc, found)?;
    Ok(Played {
        state,
        file,
        stimulus,
    })
}

/// The request for the trace of a stimulus with its outputs alone.
fn trace_request(alloc: Global, found: &ArgMatches<'_>) -> Result<Request, WordFault>
    requires vcd { HasFlag (codes "vcd") (rows_of (found_of found.now)) → ⊥ }
    requires expect { HasOption (codes "expect") (rows_of (found_of found.now)) None }
    requires plain { IsPlainTrace (rows_of (found_of found.now)) }
    ensures ok { IfOk result (Asks (codes "sim") (rows_of (found_of found.now))) }
    ensures err { IfErr result (UsageWhere (AsksNone (codes "sim") (rows_of (found_of found.now)))) }
{
    match traced_of(alloc, found) {
        Ok(sim) => Ok(Request::Sim(sim)),
        Err(fault) => Err(fault),
    }
}

/// The request for the trace of a stimulus with watched columns, of changes, or with lines that tell how far it is.
fn watch_request(alloc: Global, found: &ArgMatches<'_>) -> Result<Request, WordFault>
    requires vcd { HasFlag (codes "vcd") (rows_of (found_of found.now)) → ⊥ }
    requires expect { HasOption (codes "expect") (rows_of (found_of found.now)) None }
    requires other { IsPlainTrace (rows_of (found_of found.now)) → ⊥ }
    ensures ok { IfOk result (Asks (codes "sim") (rows_of (found_of found.now))) }
    ensures err { IfErr result (UsageWhere (AsksNone (codes "sim") (rows_of (found_of found.now)))) }
{
    match watch_of(alloc, found) {
        Ok(watch) => Ok(Request::Watch(watch)),
        Err(fault) => Err(fault),
    }
}

/// The request for where the trace of a stimulus differs from the one that is expected.
fn expect_request(alloc: Global, found: &ArgMatches<'_>) -> Result<Request, WordFault>
    requires vcd { HasFlag (codes "vcd") (rows_of (found_of found.now)) → ⊥ }
    requires expect { HasOption (codes "expect") (rows_of (found_of found.now)) None → ⊥ }
    ensures ok { IfOk result (Asks (codes "sim") (rows_of (found_of found.now))) }
    ensures err { IfErr result (UsageWhere (AsksNone (codes "sim") (rows_of (found_of found.now)))) }
{
    let expected = text(alloc, found, "expect")?;
    match watch_of(alloc, found) {
        Ok(watch) => Ok(Request::Expect(ExpectRequest { watch, expected })),
        Err(fault) => Err(fault),
    }
}

/// A trace with what is watched, which of its rows are written, and whether lines tell how far it is.
fn watch_of(alloc: Global, found: &ArgMatches<'_>) -> Result<WatchRequest, WordFault>
    ensures ok { IfOk result (NamesWatch (rows_of (found_of found.now))) }
    ensures err { IfErr result (UsageWhere ((r : WatchRequest) → NamesWatch (rows_of (found_of found.now)) r → ⊥)) }
{
    let WatchedNames { all, names } = watched_of(alloc, found)?;
    let sim = traced_of(alloc, found)?;
    Ok(WatchRequest {
        sim,
        all,
        names,
        changes: is_set(found, "changes"),
        progress: is_set(found, "progress"),
    })
}

/// What is watched: all, or what has these names.
#[derive(Drop)]
struct WatchedNames {
    all: bool,
    names: Vec<String>,
}

/// What is watched: by names, or all by a flag, but not both.
fn watched_of(alloc: Global, found: &ArgMatches<'_>) -> Result<WatchedNames, WordFault>
    ensures ok { IfOk result (λ w. HasWatched (rows_of (found_of found.now)) w.all (map string_bytes w.names.items)) }
    ensures err { IfErr result (UsageWhere ((all : Bool) (names : List Text) → HasWatched (rows_of (found_of found.now)) all names → ⊥)) }
{
    let all = is_set(found, "watch-all");
    let names = texts(alloc, found, "watch")?;
    if all && !names.is_empty() {
        return Err(WordFault::Usage);
    }
    Ok(WatchedNames { all, names })
}

/// What every trace is made of: its files, the time between scans, and where the last state is saved.
fn traced_of(alloc: Global, found: &ArgMatches<'_>) -> Result<SimRequest, WordFault>
    ensures ok { IfOk result (NamesTrace (rows_of (found_of found.now))) }
    ensures err { IfErr result (UsageWhere ((r : SimRequest) → NamesTrace (rows_of (found_of found.now)) r → ⊥)) }
{
    let pause = number(found, "every")?;
    let save = optional(alloc, found, "save")?;
    let Played {
        state,
        file,
        stimulus,
    } = played_of(alloc, found)?;
    Ok(SimRequest {
        state,
        save,
        every: pause,
        file,
        stimulus,
    })
}
