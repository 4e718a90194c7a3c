//! The reading of a request's files, and its performance on them.

ghost use Rattle.std.specs.Prelude.{◌≡◌, ◌≤◌, ◌⊎◌, IfErr, IfOk, option_map};
ghost use Rattle.cli_perform.specs.Files.{AreRead, StopsAt, files};
ghost use Rattle.cli_inputs.specs.Reports.{Refuses, logs, unread};
ghost use Rattle.cli_perform.specs.Advised.{FailsAdvised};
ghost use Rattle.cli_perform.specs.Performs.{IsDone};
ghost use Rattle.cli_inputs.specs.Setting.{Given, given_by};

use crate::advised::perform_advised;
use cli_arguments::CommandLine;
use cli_inputs::{TextKind, Texts, ToolFault, read_named, read_one, report_unread};
use io_text::{Sink, Source};
use std::alloc::Global;

/// The readers of a request's files: of the program, and of the state, the stimulus, an expected trace and a HAL file where the request names
/// them.
#[derive(Drop)]
pub struct Readers<R: Source> {
    pub program: R,
    pub state: Option<R>,
    pub stimulus: Option<R>,
    pub trace: Option<R>,
    pub hal: Option<R>,
}

/// Reads the texts of the request of a command line, up to the first that can't be read: the program, then the state, the stimulus, the
/// expected trace and the HAL file.
pub(crate) fn read_texts<R: Source>(
    alloc: Global,
    line: &CommandLine,
    readers: &mut Readers<R>,
) -> Result<Texts, ToolFault>
    ensures why { IfOk result (λ texts. texts.why ≡ line.now.why) }
    ensures aliases { IfOk result (λ texts. texts.aliases ≡ line.now.aliases) }
    ensures read { IfOk result (λ texts. AreRead (files (R.log readers.old.program) (option_map R.log readers.old.state) (option_map R.log readers.old.stimulus) (option_map R.log readers.old.trace) (option_map R.log readers.old.hal)) (given_by texts)) }
    ensures fault { IfErr result (StopsAt (files (R.log readers.old.program) (option_map R.log readers.old.state) (option_map R.log readers.old.stimulus) (option_map R.log readers.old.trace) (option_map R.log readers.old.hal)) (files (R.log readers.new.program) (option_map R.log readers.new.state) (option_map R.log readers.new.stimulus) (option_map R.log readers.new.trace) (option_map R.log readers.new.hal))) }
{
    let program = read_one(alloc, TextKind::Program, &mut readers.program)?;
    let state = match read_named(alloc, TextKind::State, &mut readers.state) {
        Ok(text) => text,
        Err(fault) => {
            drop(program);
            return Err(fault);
        }
    };
    let stimulus = match read_named(alloc, TextKind::Stimulus, &mut readers.stimulus) {
        Ok(text) => text,
        Err(fault) => {
            drop(state);
            drop(program);
            return Err(fault);
        }
    };
    let trace = match read_named(alloc, TextKind::Trace, &mut readers.trace) {
        Ok(text) => text,
        Err(fault) => {
            drop(stimulus);
            drop(state);
            drop(program);
            return Err(fault);
        }
    };
    let hal = match read_named(alloc, TextKind::Hal, &mut readers.hal) {
        Ok(text) => text,
        Err(fault) => {
            drop(trace);
            drop(stimulus);
            drop(state);
            drop(program);
            return Err(fault);
        }
    };
    Ok(Texts {
        program,
        state,
        stimulus,
        trace,
        hal,
        why: line.why,
        aliases: line.aliases,
    })
}

/// Reads the texts of the request of a command line and performs it on them, as `perform` does. A text that can't be read is a fault, whose line is on `err`.
/// Where a fault is explained, it is said after it which name is meant by one that names nothing.
/// Returns the status: 0 where all was written, 1 where a fault stopped it.
pub fn perform_files<R: Source, O: Sink, S: Sink, E: Sink>(
    alloc: Global,
    line: &CommandLine,
    readers: &mut Readers<R>,
    out: &mut O,
    save: &mut S,
    err: &mut E,
) -> u8
    ensures status { result ≤ 1 }
    ensures done { result ≡ 0 → (g : Given) × (g.why ≡ line.now.why) × (g.aliases ≡ line.now.aliases)
        × AreRead (files (R.log readers.old.program) (option_map R.log readers.old.state) (option_map R.log readers.old.stimulus) (option_map R.log readers.old.trace) (option_map R.log readers.old.hal)) g
        × IsDone line.now.request g (logs (O.log out.old) (S.log save.old) (E.log err.old)) (logs (O.log out.new) (S.log save.new) (E.log err.new)) }
    ensures failed { result ≡ 1 → Refuses (unread line.now.why) (StopsAt (files (R.log readers.old.program) (option_map R.log readers.old.state) (option_map R.log readers.old.stimulus) (option_map R.log readers.old.trace) (option_map R.log readers.old.hal)) (files (R.log readers.new.program) (option_map R.log readers.new.state) (option_map R.log readers.new.stimulus) (option_map R.log readers.new.trace) (option_map R.log readers.new.hal)))
        (logs (O.log out.old) (S.log save.old) (E.log err.old)) (logs (O.log out.new) (S.log save.new) (E.log err.new))
        ⊎ ((g : Given) × (g.why ≡ line.now.why) × (g.aliases ≡ line.now.aliases) × AreRead (files (R.log readers.old.program) (option_map R.log readers.old.state) (option_map R.log readers.old.stimulus) (option_map R.log readers.old.trace) (option_map R.log readers.old.hal)) g
        × FailsAdvised line.now.request g (logs (O.log out.old) (S.log save.old) (E.log err.old)) (logs (O.log out.new) (S.log save.new) (E.log err.new))) }
{
    match read_texts(alloc, line, readers) {
        Ok(texts) => {
            let status = perform_advised(alloc, &line.request, &texts, out, save, err);
            drop(texts);
            status
        }
        Err(fault) => report_unread(line.why, &fault, err),
    }
}
