//! The whole program, from its arguments to its status.

ghost use Rattle.std.specs.Prelude.{◌≤◌};

use crate::advised::perform_advised;
use crate::assuming::perform_assuming;
use crate::files::perform_files;
use crate::folder::{run_coils, texts_of};
use crate::opening::{diff_readers_of, readers_of, two_readers_of};
use crate::refusing::{NEVER, explain_faults, is_explained, refuse_words, report, write_usage};
use crate::runs::run_runs;
use crate::saving::{SavedFile, followed};
use crate::stream::{Standard, Stream};
use crate::telling::{telling, telling_form};
use crate::two_texts::refuse_text;
use crate::unread::Opening;
use crate::warning::{warn_of, warn_of_both, warned_of};
use crate::witnesses::run_witnesses;
use cli_arguments::{
    CommandLine, DiffRequest, Request, SimRequest, Task, VerdictRequest, WordFault, read_words,
};
use cli_diff::{DiffTexts, Manner, compare, compare_files, read_texts as read_diff_texts};
use cli_inputs::{Texts, ToolFault, write_fault};
use cli_options::{codes, page_of};
use cli_verdicts::{judge, judge_files};
use io_text::{CountedWriter, Sink, WriteFault, put};
use std::alloc::{AllocError, Global};
use std::fs::{self, File};
use std::io::{self, IsTerminal};

/// What is said where a state would replace what is read or written beside it.
const TAKEN: &str =
    "usage: --save would replace the program, the stimulus, the expected trace, or the file that standard output goes to\n";

/// Where a simulation saves its last state.
#[derive(Clone, Copy)]
struct Saving<'a> {
    path: &'a str,
    sim: &'a SimRequest,
    /// The file of the trace that is expected, where there is one.
    expected: Option<&'a str>,
}

/// Reads the arguments and the files that they name, and performs the request over the standard streams. Returns
/// the status: 0 done, 1 a fault in a file or while running, 2 wrong usage. The first argument is the program's name.
pub fn run(rt: &HostRuntime, alloc: Global, words: Vec<String>) -> u8
    ensures { result ≤ 2 }
{
    let mut words = words;
    let why = is_explained(rt, &words);
    words.retain(|word| word.as_str() != NEVER);
    match read_words(alloc, words) {
        Ok(task) => {
            let mut task = seen_on(rt, alloc, task);
            if why {
                explain_faults(&mut task);
            }
            let status = run_task(rt, alloc, &mut task);
            drop(task);
            status
        }
        Err(fault) => {
            let status = refuse(rt, why, &fault);
            drop(fault);
            status
        }
    }
}

/// A task: a plain list or a simulation reports how far it is, if that is seen on a terminal and its rows go elsewhere.
fn seen_on(rt: &HostRuntime, alloc: Global, task: Task) -> Task {
    if rt.stdout().is_terminal() || !rt.stderr().is_terminal() {
        return task;
    }
    match task {
        Task::Perform(line) => Task::Perform(told(alloc, line)),
        Task::Compare(mut request) => {
            request.form = telling_form(request.form);
            Task::Compare(request)
        }
        other => other,
    }
}

/// A command line whose list or simulation reports how far it is.
fn told(alloc: Global, line: CommandLine) -> CommandLine {
    let CommandLine {
        request,
        assumed,
        why,
        aliases,
    } = line;
    let request = telling(alloc, request);
    CommandLine {
        request,
        assumed,
        why,
        aliases,
    }
}

/// Performs a task over its files and the standard streams.
fn run_task(rt: &HostRuntime, alloc: Global, task: &mut Task) -> u8
    ensures { result ≤ 2 }
{
    // A stream that is closed at the start must not become one of the files: these take its place, and refuse what is written.
    let places = (no_file(rt), no_file(rt), no_file(rt));
    let status = match task {
        Task::Perform(line) => run_request(rt, alloc, line),
        Task::PerformAll(all) => run_coils(rt, alloc, all),
        Task::Compare(request) => run_diff(rt, alloc, request),
        Task::Judge(request) => match &request.save {
            Some(folder) => run_witnesses(rt, alloc, request, folder.as_str()),
            None => run_verdicts(rt, alloc, request),
        },
        Task::JudgeRuns(request) => run_runs(rt, alloc, request),
        Task::Explain(names) => explain(rt, names),
    };
    drop(places);
    status
}

/// Shows the help that the arguments ask for, or reports why they ask for nothing. Returns the status.
fn refuse(rt: &HostRuntime, why: bool, fault: &WordFault) -> u8
    ensures { result ≤ 2 }
{
    match fault {
        WordFault::Help(text) => show(rt, text.as_str()),
        WordFault::Memory => {
            report(rt, &ToolFault::Memory);
            1
        }
        WordFault::Mistake(text) => refuse_words(rt, why, text.as_str()),
        WordFault::Usage | WordFault::Broken(_) | WordFault::NoCode(_) => {
            report(rt, &ToolFault::Usage);
            if why {
                let _ = write_usage(fault, &mut CountedWriter::new(rt.stderr()));
            }
            2
        }
    }
}

/// Writes the pages of these faults, or the list of all faults where there is none. Returns the status.
fn explain(rt: &HostRuntime, names: &[String]) -> u8
    ensures { result ≤ 1 }
{
    if names.is_empty() {
        return show(rt, codes());
    }
    let standard = Standard::new(rt);
    let mut out = standard.out();
    let written = write_pages(names, &mut out);
    drop(out);
    let status = ended(&standard, written);
    drop(standard);
    status
}

/// Writes the pages of these faults, a blank line between one and the next.
fn write_pages<W: Sink>(names: &[String], writer: &mut W) -> Result<(), WriteFault> {
    let mut is_first = true;
    for name in names {
        if !is_first {
            put(writer, b"\n")?;
        }
        is_first = false;
        let page = page_of(name.as_str()).unwrap_or("");
        put(writer, page.as_bytes())?;
    }
    Ok(())
}

/// Performs the request of a command line over its files and the standard streams.
fn run_line(rt: &HostRuntime, alloc: Global, line: &CommandLine) -> u8
    ensures { result ≤ 2 }
{
    match saving_of(&line.request) {
        Some(saving) => run_saving(rt, alloc, line, saving),
        None => {
            let mut save = CountedWriter::new(Stream::Nothing);
            let status = run_with(rt, alloc, line, &mut save);
            drop(save);
            status
        }
    }
}

/// Performs the request of a command line over its files and the standard streams, with what its program text assumes where that is asked for.
fn run_request(rt: &HostRuntime, alloc: Global, line: &mut CommandLine) -> u8
    ensures { result ≤ 2 }
{
    if line.assumed || !warned_of(&line.request).is_empty() {
        return run_assuming(rt, alloc, line);
    }
    run_line(rt, alloc, line)
}

/// Performs the request of a command line that assumes something over its files and the standard streams.
fn run_assuming(rt: &HostRuntime, alloc: Global, line: &mut CommandLine) -> u8
    ensures { result ≤ 1 }
{
    match texts_of(rt, alloc, line) {
        Ok(texts) => {
            let status = run_on(rt, alloc, line, &texts);
            drop(texts);
            status
        }
        Err(status) => status,
    }
}

/// Performs a request on its texts over the standard streams, with what the comments of the program text assume where that is asked for, and warns
/// of what is always true.
fn run_on(rt: &HostRuntime, alloc: Global, line: &mut CommandLine, texts: &Texts) -> u8
    ensures { result ≤ 1 }
{
    let standard = Standard::new(rt);
    let mut out = standard.out();
    let mut err = standard.err();
    let mut save = CountedWriter::new(Stream::Nothing);
    let request = &mut line.request;
    let status = if line.assumed {
        perform_assuming(alloc, request, texts, &mut out, &mut save, &mut err)
    } else {
        perform_advised(alloc, request, texts, &mut out, &mut save, &mut err)
    };
    let status = warn_of(alloc, status, warned_of(request), texts, &mut err);
    drop(save);
    drop(err);
    drop(out);
    drop(standard);
    status
}

/// Compares two programs over their files and the standard streams.
fn run_diff(rt: &HostRuntime, alloc: Global, request: &DiffRequest) -> u8
    ensures { result ≤ 2 }
{
    if !request.assumed.is_empty() {
        return run_diff_assuming(rt, alloc, request);
    }
    let opening = Opening::new(rt);
    let mut readers = diff_readers_of(&opening, request);
    let standard = Standard::new(rt);
    let mut out = standard.out();
    let mut err = standard.err();
    let status = compare_files(alloc, request, &mut readers, &mut out, &mut err);
    drop(err);
    drop(out);
    drop(standard);
    drop(readers);
    opening.explain(request.why);
    drop(opening);
    status
}

/// Compares two programs with what is assumed, and warns of what is always true.
fn run_diff_assuming(rt: &HostRuntime, alloc: Global, request: &DiffRequest) -> u8
    ensures { result ≤ 2 }
{
    let manner = Manner {
        why: request.why,
        aliases: request.aliases,
    };
    let opening = Opening::new(rt);
    let mut readers = diff_readers_of(&opening, request);
    let read = read_diff_texts(alloc, manner, &mut readers);
    drop(readers);
    let status = match read {
        Ok(texts) => {
            let status = compare_on(rt, alloc, request, &texts);
            drop(texts);
            status
        }
        Err(fault) => refuse_text(rt, request.why, &fault),
    };
    opening.explain(request.why);
    drop(opening);
    status
}

/// Compares the programs of these texts over the standard streams, and warns of what is always true.
fn compare_on(rt: &HostRuntime, alloc: Global, request: &DiffRequest, texts: &DiffTexts) -> u8
    ensures { result ≤ 1 }
{
    let (quiet, assumed) = (request.quiet, request.assumed.as_slice());
    let standard = Standard::new(rt);
    let mut out = standard.out();
    let mut err = standard.err();
    let status = compare(alloc, request, texts, &mut out, &mut err);
    let status = warn_of_both(alloc, status, quiet, assumed, texts, &mut err);
    drop(err);
    drop(out);
    drop(standard);
    status
}

/// Judges two programs over their files and the standard streams.
fn run_verdicts(rt: &HostRuntime, alloc: Global, request: &VerdictRequest) -> u8
    ensures { result ≤ 2 }
{
    if !request.assumed.is_empty() {
        return run_verdicts_assuming(rt, alloc, request);
    }
    let opening = Opening::new(rt);
    let mut readers = two_readers_of(&opening, request.old.as_str(), request.new.as_str());
    let standard = Standard::new(rt);
    let mut out = standard.out();
    let mut err = standard.err();
    let status = judge_files(alloc, request, &mut readers, &mut out, &mut err);
    drop(err);
    drop(out);
    drop(standard);
    drop(readers);
    opening.explain(request.why);
    drop(opening);
    status
}

/// Judges two programs with what is assumed, and warns of what is always true.
fn run_verdicts_assuming(rt: &HostRuntime, alloc: Global, request: &VerdictRequest) -> u8
    ensures { result ≤ 2 }
{
    let manner = Manner {
        why: request.why,
        aliases: request.aliases,
    };
    let opening = Opening::new(rt);
    let mut readers = two_readers_of(&opening, request.old.as_str(), request.new.as_str());
    let read = read_diff_texts(alloc, manner, &mut readers);
    drop(readers);
    let status = match read {
        Ok(texts) => {
            let status = judge_on(rt, alloc, request, &texts);
            drop(texts);
            status
        }
        Err(fault) => refuse_text(rt, request.why, &fault),
    };
    opening.explain(request.why);
    drop(opening);
    status
}

/// Judges the programs of these texts over the standard streams, and warns of what is always true.
fn judge_on(rt: &HostRuntime, alloc: Global, request: &VerdictRequest, texts: &DiffTexts) -> u8
    ensures { result ≤ 1 }
{
    let (quiet, assumed) = (request.quiet, request.assumed.as_slice());
    let standard = Standard::new(rt);
    let mut out = standard.out();
    let mut err = standard.err();
    let status = judge(alloc, request, texts, &mut out, &mut err);
    let status = warn_of_both(alloc, status, quiet, assumed, texts, &mut err);
    drop(err);
    drop(out);
    drop(standard);
    status
}

/// Performs a simulation whose state is saved. A file that the request reads but for the state, or standard output, is no place for it.
fn run_saving(rt: &HostRuntime, alloc: Global, line: &CommandLine, saving: Saving<'_>) -> u8
    ensures { result ≤ 2 }
{
    let Ok(saved) = SavedFile::new(rt, alloc, saving.path) else {
        report(rt, &ToolFault::Memory);
        return 1;
    };
    let status = match is_taken(rt, alloc, saving, &saved) {
        Ok(false) => return run_into(rt, alloc, line, saved),
        Ok(true) => refuse_words(rt, line.why, TAKEN),
        Err(_) => {
            report(rt, &ToolFault::Memory);
            1
        }
    };
    drop(saved);
    status
}

/// Performs a simulation whose state is saved to this file. Returns the status.
fn run_into(rt: &HostRuntime, alloc: Global, line: &CommandLine, saved: SavedFile<'_>) -> u8
    ensures { result ≤ 1 }
{
    let mut save = CountedWriter::new(Stream::Saved(saved));
    let status = run_with(rt, alloc, line, &mut save);
    let saved = save.into_inner();
    let status = end_saving(rt, &saved, status);
    drop(saved);
    status
}

/// Whether a state would be saved over the program, the stimulus, the trace that is expected or what standard output goes to.
fn is_taken(
    rt: &HostRuntime,
    alloc: Global,
    saving: Saving<'_>,
    saved: &SavedFile<'_>,
) -> Result<bool, AllocError> {
    let (file, stimulus) = (saving.sim.file.as_str(), saving.sim.stimulus.as_str());
    let expected = saving.expected.unwrap_or(stimulus);
    for path in [file, stimulus, expected, "/dev/stdout"] {
        if saved.is_same(alloc, followed(rt, alloc, path)?.as_str())? {
            return Ok(true);
        }
    }
    Ok(false)
}

/// Puts a state that was written in its place, or removes it where a fault stopped the request. Returns the status.
fn end_saving(rt: &HostRuntime, saved: &Stream<'_>, status: u8) -> u8
    requires { status ≤ 1 }
    ensures { result ≤ 1 }
{
    let Stream::Saved(saved) = saved else {
        return status;
    };
    if status != 0 {
        saved.discard();
        return status;
    }
    if saved.keep().is_err() {
        saved.discard();
        report(rt, &ToolFault::Write);
        return 1;
    }
    0
}

/// Where a simulation saves its last state, if a request is one that does.
fn saving_of(request: &Request) -> Option<Saving<'_>> {
    match request {
        Request::Sim(sim) => saving_in(sim, None),
        Request::Watch(watched) => saving_in(&watched.sim, None),
        Request::Expect(expect) => saving_in(&expect.watch.sim, Some(expect.expected.as_str())),
        Request::Check { .. }
        | Request::Causes { .. }
        | Request::Progress { .. }
        | Request::Held { .. }
        | Request::Groups { .. }
        | Request::Relevant { .. }
        | Request::Never(_)
        | Request::Reach(_)
        | Request::Possible(_)
        | Request::Show(_)
        | Request::Film(_)
        | Request::Waves(_)
        | Request::Uses { .. }
        | Request::Import(_)
        | Request::Draw { .. }
        | Request::Export(_) => None,
    }
}

/// Where a simulation saves its last state, where it does. The file of the trace that is expected of it is read too.
fn saving_in<'a>(sim: &'a SimRequest, expected: Option<&'a str>) -> Option<Saving<'a>> {
    match &sim.save {
        Some(path) => Some(Saving {
            path: path.as_str(),
            sim,
            expected,
        }),
        None => None,
    }
}

/// A writer for the state that can't be written to, for requests that save none.
fn no_file(rt: &HostRuntime) -> io::Result<File> {
    fs::open(rt, "/dev/null")
}

/// Performs a request on the real files and outputs, a state being saved by the writer `save`.
fn run_with(
    rt: &HostRuntime,
    alloc: Global,
    line: &CommandLine,
    save: &mut CountedWriter<Stream<'_>>,
) -> u8
    ensures { result ≤ 1 }
{
    let opening = Opening::new(rt);
    let mut readers = readers_of(&opening, &line.request);
    let standard = Standard::new(rt);
    let mut out = standard.out();
    let mut err = standard.err();
    let status = perform_files(alloc, line, &mut readers, &mut out, save, &mut err);
    drop(err);
    drop(out);
    drop(standard);
    drop(readers);
    opening.explain(line.why);
    drop(opening);
    status
}

/// Writes a text on standard output. Returns the status.
fn show(rt: &HostRuntime, text: &str) -> u8
    ensures { result ≤ 1 }
{
    let standard = Standard::new(rt);
    let mut out = standard.out();
    let written = put(&mut out, text.as_bytes());
    drop(out);
    let status = ended(&standard, written);
    drop(standard);
    status
}

/// The status where a text was written, or was not.
fn ended(standard: &Standard<'_>, written: Result<(), WriteFault>) -> u8
    ensures { result ≤ 1 }
{
    match written {
        Ok(()) => 0,
        Err(_) => {
            let mut err = standard.err();
            let _ = write_fault(&ToolFault::Write, &mut err);
            drop(err);
            1
        }
    }
}
