//! A request that is made of each coil of a program, over the files of a folder.

ghost use Rattle.std.specs.Prelude.{◌≤◌, IfErr};

use crate::asking::read_coils;
use crate::assuming::assume_comments;
use crate::coil::perform_coil;
use crate::files::read_texts;
use crate::opening::readers_of;
use crate::refusing::refuse_words;
use crate::saving::followed;
use crate::stream::Stream;
use crate::unread::Opening;
use cli_arguments::{AllCoils, CommandLine, GroupFormat, Request, RunsWanted};
use cli_inputs::{Texts, ToolFault, report, report_unread};
use io_text::CountedWriter;
use std::alloc::{AllocError, Global};
use std::{fs, io};

/// What is said where a list would replace a file that is read.
const TAKEN: &str =
    "usage: --all-coils would replace the program or the state; name another folder\n";

/// The form in which a list is written, which gives its file its ending.
fn form_of(request: &Request) -> GroupFormat {
    match request {
        Request::Groups { grouping, .. }
        | Request::Relevant {
            grouping: Some(grouping),
            ..
        } => grouping.form,
        Request::Relevant { grouping: None, .. }
        | Request::Causes { .. }
        | Request::Progress { .. }
        | Request::Held { .. }
        | Request::Possible(_)
        | Request::Check { .. }
        | Request::Never(_)
        | Request::Reach(_)
        | Request::Show(_)
        | Request::Film(_)
        | Request::Sim(_)
        | Request::Watch(_)
        | Request::Expect(_)
        | Request::Waves(_)
        | Request::Uses { .. }
        | Request::Import(_)
        | Request::Draw { .. }
        | Request::Export(_) => GroupFormat::Table,
    }
}

/// How the name of a file ends that has a list in this form.
fn ending(form: GroupFormat) -> &'static str {
    match form {
        GroupFormat::Table => ".csv",
        GroupFormat::Terms => ".txt",
        GroupFormat::Statement => ".st",
    }
}

/// The path of the state that a request reads, where there is one.
fn state_of(request: &Request) -> Option<&str> {
    match request {
        Request::Causes { list, .. }
        | Request::Progress { list, .. }
        | Request::Held { list, .. }
        | Request::Groups { list, .. }
        | Request::Relevant { list, .. } => match &list.state {
            Some(path) => Some(path.as_str()),
            None => None,
        },
        Request::Possible(possible) => match &possible.runs {
            Some(
                RunsWanted {
                    state: Some(path),
                    ..
                },
            ) => Some(path.as_str()),
            Some(_) | None => None,
        },
        Request::Check { .. }
        | Request::Never(_)
        | Request::Reach(_)
        | Request::Show(_)
        | Request::Film(_)
        | Request::Sim(_)
        | Request::Watch(_)
        | Request::Expect(_)
        | Request::Waves(_)
        | Request::Uses { .. }
        | Request::Import(_)
        | Request::Draw { .. }
        | Request::Export(_) => None,
    }
}

/// The path of the program that a list is asked of.
fn program_of(request: &Request) -> &str {
    match request {
        Request::Causes { list, .. }
        | Request::Progress { list, .. }
        | Request::Held { list, .. }
        | Request::Groups { list, .. }
        | Request::Relevant { list, .. } => list.file.as_str(),
        Request::Possible(possible) => possible.file.as_str(),
        Request::Check { .. }
        | Request::Never(_)
        | Request::Reach(_)
        | Request::Show(_)
        | Request::Film(_)
        | Request::Sim(_)
        | Request::Watch(_)
        | Request::Expect(_)
        | Request::Waves(_)
        | Request::Uses { .. }
        | Request::Import(_)
        | Request::Draw { .. }
        | Request::Export(_) => "",
    }
}

/// Makes a folder, unless it is there.
pub(crate) fn make_folder(rt: &HostRuntime, folder: &str) -> io::Result<()> {
    match fs::metadata(rt, folder) {
        Ok(metadata) if metadata.is_dir() => Ok(()),
        Ok(_) | Err(_) => fs::create_dir(rt, folder),
    }
}

/// Where the lists of all coils go, and the texts that they are made from.
#[derive(Drop)]
struct Lists<'a> {
    rt: &'a HostRuntime,
    alloc: Global,
    folder: &'a str,
    texts: &'a Texts,
}

impl Lists<'_> {
    /// The path of the file for the list of a coil, in the folder of this request.
    fn path(&self, coil: &str, form: GroupFormat) -> Result<String, AllocError> {
        let mut path = String::from_str(self.alloc, self.folder)?;
        path.push_str("/")?;
        path.push_str(coil)?;
        path.push_str(ending(form))?;
        Ok(path)
    }

    /// Whether a path is that of this file, once links are followed.
    fn is_file(&self, file: &str, path: &str) -> Result<bool, AllocError> {
        let file = followed(self.rt, self.alloc, file)?;
        Ok(file.as_str() == path)
    }

    /// Whether the list of a coil would replace the file of the program or of the state.
    fn is_taken(&self, request: &Request, coil: &str) -> Result<bool, AllocError> {
        let path = self.path(coil, form_of(request))?;
        let path = followed(self.rt, self.alloc, path.as_str())?;
        if self.is_file(program_of(request), path.as_str())? {
            return Ok(true);
        }
        match state_of(request) {
            Some(state) => self.is_file(state, path.as_str()),
            None => Ok(false),
        }
    }

    /// Whether one of the lists would replace the file of the program or of the state.
    fn are_taken(&self, request: &Request, coils: &[String]) -> Result<bool, AllocError> {
        for coil in coils {
            if self.is_taken(request, coil.as_str())? {
                return Ok(true);
            }
        }
        Ok(false)
    }

    /// Writes the line of a fault. Returns the status 1.
    fn refuse(&self, fault: &ToolFault) -> u8
        ensures { result ≤ 1 }
    {
        report(self.texts, fault, &mut CountedWriter::new(self.rt.stderr()))
    }

    /// Writes the list of one coil into its file. Returns the status.
    fn list(&self, request: &mut Request, coil: String) -> u8
        ensures { result ≤ 1 }
    {
        let path = self.path(coil.as_str(), form_of(request));
        match path {
            Ok(path) => {
                let file = fs::create(self.rt, path.as_str());
                drop(path);
                self.list_into(request, coil, Stream::Made(file))
            }
            Err(_) => {
                drop(coil);
                self.refuse(&ToolFault::Memory)
            }
        }
    }

    /// Writes the list of one coil into this file. Returns the status.
    fn list_into(&self, request: &mut Request, coil: String, file: Stream<'_>) -> u8
        ensures { result ≤ 1 }
    {
        let mut out = CountedWriter::new(file);
        let mut save = CountedWriter::new(Stream::Nothing);
        let mut err = CountedWriter::new(self.rt.stderr());
        let status = perform_coil(
            self.alloc, request, coil, self.texts, &mut out, &mut save, &mut err,
        );
        drop(save);
        drop(out);
        status
    }

    /// Writes the list of each coil into its file, one after the other. Returns the largest status.
    fn list_all(&self, request: &mut Request, coils: Vec<String>) -> u8
        ensures { result ≤ 1 }
    {
        let mut are_made = true;
        for coil in coils {
            if self.list(request, coil) != 0 {
                are_made = false;
            }
        }
        if are_made { 0 } else { 1 }
    }

    /// Makes the folder for the lists of these coils, unless one would replace a file that is read. Returns the status.
    fn prepare(&self, request: &Request, coils: &[String]) -> u8
        ensures { result ≤ 2 }
    {
        match self.are_taken(request, coils) {
            Ok(false) => (),
            Ok(true) => return refuse_words(self.rt, self.texts.why, TAKEN),
            Err(_) => return self.refuse(&ToolFault::Memory),
        }
        if make_folder(self.rt, self.folder).is_err() {
            return self.refuse(&ToolFault::Write);
        }
        0
    }

    /// Writes the lists of these coils, unless one would replace a file that is read. Returns the status.
    fn make(&self, request: &mut Request, coils: Vec<String>) -> u8
        ensures { result ≤ 2 }
    {
        let status = self.prepare(request, &coils);
        if status == 0 {
            return self.list_all(request, coils);
        }
        drop(coils);
        status
    }
}

/// Reads the texts of a request. Where one can't be read, that is said on standard error, and the status is returned.
pub(crate) fn texts_of(rt: &HostRuntime, alloc: Global, line: &CommandLine) -> Result<Texts, u8>
    ensures { IfErr result (λ status. status ≤ 1) }
{
    let opening = Opening::new(rt);
    let mut readers = readers_of(&opening, &line.request);
    let read = read_texts(alloc, line, &mut readers);
    drop(readers);
    match read {
        Ok(texts) => {
            drop(opening);
            Ok(texts)
        }
        Err(fault) => {
            let status = report_unread(line.why, &fault, &mut CountedWriter::new(rt.stderr()));
            drop(fault);
            opening.explain(line.why);
            drop(opening);
            Err(status)
        }
    }
}

/// Assumes in the request what the comments of its program text assume, where that is asked for.
fn assume_asked(alloc: Global, line: &mut CommandLine, texts: &Texts) -> Result<(), ToolFault> {
    if !line.assumed {
        return Ok(());
    }
    match assume_comments(alloc, &mut line.request, texts.program.as_slice()) {
        Ok(()) => Ok(()),
        Err(_) => Err(ToolFault::Memory),
    }
}

/// Reads the names of the coils, of which the request is to be made, with what is assumed.
fn asked_coils(
    alloc: Global,
    line: &mut CommandLine,
    texts: &Texts,
) -> Result<Vec<String>, ToolFault> {
    assume_asked(alloc, line, texts)?;
    read_coils(alloc, &line.request, texts)
}

/// Performs a request of these texts for each coil of its program. Returns the status.
fn list_coils(rt: &HostRuntime, alloc: Global, all: &mut AllCoils, texts: &Texts) -> u8
    ensures { result ≤ 2 }
{
    let lists = Lists {
        rt,
        alloc,
        folder: all.folder.as_str(),
        texts,
    };
    match asked_coils(alloc, &mut all.line, texts) {
        Ok(coils) => lists.make(&mut all.line.request, coils),
        Err(fault) => {
            let status = lists.refuse(&fault);
            drop(fault);
            status
        }
    }
}

/// Performs a request for each coil of its program. Returns the status, the largest of all: 0 done, 1 a fault, 2 wrong usage.
pub(crate) fn run_coils(rt: &HostRuntime, alloc: Global, all: &mut AllCoils) -> u8
    ensures { result ≤ 2 }
{
    match texts_of(rt, alloc, &all.line) {
        Ok(texts) => {
            let status = list_coils(rt, alloc, all, &texts);
            drop(texts);
            status
        }
        Err(status) => status,
    }
}
