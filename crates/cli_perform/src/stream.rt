//! What a request writes to.

ghost use Rattle.std.specs.Prelude.{◌≤◌, IfOk, length};

use crate::saving::SavedFile;
use io_text::CountedWriter;
use std::cell::Cell;
use std::fs::File;
use std::io::{self, ErrorKind, IsTerminal, Write};

/// The standard streams that a request writes to, and whether the reader of standard output has gone.
#[derive(Drop)]
pub(crate) struct Standard<'a> {
    rt: &'a HostRuntime,
    is_gone: Cell<bool>,
}

impl<'a> Standard<'a> {
    /// The standard streams, before anything is written.
    pub(crate) fn new(rt: &'a HostRuntime) -> Standard<'a> {
        Standard {
            rt,
            is_gone: Cell::new(false),
        }
    }

    /// Standard output.
    pub(crate) fn out(&self) -> CountedWriter<Stream<'_>> {
        CountedWriter::new(Stream::Output(self))
    }

    /// Standard error.
    pub(crate) fn err(&self) -> CountedWriter<Stream<'_>> {
        CountedWriter::new(Stream::Faults(self))
    }

    /// Writes to standard output. A pipe that has ended is kept in mind.
    fn write_out(&self, bytes: &[u8]) -> io::Result<usize>
        ensures { IfOk result (λ n. n ≤ length bytes.now) }
    {
        let written = io::writer(self.rt).write(bytes);
        if let Err(error) = &written {
            if error.kind() == ErrorKind::BrokenPipe {
                self.is_gone.set(true);
            }
        }
        written
    }

    /// Writes to standard error. On a terminal nothing is said once the reader of standard output has gone: it was cut short on purpose.
    fn write_err(&self, bytes: &[u8]) -> io::Result<usize>
        ensures { IfOk result (λ n. n ≤ length bytes.now) }
    {
        let mut err = self.rt.stderr();
        if self.is_gone.get() && err.is_terminal() {
            return Ok(bytes.len());
        }
        err.write(bytes)
    }
}

/// What a request writes to: one type for all of it, so that whatever writes is compiled once.
#[derive(Drop)]
pub(crate) enum Stream<'a> {
    /// Standard output.
    Output(&'a Standard<'a>),
    /// Standard error.
    Faults(&'a Standard<'a>),
    /// A file of a folder, made anew and empty. One that couldn't be made is a failed write.
    Made(io::Result<File>),
    /// The file that a state is saved to.
    Saved(SavedFile<'a>),
    /// What is written here is let go.
    Nothing,
}

impl Write for Stream<'_> {
    /// Writes to it; if a file couldn't be made, the error of that is the error of each write.
    fn write(&mut self, bytes: &[u8]) -> io::Result<usize> {
        match self {
            Stream::Output(standard) => standard.write_out(bytes),
            Stream::Faults(standard) => standard.write_err(bytes),
            Stream::Made(Ok(file)) => file.write(bytes),
            Stream::Made(Err(error)) => Err(io::Error::from(error.kind())),
            Stream::Saved(saved) => saved.write(bytes),
            Stream::Nothing => Ok(bytes.len()),
        }
    }

    /// Flushes it; if a file couldn't be made, the error of that is the error of each call.
    fn flush(&mut self) -> io::Result<()> {
        match self {
            Stream::Made(Ok(file)) => file.flush(),
            Stream::Made(Err(error)) => Err(io::Error::from(error.kind())),
            Stream::Saved(saved) => saved.flush(),
            Stream::Output(_) | Stream::Faults(_) | Stream::Nothing => Ok(()),
        }
    }
}
