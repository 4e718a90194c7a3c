//! The files that a request reads.

ghost use Rattle.std.specs.Prelude.{IfOk};
ghost use Rattle.std.specs.Counts.{IsPrefixLen};

use crate::files::Readers;
use crate::unread::Opening;
use cli_arguments::{DiffRequest, ExpectRequest, Request, SimRequest};
use cli_diff::DiffReaders;
use io_text::CountedReader;
use std::fs::{self, File};
use std::io::{self, Read};

/// What is read in place of a file named `-`.
const STANDARD_INPUT: &str = "/dev/stdin";

/// A file that is opened at the first read of it. One that doesn't open is a failed read.
#[derive(Drop)]
pub(crate) struct NamedFile<'a, 'p> {
    opening: &'a Opening<'p>,
    path: &'p str,
    file: Option<File>,
}

impl NamedFile<'_, '_> {
    /// Opens the file and reads from it; `-` is the standard input.
    fn open(&mut self, bytes: &mut [u8]) -> io::Result<usize>
        ensures { IfOk result (λ n. IsPrefixLen n bytes.new) }
    {
        let path = if self.path == "-" {
            STANDARD_INPUT
        } else {
            self.path
        };
        let mut file = fs::open(self.opening.rt, path)?;
        let count = file.read(bytes);
        self.file = Some(file);
        count
    }
}

impl Read for NamedFile<'_, '_> {
    /// Reads from the file, which the first call opens. Why a call fails is kept.
    fn read(&mut self, bytes: &mut [u8]) -> io::Result<usize> {
        let count = match &mut self.file {
            Some(file) => file.read(bytes),
            None => self.open(bytes),
        };
        if let Err(error) = &count {
            self.opening.fail(self.path, error);
        }
        count
    }
}

/// A reader that opens the file of a path when it is first asked.
fn reading<'a, 'p>(opening: &'a Opening<'p>, path: &'p str) -> CountedReader<NamedFile<'a, 'p>> {
    CountedReader::new(NamedFile {
        opening,
        path,
        file: None,
    })
}

/// The reader of an option's file, where the option was given.
fn reading_named<'a, 'p>(
    opening: &'a Opening<'p>,
    path: &'p Option<String>,
) -> Option<CountedReader<NamedFile<'a, 'p>>> {
    match path {
        Some(path) => Some(reading(opening, path.as_str())),
        None => None,
    }
}

/// The readers of a request that reads a program text alone.
fn alone<'a, 'p>(
    opening: &'a Opening<'p>,
    program: &'p str,
) -> Readers<CountedReader<NamedFile<'a, 'p>>> {
    Readers {
        program: reading(opening, program),
        state: None,
        stimulus: None,
        trace: None,
        hal: None,
    }
}

/// The readers of a request that reads a program text, and a state if one is named.
fn from_state<'a, 'p>(
    opening: &'a Opening<'p>,
    program: &'p str,
    state: &'p Option<String>,
) -> Readers<CountedReader<NamedFile<'a, 'p>>> {
    Readers {
        program: reading(opening, program),
        state: reading_named(opening, state),
        stimulus: None,
        trace: None,
        hal: None,
    }
}

/// The readers of a simulation: a program text, a state if one is named, and a stimulus.
fn simulated<'a, 'p>(
    opening: &'a Opening<'p>,
    program: &'p str,
    state: &'p Option<String>,
    stimulus: &'p str,
) -> Readers<CountedReader<NamedFile<'a, 'p>>> {
    Readers {
        program: reading(opening, program),
        state: reading_named(opening, state),
        stimulus: Some(reading(opening, stimulus)),
        trace: None,
        hal: None,
    }
}

/// The readers of the simulation of a trace.
fn traced<'a, 'p>(
    opening: &'a Opening<'p>,
    sim: &'p SimRequest,
) -> Readers<CountedReader<NamedFile<'a, 'p>>> {
    simulated(
        opening,
        sim.file.as_str(),
        &sim.state,
        sim.stimulus.as_str(),
    )
}

/// The readers of a simulation, and of the trace that is expected of it.
fn expected<'a, 'p>(
    opening: &'a Opening<'p>,
    request: &'p ExpectRequest,
) -> Readers<CountedReader<NamedFile<'a, 'p>>> {
    let Readers {
        program,
        state,
        stimulus,
        ..
    } = traced(opening, &request.watch.sim);
    Readers {
        program,
        state,
        stimulus,
        trace: Some(reading(opening, request.expected.as_str())),
        hal: None,
    }
}

/// The readers of an import: a project, and a HAL file if one is named.
fn imported<'a, 'p>(
    opening: &'a Opening<'p>,
    project: &'p str,
    hal: &'p Option<String>,
) -> Readers<CountedReader<NamedFile<'a, 'p>>> {
    Readers {
        program: reading(opening, project),
        state: None,
        stimulus: None,
        trace: None,
        hal: reading_named(opening, hal),
    }
}

/// The readers of the files that a request names, none of which was opened yet.
pub(crate) fn readers_of<'a, 'p>(
    opening: &'a Opening<'p>,
    request: &'p Request,
) -> Readers<CountedReader<NamedFile<'a, 'p>>> {
    match request {
        Request::Check { file, .. } | Request::Uses { file } | Request::Draw { file } => {
            alone(opening, file.as_str())
        }
        Request::Export(export) => alone(opening, export.file.as_str()),
        Request::Import(import) => imported(opening, import.file.as_str(), &import.hal),
        Request::Causes { list, .. }
        | Request::Progress { list, .. }
        | Request::Held { list, .. }
        | Request::Groups { list, .. }
        | Request::Relevant { list, .. } => from_state(opening, list.file.as_str(), &list.state),
        Request::Possible(possible) => match &possible.runs {
            Some(runs) => from_state(opening, possible.file.as_str(), &runs.state),
            None => alone(opening, possible.file.as_str()),
        },
        Request::Never(never) => from_state(opening, never.file.as_str(), &never.state),
        Request::Reach(reach) => from_state(opening, reach.file.as_str(), &reach.state),
        Request::Show(show) => from_state(opening, show.file.as_str(), &show.state),
        Request::Film(film) => {
            let stimulus = film.stimulus.as_str();
            simulated(opening, film.file.as_str(), &film.state, stimulus)
        }
        Request::Waves(waves) => {
            let stimulus = waves.stimulus.as_str();
            simulated(opening, waves.file.as_str(), &waves.state, stimulus)
        }
        Request::Sim(sim) => traced(opening, sim),
        Request::Watch(watched) => traced(opening, &watched.sim),
        Request::Expect(request) => expected(opening, request),
    }
}

/// The readers of the files of a comparison, none of which was opened yet.
pub(crate) fn diff_readers_of<'a, 'p>(
    opening: &'a Opening<'p>,
    request: &'p DiffRequest,
) -> DiffReaders<CountedReader<NamedFile<'a, 'p>>> {
    DiffReaders {
        old_program: reading(opening, request.old.as_str()),
        new_program: reading(opening, request.new.as_str()),
        old_state: reading_named(opening, &request.state),
        new_state: reading_named(opening, &request.new_state),
    }
}

/// The readers of the files of two programs, none of which was opened yet.
pub(crate) fn two_readers_of<'a, 'p>(
    opening: &'a Opening<'p>,
    old: &'p str,
    new: &'p str,
) -> DiffReaders<CountedReader<NamedFile<'a, 'p>>> {
    DiffReaders {
        old_program: reading(opening, old),
        new_program: reading(opening, new),
        old_state: None,
        new_state: None,
    }
}
