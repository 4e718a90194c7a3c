//! The file that a state is saved to.

use std::alloc::{AllocError, Global};
use std::fs::{self, File};
use std::io::{self, Write};

/// What a new file's name has after that of the file whose place it takes.
const NEW: &str = ".ladder-new";

/// How many links are followed, one after the other, as the system does it.
const LINKS: u32 = 40;

/// Where the devices are.
const DEVICES: &str = "/dev/";

/// What is written to.
#[derive(Drop)]
enum Target {
    /// A new file of this path, which takes the place of a plain file, or of none.
    Beside(String),
    /// What is no plain file, as a device or a pipe.
    Itself,
    /// A link that leads nowhere, or in a circle: it can't be written, and stays what it is.
    Nowhere,
}

/// A file that a text is saved to. What is written goes to a new file beside it, which takes its place at the end: so whatever stops
/// the program, the file has what it had, or the whole text. What is no plain file, as a device or a pipe, is written itself.
///
/// Nothing is created, or emptied, before the first write.
#[derive(Drop)]
pub(crate) struct SavedFile<'a> {
    rt: &'a HostRuntime,
    path: String,
    target: Target,
    file: Option<File>,
}

/// A path with its links followed: to a file, or to the system's name of a pipe.
pub(crate) fn followed(rt: &HostRuntime, alloc: Global, path: &str) -> Result<String, AllocError> {
    if let Ok(path) = fs::canonicalize(rt, path) {
        return Ok(path.into_string());
    }
    let mut path = String::from_str(alloc, path)?;
    for _ in 0..LINKS {
        let Ok(next) = fs::read_link(rt, path.as_str()) else {
            return Ok(path);
        };
        path = next.into_string();
    }
    Ok(path)
}

/// The path of a new file next to the one that is saved to; it takes the place of the old one once it is whole.
fn beside(alloc: Global, path: &str) -> Result<String, AllocError> {
    let mut beside = String::from_str(alloc, path)?;
    beside.push_str(NEW)?;
    Ok(beside)
}

/// What is written to for a path: a new file beside it, or the pipe or device itself.
fn target_of(rt: &HostRuntime, alloc: Global, path: &str) -> Result<Target, AllocError> {
    match fs::metadata(rt, path) {
        Ok(metadata) if metadata.is_file() => Ok(Target::Beside(beside(alloc, path)?)),
        Ok(_) => Ok(Target::Itself),
        Err(_) if fs::read_link(rt, path).is_ok() => Ok(Target::Nowhere),
        Err(_) => Ok(Target::Beside(beside(alloc, path)?)),
    }
}

impl<'a> SavedFile<'a> {
    /// The file for this path, before anything of it is opened.
    pub(crate) fn new(
        rt: &'a HostRuntime,
        alloc: Global,
        path: &str,
    ) -> Result<SavedFile<'a>, AllocError> {
        let path = match fs::canonicalize(rt, path) {
            Ok(path) => path.into_string(),
            Err(_) => String::from_str(alloc, path)?,
        };
        let target = target_of(rt, alloc, path.as_str())?;
        Ok(SavedFile {
            rt,
            path,
            target,
            file: None,
        })
    }

    /// Whether it is the file or pipe of this path, once links are followed. A device may be written by several.
    pub(crate) fn is_same(&self, alloc: Global, path: &str) -> Result<bool, AllocError> {
        let own = followed(self.rt, alloc, self.path.as_str())?;
        Ok(own.as_str() == path && !path.starts_with(DEVICES))
    }

    /// Opens the file that is written to.
    fn open(&self) -> io::Result<File> {
        match &self.target {
            Target::Beside(beside) => fs::create(self.rt, beside.as_str()),
            Target::Itself => fs::create(self.rt, self.path.as_str()),
            Target::Nowhere => File::create_new(self.rt, self.path.as_str()),
        }
    }

    /// Puts what was written in the place of the file, once it is on the disk.
    pub(crate) fn keep(&self) -> io::Result<()> {
        let (Some(file), Target::Beside(beside)) = (&self.file, &self.target) else {
            return Ok(());
        };
        file.sync_all()?;
        fs::rename(self.rt, beside.as_str(), self.path.as_str())
    }

    /// Removes the new file, which was written in part.
    pub(crate) fn discard(&self) {
        if let (Some(_), Target::Beside(beside)) = (&self.file, &self.target) {
            let _ = fs::remove_file(self.rt, beside.as_str());
        }
    }
}

impl Write for SavedFile<'_> {
    /// Writes to the new file, which the first call makes.
    fn write(&mut self, bytes: &[u8]) -> io::Result<usize> {
        if let Some(file) = &mut self.file {
            return file.write(bytes);
        }
        let mut file = self.open()?;
        let written = file.write(bytes);
        self.file = Some(file);
        written
    }

    /// Flushes the new file, where it was made.
    fn flush(&mut self) -> io::Result<()> {
        match &mut self.file {
            Some(file) => file.flush(),
            None => Ok(()),
        }
    }
}
