//! A folder that gets files which show what two programs do differently.

ghost use Rattle.std.specs.Prelude.{◌≤◌};

use crate::folder::make_folder;
use crate::refusing::refuse_words;
use crate::saving::followed;
use crate::stream::Stream;
use cli_inputs::{ToolFault, report_unread};
use io_text::CountedWriter;
use std::alloc::{AllocError, Global};
use std::fs;

/// What is said where a file of the folder would replace a program.
const TAKEN: &str =
    "usage: --save would replace OLD or NEW, a .csv file of that folder; name another folder\n";

/// The folder, the files of both programs, and whether a fault is explained.
#[derive(Clone, Copy)]
pub(crate) struct DifferenceFolder<'a> {
    pub rt: &'a HostRuntime,
    pub alloc: Global,
    pub folder: &'a str,
    pub old: &'a str,
    pub new: &'a str,
    pub why: bool,
}

impl<'a> DifferenceFolder<'a> {
    /// Whether this is a file of the folder, with the ending of those that are saved: one of these might replace it.
    fn is_taken(self, path: &str) -> Result<bool, AllocError> {
        let mut folder = followed(self.rt, self.alloc, self.folder)?;
        folder.push_str("/")?;
        let path = followed(self.rt, self.alloc, path)?;
        Ok(path.as_str().starts_with(folder.as_str()) && path.as_str().ends_with(".csv"))
    }

    /// Whether one of the programs is such a file.
    fn are_taken(self) -> Result<bool, AllocError> {
        Ok(self.is_taken(self.old)? || self.is_taken(self.new)?)
    }

    /// Writes the line of a fault. Returns the status 1.
    pub(crate) fn refuse(self, fault: &ToolFault) -> u8
        ensures { result ≤ 1 }
    {
        report_unread(self.why, fault, &mut CountedWriter::new(self.rt.stderr()))
    }

    /// Makes the folder, unless a program could be replaced. Returns the status.
    pub(crate) fn prepare(self) -> u8
        ensures { result ≤ 2 }
    {
        match self.are_taken() {
            Ok(false) => (),
            Ok(true) => return refuse_words(self.rt, self.why, TAKEN),
            Err(_) => return self.refuse(&ToolFault::Memory),
        }
        if make_folder(self.rt, self.folder).is_err() {
            return self.refuse(&ToolFault::Write);
        }
        0
    }

    /// Makes a file of the folder, by the name of what differs and an ending.
    pub(crate) fn file(
        self,
        name: &[u8],
        ending: &str,
    ) -> Result<CountedWriter<Stream<'a>>, AllocError> {
        let name = String::from_utf8_lossy(self.alloc, name)?;
        let mut path = String::from_str(self.alloc, self.folder)?;
        path.push_str("/")?;
        path.push_str(name.as_str())?;
        path.push_str(ending)?;
        let file = fs::create(self.rt, path.as_str());
        Ok(CountedWriter::new(Stream::Made(file)))
    }
}
