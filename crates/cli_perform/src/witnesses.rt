//! Two programs that are judged, and the files of a folder that get the states that show what differs.

ghost use Rattle.std.specs.Prelude.{◌≤◌};

use crate::difference_folder::DifferenceFolder;
use crate::stream::Standard;
use crate::two_texts::{refuse_text, texts_of};
use crate::warning::warn_of_judged;
use cli_arguments::VerdictRequest;
use cli_diff::{DiffTexts, Manner};
use cli_inputs::ToolFault;
use cli_witnesses::{Judged, WitnessFile, judge_keeping, save_witness};
use io_text::CountedWriter;
use std::alloc::Global;

/// The files of a difference, in the order in which they are written.
const FILES: [WitnessFile; 3] = [
    WitnessFile::OldState,
    WitnessFile::NewState,
    WitnessFile::Stimulus,
];

/// What follows the name of what differs in the name of a file.
fn ending_of(file: WitnessFile) -> &'static str {
    match file {
        WitnessFile::OldState => ".old.csv",
        WitnessFile::NewState => ".new.csv",
        WitnessFile::Stimulus => ".csv",
    }
}

/// The folder that gets the states, and what is judged.
#[derive(Clone, Copy)]
struct Witnesses<'a> {
    folder: DifferenceFolder<'a>,
    request: &'a VerdictRequest,
}

impl Witnesses<'_> {
    /// Saves a file of one difference, by the name of what differs. Returns whether it was.
    fn save_file(&self, judged: &Judged, number: usize, name: &[u8], file: WitnessFile) -> bool {
        match self.folder.file(name, ending_of(file)) {
            Ok(mut made) => {
                let mut err = CountedWriter::new(self.folder.rt.stderr());
                let status = save_witness(judged, number, file, &mut made, &mut err);
                drop(made);
                status == 0
            }
            Err(_) => {
                self.folder.refuse(&ToolFault::Memory);
                false
            }
        }
    }

    /// Saves the files of one difference, up to the first that can't be written. Returns whether all were.
    fn save(&self, judged: &Judged, number: usize) -> bool {
        let Ok(name) = judged.name(self.folder.alloc, number) else {
            self.folder.refuse(&ToolFault::Memory);
            return false;
        };
        let mut are_saved = true;
        for at in 0..FILES.len() {
            are_saved = are_saved && self.save_file(judged, number, &name, FILES[at]);
        }
        drop(name);
        are_saved
    }

    /// Saves the states that show each difference. Returns the largest status.
    fn save_all(&self, judged: &Judged) -> u8
        ensures { result ≤ 1 }
    {
        let mut are_saved = true;
        for number in 0..judged.count() {
            if !self.save(judged, number) {
                are_saved = false;
            }
        }
        if are_saved { 0 } else { 1 }
    }

    /// Judges the programs of these texts, and saves the states that show each difference. Returns the status.
    fn judge(&self, texts: &DiffTexts) -> u8
        ensures { result ≤ 1 }
    {
        let standard = Standard::new(self.folder.rt);
        let mut out = standard.out();
        let mut err = standard.err();
        let judged = judge_keeping(self.folder.alloc, self.request, texts, &mut out, &mut err);
        drop(err);
        drop(out);
        drop(standard);
        match judged {
            Ok(judged) => {
                let status = self.save_all(&judged);
                drop(judged);
                status
            }
            Err(_) => 1,
        }
    }
}

/// Judges two programs, and saves to a folder the states that show each difference. Returns the status, the largest of all: 0 done, 1 a fault,
/// 2 wrong usage.
pub(crate) fn run_witnesses(
    rt: &HostRuntime,
    alloc: Global,
    request: &VerdictRequest,
    folder: &str,
) -> u8
    ensures { result ≤ 2 }
{
    let witnesses = Witnesses {
        folder: DifferenceFolder {
            rt,
            alloc,
            folder,
            old: request.old.as_str(),
            new: request.new.as_str(),
            why: request.why,
        },
        request,
    };
    let manner = Manner {
        why: request.why,
        aliases: request.aliases,
    };
    match texts_of(
        rt,
        alloc,
        manner,
        request.old.as_str(),
        request.new.as_str(),
    ) {
        Ok(texts) => {
            let mut status = witnesses.folder.prepare();
            if status == 0 {
                let (quiet, assumed) = (request.quiet, request.assumed.as_slice());
                status = witnesses.judge(&texts);
                status = warn_of_judged(rt, alloc, status, quiet, assumed, &texts);
            }
            drop(texts);
            status
        }
        Err(fault) => refuse_text(rt, request.why, &fault),
    }
}
