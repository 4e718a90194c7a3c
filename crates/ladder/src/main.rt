//! The program `ladder`.
#![tactic(auto)]

mod version;

use crate::version::BUILT;
use ladder_sim::{CountedWriter, put};
use ladder_tool::{ToolFault, run, write_fault};
use std::env;
use std::io::ErrorKind;
use std::process::ExitCode;

/// Arguments that are not UTF-8 are refused as wrong usage; any other failure is out of memory.
fn fault_of(kind: ErrorKind) -> (ToolFault, u8) {
    match kind {
        ErrorKind::InvalidData => (ToolFault::Usage, 2),
        _ => (ToolFault::Memory, 1),
    }
}

/// Writes the line of a fault before there is a request, and returns the status.
fn report(rt: &HostRuntime, kind: ErrorKind) -> u8 {
    let (fault, status) = fault_of(kind);
    let _ = write_fault(&fault, &mut CountedWriter::new(rt.stderr()));
    status
}

/// Whether the arguments ask for the version alone.
fn asks_version(words: &[String]) -> bool {
    match words {
        [_, word] => word.as_str() == "--version" || word.as_str() == "-V",
        _ => false,
    }
}

/// Runs the program on its arguments; the version is followed by what the program is built of. Returns the status.
fn run_words(rt: &HostRuntime, words: Vec<String>) -> u8 {
    let is_version = asks_version(&words);
    let status = run(rt, rt.alloc(), words);
    if is_version && status == 0 {
        let _ = put(&mut CountedWriter::new(rt.stdout()), BUILT.as_bytes());
    }
    status
}

/// Collects the arguments and runs the program on them.
fn main(rt: HostRuntime) -> ExitCode {
    let args = match env::args(&rt) {
        Ok(args) => args,
        Err(error) => return ExitCode::from(report(&rt, error.kind())),
    };
    let status = match args.collect(rt.alloc()) {
        Ok(words) => run_words(&rt, words),
        Err(_) => report(&rt, ErrorKind::OutOfMemory),
    };
    ExitCode::from(status)
}
