//! What is said of words that ask for nothing, and whether faults are explained.

ghost use Rattle.std.specs.Prelude.{◌≡◌};

use cli_arguments::{Task, WordFault};
use cli_inputs::{ToolFault, write_fault};
use cli_usage::write_broken;
use io_text::{CountedWriter, Piece, Sink, WriteFault, put, put_pieces};
use std::io::IsTerminal;

/// The word by which faults aren't explained on a terminal either.
pub(crate) const NEVER: &str = "--why=never";

/// What is said of words that `clap` takes, that break no rule of the tables, and that ask for nothing.
const CLASH: &[u8] =
    b"usage: the words don't go together; `ladder help` with the name of the subcommand says which there are\n";

/// Whether one of the words is this one.
fn has(words: &[String], word: &str) -> bool {
    words.iter().any(|other| other.as_str() == word)
}

/// Whether faults are explained: where the words ask for it, and on a terminal, unless they ask for less. Words that can't be taken don't say what a flag
/// means, so it is looked for among them.
pub(crate) fn is_explained(rt: &HostRuntime, words: &[String]) -> bool {
    if has(words, "--why") {
        return true;
    }
    rt.stderr().is_terminal() && !has(words, NEVER) && !has(words, "--quiet")
}

/// Explains the faults of a task.
pub(crate) fn explain_faults(task: &mut Task) {
    match task {
        Task::Perform(line) => line.why = true,
        Task::PerformAll(all) => all.line.why = true,
        Task::Compare(request) => request.why = true,
        Task::Judge(request) => request.why = true,
        Task::JudgeRuns(request) => request.why = true,
        Task::Explain(_) => (),
    }
}

/// Writes what is wrong with words that `clap` takes: the rule that they break, or the word that is no code.
pub(crate) fn write_usage<W: Sink>(fault: &WordFault, writer: &mut W) -> Result<(), WriteFault> {
    match fault {
        WordFault::Broken(broken) => write_broken(broken, writer),
        WordFault::NoCode(word) => {
            let pieces = [
                Piece::Text(b"usage: there is no fault "),
                Piece::Text(word.as_bytes()),
                Piece::Text(b"; `ladder explain` lists all\n"),
            ];
            put_pieces(writer, pieces.as_slice())
        }
        WordFault::Usage | WordFault::Mistake(_) | WordFault::Help(_) | WordFault::Memory => {
            put(writer, CLASH)
        }
    }
}

/// Writes the line of wrong usage on standard error, and after it, where that is asked for, what is wrong. Returns the status.
pub(crate) fn refuse_words(rt: &HostRuntime, why: bool, text: &str) -> u8
    ensures { result ≡ 2 }
{
    report(rt, &ToolFault::Usage);
    if why {
        let _ = put(&mut CountedWriter::new(rt.stderr()), text.as_bytes());
    }
    2
}

/// Writes the line of a fault on standard error; where that can't be written, nothing is left to do.
pub(crate) fn report(rt: &HostRuntime, fault: &ToolFault) {
    let _ = write_fault(fault, &mut CountedWriter::new(rt.stderr()));
}
