//! What is written of what was found.

ghost use Rattle.std.specs.Prelude.{◌++◌, decimal};
ghost use Rattle.io_text.specs.Log.{Puts};
ghost use Rattle.cli_reach.specs.Telling.{step, step_line};
ghost use Rattle.cli_reach.specs.Finding.{found_line, found_words, states_words, text_of, verdict_text};

use crate::finding::Found;
use diagram_program::Program;
use io_text::{Piece, Sink, WriteFault, put, put_pieces};
use reach_runs::{RunScan, Timing};
use reach_search::Verdict;
use text_runs::{write_brief_run, write_run};

/// Writes a run as a stimulus: a record for each scan, or in a rhythm only where the inputs change.
fn write_text<O: Sink>(
    timing: Timing,
    program: &Program,
    run: &[RunScan],
    out: &mut O,
) -> Result<(), WriteFault>
    ensures { Puts (O.log out.old) (O.log out.new) result (text_of timing program.now run.now) }
{
    match timing {
        Timing::AnyMoments | Timing::Every(0) => write_run(program, run, out),
        Timing::Every(_) => write_brief_run(program, run, out),
    }
}

/// Writes the run that was found; nothing where there is none.
pub(crate) fn write_verdict<O: Sink>(
    timing: Timing,
    program: &Program,
    verdict: &Verdict,
    out: &mut O,
) -> Result<(), WriteFault>
    ensures { Puts (O.log out.old) (O.log out.new) result (verdict_text timing program.now verdict.now) }
{
    match verdict {
        Verdict::Run(run) => write_text(timing, program, run, out),
        Verdict::Never | Verdict::Open => Ok(()),
    }
}

/// Writes words, and a number of scans after them.
fn put_scans<E: Sink>(words: &[u8], scans: u64, err: &mut E) -> Result<(), WriteFault>
    ensures { Puts (E.log err.old) (E.log err.new) result (words.now ++ decimal scans) }
{
    let pieces = [Piece::Text(words), Piece::Number(scans)];
    put_pieces(err, pieces.as_slice())
}

/// Writes the words for what was found.
fn put_words<E: Sink>(found: Found, err: &mut E) -> Result<(), WriteFault>
    ensures { Puts (E.log err.old) (E.log err.new) result (found_words found) }
{
    match found {
        Found::Run(scans) => put_scans(b"run scans ", scans, err),
        Found::Never => put(err, b"none"),
        Found::NotIn(scans) => put_scans(b"none scans ", scans, err),
        Found::Unsettled(scans) => put_scans(b"unsettled scans ", scans, err),
    }
}

/// Writes the number of states and, where something is assumed, that of its expressions, and the end of the line.
fn put_states<E: Sink>(states: u64, assumed: u64, err: &mut E) -> Result<(), WriteFault>
    ensures { Puts (E.log err.old) (E.log err.new) result (states_words states assumed) }
{
    if assumed == 0 {
        let pieces = [
            Piece::Text(b" states "),
            Piece::Number(states),
            Piece::Text(b"\n"),
        ];
        return put_pieces(err, pieces.as_slice());
    }
    let pieces = [
        Piece::Text(b" states "),
        Piece::Number(states),
        Piece::Text(b" assumed "),
        Piece::Number(assumed),
        Piece::Text(b"\n"),
    ];
    put_pieces(err, pieces.as_slice())
}

/// Writes how far a search is: how many states it keeps, and that no run of at most so many scans switches the target on.
pub(crate) fn put_step<E: Sink>(states: u64, scans: u64, err: &mut E) -> Result<(), WriteFault>
    ensures { Puts (E.log err.old) (E.log err.new) result (step_line (step states scans)) }
{
    let pieces = [
        Piece::Text(b"states "),
        Piece::Number(states),
        Piece::Text(b" scans "),
        Piece::Number(scans),
        Piece::Text(b"\n"),
    ];
    put_pieces(err, pieces.as_slice())
}

/// Writes what was found, how many states the search kept, and how many expressions were assumed.
pub(crate) fn put_found<E: Sink>(
    found: Found,
    states: u64,
    assumed: u64,
    err: &mut E,
) -> Result<(), WriteFault>
    ensures { Puts (E.log err.old) (E.log err.new) result (found_line found states assumed) }
{
    put_words(found, err)?;
    put_states(states, assumed, err)
}
