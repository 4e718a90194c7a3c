//! A request for a text about a program alone: its check or its cross-reference.

ghost use Rattle.std.specs.Prelude.{◌≡◌, ◌≤◌, ◌⊎◌};
ghost use Rattle.cli_inputs.specs.Setting.{given_by};
ghost use Rattle.io_text.specs.Log.{Puts, PutsAll, PutsPrefix, WriteLog};
ghost use Rattle.cli_inputs.specs.Setting.{HasProgramFault};
ghost use Rattle.cli_views.specs.About.{PrintsAbout, about_text};
ghost use Rattle.cli_inputs.specs.Reports.{Refuses, IsReported, logs};
ghost use Rattle.cli_views.specs.Views.{check_line, check_text};
ghost use Rattle.text_warnings.specs.Told.{Told};

use cli_inputs::{Texts, ToolFault, read_given_program, report};
use diagram_program::Program;
use io_text::{Piece, Sink, WriteFault, put_pieces};
use std::alloc::Global;
use text_cross_reference::write_uses;
use text_warnings::write_warnings;

/// Which text about a program.
#[derive(Clone, Copy)]
pub enum About {
    /// How many rungs, variables and instances it has, and what it is warned of.
    Check { warns: bool },
    /// Where each variable and each instance is drawn.
    Uses,
}

/// Writes the line of a program that has no faults: how many rungs, variables and instances it has.
fn put_counts<O: Sink>(program: &Program, out: &mut O) -> Result<(), WriteFault>
    ensures { Puts (O.log out.old) (O.log out.new) result (check_line program.now) }
{
    let decls = program.decls();
    let pieces = [
        Piece::Text(b"rungs "),
        Piece::Number(program.rungs() as u64),
        Piece::Text(b" variables "),
        Piece::Number(decls.vars().len() as u64),
        Piece::Text(b" instances "),
        Piece::Number(decls.instances().len() as u64),
        Piece::Text(b"\n"),
    ];
    put_pieces(out, pieces.as_slice())
}

/// Writes the answer of `check`: the counts, and the warnings where they are asked for.
fn put_check<O: Sink>(warns: bool, program: &Program, out: &mut O) -> Result<(), WriteFault>
    ensures { (told : Told) → Puts (O.log out.old) (O.log out.new) result (check_text told warns program.now) }
{
    put_counts(program, out)?;
    if warns {
        write_warnings(program, out)?;
    }
    Ok(())
}

/// Writes what is asked of a program alone.
fn put_about<O: Sink>(about: About, program: &Program, out: &mut O) -> Result<(), WriteFault>
    ensures { (told : Told) → Puts (O.log out.old) (O.log out.new) result (about_text told about program.now) }
{
    match about {
        About::Check { warns } => put_check(warns, program, out),
        About::Uses => match write_uses(program, out) {
            Ok(_) => Ok(()),
            Err(fault) => Err(fault),
        },
    }
}

/// Reads the program, and writes the text about it.
pub fn print<O: Sink, E: Sink>(
    alloc: Global,
    about: About,
    texts: &Texts,
    out: &mut O,
    err: &mut E,
) -> u8
    ensures status { result ≤ 1 }
    ensures done { result ≡ 0 → PrintsAbout about (given_by texts.now) (PutsAll (O.log out.old) (O.log out.new)) × (E.log err.new ≡ E.log err.old) }
    ensures failed { (save : WriteLog) → result ≡ 1 → Refuses (given_by texts.now) (HasProgramFault (given_by texts.now)) (logs (O.log out.old) save (E.log err.old)) (logs (O.log out.new) save (E.log err.new))
        ⊎ (PrintsAbout about (given_by texts.now) (PutsPrefix (O.log out.old) (O.log out.new)) × IsReported (given_by texts.now) (E.log err.old) (E.log err.new) ToolFault.Write) }
{
    let program = match read_given_program(alloc, texts) {
        Ok(program) => program,
        Err(fault) => return report(texts, &fault, err),
    };
    let Ok(()) = put_about(about, &program, out) else {
        return report(texts, &ToolFault::Write, err);
    };
    0
}
