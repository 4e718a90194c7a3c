//! The writing of what never changes.

ghost use Rattle.std.specs.Prelude.{◌≡◌, ◌*◌, ◌≤◌, IfOk, length};
ghost use Rattle.diagram_program.specs.declared.geometry.TheConstants.{PLACES, RUNGS};
ghost use Rattle.io_text.specs.Text.{lines_text};
ghost use Rattle.io_text.specs.Buffer.{Sends};
ghost use Rattle.io_text.specs.Log.{Puts};
ghost use Rattle.text_lists.specs.SteadyText.{claim_of, claimed_rows, is_claimed, steady_rows, steady_text};

use diagram_declarations::Symbol;
use diagram_program::Program;
use invariant_sets::Set;
use io_text::{Sink, TextBuffer, WriteFault};
use scan_signals::Tri;
use text_cross_reference::{add_header, add_symbol, symbol_at, symbol_count};

/// Whether a claim is that of the value.
fn is_claimed(value: bool, claim: Tri) -> bool
    ensures { result ≡ is_claimed value claim }
{
    match claim {
        Tri::On => value,
        Tri::Off => !value,
        Tri::Unsure => false,
    }
}

/// Whether it is claimed of a name that it stays at the value.
fn stays(set: &Set, symbol: Symbol, value: bool) -> bool
    ensures { result ≡ is_claimed value (claim_of set.now symbol) }
{
    match symbol {
        Symbol::Var(var) => is_claimed(value, set.of_variable(var)),
        Symbol::Instance(inst) => is_claimed(value, set.of_instance(inst)),
    }
}

/// Adds the rows of a name that stays at the value, and returns how many.
fn add_name<W: Sink>(
    buffer: &mut TextBuffer,
    program: &Program,
    set: &Set,
    value: bool,
    symbol: Symbol,
    writer: &mut W,
) -> Result<u64, WriteFault>
    ensures sends { Sends (W.log writer.old) (W.log writer.new) buffer.old buffer.new result (lines_text (claimed_rows program.now set.now value symbol)) }
    ensures count { IfOk result (λ n. n ≡ length (claimed_rows program.now set.now value symbol)) }
    ensures few { IfOk result (λ n. n ≤ PLACES * RUNGS) }
{
    if !stays(set, symbol, value) {
        return Ok(0);
    }
    add_symbol(buffer, program, symbol, writer)
}

/// Adds the rows of all names that stay at the value, and returns how many.
fn add_names<W: Sink>(
    buffer: &mut TextBuffer,
    program: &Program,
    set: &Set,
    value: bool,
    writer: &mut W,
) -> Result<u64, WriteFault>
    ensures sends { Sends (W.log writer.old) (W.log writer.new) buffer.old buffer.new result (lines_text (steady_rows program.now set.now value)) }
    ensures count { IfOk result (λ n. n ≡ length (steady_rows program.now set.now value)) }
{
    let decls = program.decls();
    let mut total = 0u64;
    for number in 0..symbol_count(decls) {
        let rows = add_name(
            buffer,
            program,
            set,
            value,
            symbol_at(decls, number),
            writer,
        )?;
        total += rows;
    }
    Ok(total)
}

/// Adds the header and all rows, and returns how many rows.
fn add_steady<W: Sink>(
    buffer: &mut TextBuffer,
    program: &Program,
    set: &Set,
    value: bool,
    writer: &mut W,
) -> Result<u64, WriteFault>
    ensures sends { Sends (W.log writer.old) (W.log writer.new) buffer.old buffer.new result (steady_text program.now set.now value) }
    ensures count { IfOk result (λ n. n ≡ length (steady_rows program.now set.now value)) }
{
    add_header(buffer, writer)?;
    add_names(buffer, program, set, value, writer)
}

/// Writes what stays at the value by the set: a header, and for each variable and then each instance that does a row for each place where
/// it is drawn, or one row where there is none. Returns the number of rows after the header. It needs no memory.
///
/// # Errors
///
/// X6: the writer failed. What was written is a prefix of the text.
pub fn write_steady<W: Sink>(
    program: &Program,
    set: &Set,
    value: bool,
    writer: &mut W,
) -> Result<u64, WriteFault>
    ensures wrote { Puts (W.log writer.old) (W.log writer.new) result (steady_text program.now set.now value) }
    ensures rows { IfOk result (λ n. n ≡ length (steady_rows program.now set.now value)) }
{
    let mut buffer = TextBuffer::new();
    let rows = add_steady(&mut buffer, program, set, value, writer)?;
    buffer.flush(writer)?;
    Ok(rows)
}
