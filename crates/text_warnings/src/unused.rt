//! The writing of what is declared and not drawn.

ghost use Rattle.std.specs.Prelude.{◌≡◌, ◌≤◌, ◌∷◌, [], IfOk, length};
ghost use Rattle.io_text.specs.Text.{line_text, lines_text};
ghost use Rattle.io_text.specs.Buffer.{Sends};
ghost use Rattle.text_warnings.specs.Decided.{decided};
ghost use Rattle.text_warnings.specs.Warnings.{row_if_unused, unused_row, unused_rows};

use crate::places::is_unused;
use diagram_declarations::Symbol;
use diagram_program::Program;
use io_text::{Sink, TextBuffer, WriteFault, add_line};
use text_cross_reference::{symbol_at, symbol_count};

/// Adds the warning that nothing is drawn of a name.
fn add_row<W: Sink>(buffer: &mut TextBuffer, name: &[u8], writer: &mut W) -> Result<(), WriteFault>
    ensures { Sends (W.log writer.old) (W.log writer.new) buffer.old buffer.new result (line_text (unused_row name.now)) }
{
    let others = [b"unused".as_slice(), b"0", b"0", b"0", name];
    add_line(buffer, b"warning", others.as_slice(), writer)
}

/// Adds the row of a variable or an instance if nothing of it is drawn, and returns how many rows that makes.
fn add_if_unused<W: Sink>(
    buffer: &mut TextBuffer,
    program: &Program,
    symbol: Symbol,
    writer: &mut W,
) -> Result<u64, WriteFault>
    ensures sends { Sends (W.log writer.old) (W.log writer.new) buffer.old buffer.new result (lines_text (row_if_unused decided program.now symbol)) }
    ensures count { IfOk result (λ n. n ≡ length (row_if_unused decided program.now symbol)) }
    ensures few { IfOk result (λ n. n ≤ 1) }
{
    if !is_unused(program, symbol) {
        return Ok(0);
    }
    add_row(buffer, program.decls().symbol_name(symbol), writer)?;
    Ok(1)
}

/// Adds a row for each variable, and then each instance, that nothing is drawn of, and returns how many.
pub(crate) fn add_unused<W: Sink>(
    buffer: &mut TextBuffer,
    program: &Program,
    writer: &mut W,
) -> Result<u64, WriteFault>
    ensures sends { Sends (W.log writer.old) (W.log writer.new) buffer.old buffer.new result (lines_text (unused_rows decided program.now)) }
    ensures count { IfOk result (λ n. n ≡ length (unused_rows decided program.now)) }
    ensures few { IfOk result (λ n. n ≤ 320) }
{
    let decls = program.decls();
    let mut rows = 0u64;
    for number in 0..symbol_count(decls) {
        let more = add_if_unused(buffer, program, symbol_at(decls, number), writer)?;
        rows += more;
    }
    Ok(rows)
}
