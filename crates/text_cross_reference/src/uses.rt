//! The writing of a cross-reference.

ghost use Rattle.std.specs.Prelude.{◌≡◌, ◌*◌, ◌+◌, ◌<◌, ◌≤◌, ◌∷◌, [], IfOk, Some, codes, length, slice_get};
ghost use Rattle.diagram_declarations.specs.declared.limits.TheConstants.{MOST_INSTANCES, MOST_VARS};
ghost use Rattle.diagram_program.specs.declared.geometry.TheConstants.{PLACES, RUNGS};
ghost use Rattle.io_text.specs.Text.{line_text, lines_text};
ghost use Rattle.io_text.specs.Buffer.{Sends};
ghost use Rattle.io_text.specs.Log.{Puts};
ghost use Rattle.text_cross_reference.specs.Uses.{place_rows, symbol_rows, symbols_of, use_row, use_rows, uses_text};

use crate::usage::{Use, use_at, use_word};
use diagram_declarations::{Decls, Symbol};
use diagram_program::Program;
use diagram_program::geometry::{PLACES, ROWS};
use io_text::{Sink, TextBuffer, WriteFault, add_line};
use itoa::Buffer;

/// Adds the header of the cross-reference: the names of its columns.
///
/// # Errors
///
/// `WriteFault` where the writer fails.
pub fn add_header<W: Sink>(buffer: &mut TextBuffer, writer: &mut W) -> Result<(), WriteFault>
    ensures { Sends (W.log writer.old) (W.log writer.new) buffer.old buffer.new result (line_text (codes "name" ∷ codes "use" ∷ codes "rung" ∷ codes "row" ∷ codes "column" ∷ [])) }
{
    let others = [b"use".as_slice(), b"rung", b"row", b"column"];
    add_line(buffer, b"name", others.as_slice(), writer)
}

/// Adds a record of the cross-reference: name, use, rung, row and column.
fn row_line<W: Sink>(
    buffer: &mut TextBuffer,
    name: &[u8],
    word: &[u8],
    rung: &[u8],
    row: &[u8],
    column: &[u8],
    writer: &mut W,
) -> Result<(), WriteFault>
    ensures { Sends (W.log writer.old) (W.log writer.new) buffer.old buffer.new result (line_text (name.now ∷ word.now ∷ rung.now ∷ row.now ∷ column.now ∷ [])) }
{
    add_line(buffer, name, [word, rung, row, column].as_slice(), writer)
}

/// Adds the row of one place where a variable or instance is drawn.
fn add_row<W: Sink>(
    buffer: &mut TextBuffer,
    name: &[u8],
    used: Use,
    place: usize,
    writer: &mut W,
) -> Result<(), WriteFault>
    requires { place < PLACES * RUNGS }
    ensures { Sends (W.log writer.old) (W.log writer.new) buffer.old buffer.new result (line_text (use_row name.now used place)) }
{
    let (mut first, mut second, mut third) = (Buffer::new(), Buffer::new(), Buffer::new());
    let rung = first.format(place / PLACES + 1).as_bytes();
    let row = second.format(place % PLACES % ROWS + 1).as_bytes();
    let column = third.format(place % PLACES / ROWS + 1).as_bytes();
    row_line(buffer, name, use_word(used), rung, row, column, writer)
}

/// Adds a row for each place where the symbol is drawn, and returns how many.
fn add_places<W: Sink>(
    buffer: &mut TextBuffer,
    program: &Program,
    name: &[u8],
    symbol: Symbol,
    writer: &mut W,
) -> Result<u64, WriteFault>
    ensures sends { Sends (W.log writer.old) (W.log writer.new) buffer.old buffer.new result (lines_text (place_rows program.now name.now symbol)) }
    ensures count { IfOk result (λ n. n ≡ length (place_rows program.now name.now symbol)) }
    ensures few { IfOk result (λ n. n ≤ PLACES * RUNGS) }
{
    let mut rows = 0u64;
    for place in 0..PLACES * program.rungs() {
        let Some(used) = use_at(program, symbol, place) else {
            continue;
        };
        add_row(buffer, name, used, place, writer)?;
        rows += 1;
    }
    Ok(rows)
}

/// Adds the rows of a symbol, one at least, and returns how many.
///
/// # Errors
///
/// `WriteFault` where the writer fails.
pub fn add_symbol<W: Sink>(
    buffer: &mut TextBuffer,
    program: &Program,
    symbol: Symbol,
    writer: &mut W,
) -> Result<u64, WriteFault>
    ensures sends { Sends (W.log writer.old) (W.log writer.new) buffer.old buffer.new result (lines_text (symbol_rows program.now symbol)) }
    ensures count { IfOk result (λ n. n ≡ length (symbol_rows program.now symbol)) }
    ensures few { IfOk result (λ n. n ≤ PLACES * RUNGS) }
{
    let name = program.decls().symbol_name(symbol);
    let rows = add_places(buffer, program, name, symbol, writer)?;
    if 0 < rows {
        return Ok(rows);
    }
    row_line(buffer, name, b"unused", b"0", b"0", b"0", writer)?;
    Ok(1)
}

/// How many variables and instances are declared.
pub fn symbol_count(decls: &Decls) -> usize
    ensures value { result ≡ length (symbols_of decls.now) }
    ensures few { result ≤ MOST_VARS + MOST_INSTANCES }
{
    decls.vars().len() + decls.instances().len()
}

/// What is declared with a number, where the instances are counted after the variables.
pub fn symbol_at(decls: &Decls, number: usize) -> Symbol
    requires { number < length (symbols_of decls.now) }
    ensures { slice_get (symbols_of decls.now) number ≡ Some result }
{
    let vars = decls.vars().len();
    if number < vars {
        Symbol::Var(number)
    } else {
        Symbol::Instance(number - vars)
    }
}

/// Adds the rows of all that is declared, and returns how many.
fn add_symbols<W: Sink>(
    buffer: &mut TextBuffer,
    program: &Program,
    writer: &mut W,
) -> Result<u64, WriteFault>
    ensures sends { Sends (W.log writer.old) (W.log writer.new) buffer.old buffer.new result (lines_text (use_rows program.now)) }
    ensures count { IfOk result (λ n. n ≡ length (use_rows program.now)) }
{
    let decls = program.decls();
    let mut total = 0u64;
    for number in 0..symbol_count(decls) {
        let rows = add_symbol(buffer, program, symbol_at(decls, number), writer)?;
        total += rows;
    }
    Ok(total)
}

/// Adds the header and all rows, and returns how many rows.
fn add_uses<W: Sink>(
    buffer: &mut TextBuffer,
    program: &Program,
    writer: &mut W,
) -> Result<u64, WriteFault>
    ensures sends { Sends (W.log writer.old) (W.log writer.new) buffer.old buffer.new result (uses_text program.now) }
    ensures count { IfOk result (λ n. n ≡ length (use_rows program.now)) }
{
    add_header(buffer, writer)?;
    add_symbols(buffer, program, writer)
}

/// Writes the cross-reference of a program: a header, and for each variable and then each instance a row for each place where it is
/// drawn, or one row where there is none. Returns the number of rows after the header. It needs no memory.
///
/// # Errors
///
/// X6: the writer failed. What was written is a prefix of the text.
pub fn write_uses<W: Sink>(program: &Program, writer: &mut W) -> Result<u64, WriteFault>
    ensures wrote { Puts (W.log writer.old) (W.log writer.new) result (uses_text program.now) }
    ensures rows { IfOk result (λ n. n ≡ length (use_rows program.now)) }
{
    let mut buffer = TextBuffer::new();
    let rows = add_uses(&mut buffer, program, writer)?;
    buffer.flush(writer)?;
    Ok(rows)
}
