//! The writing of the warnings of a program.

ghost use Rattle.std.specs.Prelude.{◌≡◌, ◌*◌, ◌<◌, ◌≤◌, ◌∷◌, [], IfOk, codes, length};
ghost use Rattle.diagram_program.specs.declared.geometry.TheConstants.{PLACES, RUNGS};
ghost use Rattle.io_text.specs.Text.{line_text, lines_text};
ghost use Rattle.io_text.specs.Buffer.{Sends};
ghost use Rattle.io_text.specs.Log.{Puts};
ghost use Rattle.text_warnings.specs.Decided.{decided};
ghost use Rattle.text_warnings.specs.Told.{Told};
ghost use Rattle.text_warnings.specs.Warnings.{declared_rows, place_rows, row_if_warned, rows_at, warned_name, warning_row, warning_rows};

use crate::names::add_names;
use crate::places::{cell_in, is_warned};
use crate::symbols::symbol_of;
use crate::unused::add_unused;
use crate::warning::Warning;
use diagram_program::Program;
use diagram_program::geometry::{PLACES, ROWS};
use io_text::{Sink, TextBuffer, WriteFault, add_line};
use itoa::Buffer;

/// The name that the row of a warning has: of the cell's variable or instance, or none.
fn warned_name(program: &Program, place: usize, warning: Warning) -> &[u8]
    requires { place < PLACES * program.now.rungs }
    ensures { result.now ≡ warned_name program.now place warning }
{
    match warning {
        Warning::LooseCrossing | Warning::Apart | Warning::NeverReached => b"",
        Warning::LeadsNowhere
        | Warning::WrittenTwice
        | Warning::NeverWritten
        | Warning::NeverRead => {
            match symbol_of(cell_in(program, place)) {
                Some(symbol) => program.decls().symbol_name(symbol),
                None => b"",
            }
        }
    }
}

/// Adds a record: `warning`, the kind of warning, rung, row, column and name.
fn row_line<W: Sink>(
    buffer: &mut TextBuffer,
    word: &[u8],
    rung: &[u8],
    row: &[u8],
    column: &[u8],
    name: &[u8],
    writer: &mut W,
) -> Result<(), WriteFault>
    ensures { Sends (W.log writer.old) (W.log writer.new) buffer.old buffer.new result (line_text (codes "warning" ∷ word.now ∷ rung.now ∷ row.now ∷ column.now ∷ name.now ∷ [])) }
{
    let others = [word, rung, row, column, name];
    add_line(buffer, b"warning", others.as_slice(), writer)
}

/// Adds the row of a warning at a place.
fn add_row<W: Sink>(
    buffer: &mut TextBuffer,
    program: &Program,
    place: usize,
    warning: Warning,
    writer: &mut W,
) -> Result<(), WriteFault>
    requires { place < PLACES * program.now.rungs }
    ensures { Sends (W.log writer.old) (W.log writer.new) buffer.old buffer.new result (line_text (warning_row program.now place warning)) }
{
    let (mut first, mut second, mut third) = (Buffer::new(), Buffer::new(), Buffer::new());
    let rung = first.format(place / PLACES + 1).as_bytes();
    let row = second.format(place % PLACES % ROWS + 1).as_bytes();
    let column = third.format(place % PLACES / ROWS + 1).as_bytes();
    let name = warned_name(program, place, warning);
    row_line(buffer, warning.word(), rung, row, column, name, writer)
}

/// Adds the row of a warning if the place has it, and returns how many rows that makes.
fn add_if_warned<W: Sink>(
    buffer: &mut TextBuffer,
    program: &Program,
    place: usize,
    warning: Warning,
    writer: &mut W,
) -> Result<u64, WriteFault>
    requires { place < PLACES * program.now.rungs }
    ensures sends { Sends (W.log writer.old) (W.log writer.new) buffer.old buffer.new result (lines_text (row_if_warned decided program.now place warning)) }
    ensures count { IfOk result (λ n. n ≡ length (row_if_warned decided program.now place warning)) }
    ensures few { IfOk result (λ n. n ≤ 1) }
{
    if !is_warned(program, place, warning) {
        return Ok(0);
    }
    add_row(buffer, program, place, warning, writer)?;
    Ok(1)
}

/// Adds the rows of a place, and returns how many.
fn add_place<W: Sink>(
    buffer: &mut TextBuffer,
    program: &Program,
    place: usize,
    writer: &mut W,
) -> Result<u64, WriteFault>
    requires { place < PLACES * program.now.rungs }
    ensures sends { Sends (W.log writer.old) (W.log writer.new) buffer.old buffer.new result (lines_text (rows_at decided program.now place)) }
    ensures count { IfOk result (λ n. n ≡ length (rows_at decided program.now place)) }
    ensures few { IfOk result (λ n. n ≤ 7) }
{
    let mut rows = 0u64;
    for warning in Warning::ALL.as_slice() {
        let more = add_if_warned(buffer, program, place, *warning, writer)?;
        rows += more;
    }
    Ok(rows)
}

/// Adds the rows of all places, and returns how many.
fn add_places<W: Sink>(
    buffer: &mut TextBuffer,
    program: &Program,
    writer: &mut W,
) -> Result<u64, WriteFault>
    ensures sends { Sends (W.log writer.old) (W.log writer.new) buffer.old buffer.new result (lines_text (place_rows decided program.now)) }
    ensures count { IfOk result (λ n. n ≡ length (place_rows decided program.now)) }
    ensures few { IfOk result (λ n. n ≤ 7 * (PLACES * RUNGS)) }
{
    let mut rows = 0u64;
    for place in 0..PLACES * program.rungs() {
        let more = add_place(buffer, program, place, writer)?;
        rows += more;
    }
    Ok(rows)
}

/// Adds the rows of declarations, of names that are similar and then of those that nothing is drawn of, and returns how many.
fn add_declared<W: Sink>(
    buffer: &mut TextBuffer,
    program: &Program,
    writer: &mut W,
) -> Result<u64, WriteFault>
    ensures sends { Sends (W.log writer.old) (W.log writer.new) buffer.old buffer.new result (lines_text (declared_rows decided program.now)) }
    ensures count { IfOk result (λ n. n ≡ length (declared_rows decided program.now)) }
    ensures few { IfOk result (λ n. n ≤ 320 * 321) }
{
    let similar = add_names(buffer, program.decls(), writer)?;
    let unused = add_unused(buffer, program, writer)?;
    Ok(similar + unused)
}

/// Writes a row for each warning of a program, first of its declarations and then by rung, column and row, and returns how many. There
/// is no header, and so nothing is written where nothing is warned of. It needs no memory.
///
/// # Errors
///
/// X6: the writer failed. What was written is a prefix of the text.
pub fn write_warnings<W: Sink>(program: &Program, writer: &mut W) -> Result<u64, WriteFault>
    ensures wrote { (told : Told) → Puts (W.log writer.old) (W.log writer.new) result (lines_text (warning_rows told program.now)) }
    ensures rows { IfOk result (λ n. (told : Told) → n ≡ length (warning_rows told program.now)) }
{
    let mut buffer = TextBuffer::new();
    let declared = add_declared(&mut buffer, program, writer)?;
    let places = add_places(&mut buffer, program, writer)?;
    buffer.flush(writer)?;
    Ok(declared + places)
}
