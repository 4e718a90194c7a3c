//! The writing of the names that are similar to others.

ghost use Rattle.std.specs.Prelude.{◌≡◌, ◌<◌, ◌≤◌, ◌*◌, ◌∷◌, IfOk, [], length};
ghost use Rattle.diagram_declarations.specs.Decls.{names_of};
ghost use Rattle.io_text.specs.Text.{lines_text};
ghost use Rattle.io_text.specs.Buffer.{Sends};
ghost use Rattle.text_warnings.specs.Decided.{decided};
ghost use Rattle.text_warnings.specs.Warnings.{name_at_number, name_rows, row_of_names, rows_of_name, similar_row};

use crate::similar::are_similar;
use diagram_declarations::Decls;
use io_text::{Piece, Sink, TextBuffer, WriteFault, add_pieces};

/// How many names are declared.
fn count_names(decls: &Decls) -> usize
    ensures value { result ≡ length (names_of decls.now) }
    ensures few { result ≤ 320 }
{
    decls.vars().len() + decls.instances().len()
}

/// The name with a number: variables come first, then instances.
fn name_at(decls: &Decls, number: usize) -> &[u8]
    requires { number < length (names_of decls.now) }
    ensures { result.now ≡ name_at_number decls.now number }
{
    let (vars, instances) = (decls.vars(), decls.instances());
    if number < vars.len() {
        vars[number].name.bytes()
    } else {
        instances[number - vars.len()].name.bytes()
    }
}

/// Adds the warning that a name is similar to an earlier one.
fn add_row<'a, W: Sink>(
    buffer: &mut TextBuffer,
    name: &'a [u8],
    earlier: &'a [u8],
    writer: &mut W,
) -> Result<(), WriteFault>
    ensures { Sends (W.log writer.old) (W.log writer.new) buffer.old buffer.new result (lines_text (similar_row name.now earlier.now ∷ [])) }
{
    let pieces = [
        Piece::Text(b"warning,similar_names,,,,"),
        Piece::Text(name),
        Piece::Text(b" "),
        Piece::Text(earlier),
        Piece::Text(b"\n"),
    ];
    add_pieces(buffer, pieces.as_slice(), writer)
}

/// Adds the row of two names if they are similar, and returns how many rows that is.
fn add_if_similar<W: Sink>(
    buffer: &mut TextBuffer,
    decls: &Decls,
    number: usize,
    earlier: usize,
    writer: &mut W,
) -> Result<u64, WriteFault>
    requires numbers { (number < length (names_of decls.now)) × (earlier < length (names_of decls.now)) }
    ensures sends { Sends (W.log writer.old) (W.log writer.new) buffer.old buffer.new result (lines_text (row_of_names decided decls.now number earlier)) }
    ensures count { IfOk result (λ n. n ≡ length (row_of_names decided decls.now number earlier)) }
    ensures few { IfOk result (λ n. n ≤ 1) }
{
    let (name, other) = (name_at(decls, number), name_at(decls, earlier));
    if !are_similar(name, other) {
        return Ok(0);
    }
    add_row(buffer, name, other, writer)?;
    Ok(1)
}

/// Adds a row for each earlier name that is similar to this one, and returns how many.
fn add_name<W: Sink>(
    buffer: &mut TextBuffer,
    decls: &Decls,
    number: usize,
    writer: &mut W,
) -> Result<u64, WriteFault>
    requires numbers { number < length (names_of decls.now) }
    requires few { number < 320 }
    ensures sends { Sends (W.log writer.old) (W.log writer.new) buffer.old buffer.new result (lines_text (rows_of_name decided decls.now number)) }
    ensures count { IfOk result (λ n. n ≡ length (rows_of_name decided decls.now number)) }
    ensures few { IfOk result (λ n. n ≤ 320) }
{
    let mut rows = 0u64;
    for earlier in 0..number {
        let more = add_if_similar(buffer, decls, number, earlier, writer)?;
        rows += more;
    }
    Ok(rows)
}

/// Adds a row for each two names that are similar, and returns how many.
pub(crate) fn add_names<W: Sink>(
    buffer: &mut TextBuffer,
    decls: &Decls,
    writer: &mut W,
) -> Result<u64, WriteFault>
    ensures sends { Sends (W.log writer.old) (W.log writer.new) buffer.old buffer.new result (lines_text (name_rows decided decls.now)) }
    ensures count { IfOk result (λ n. n ≡ length (name_rows decided decls.now)) }
    ensures few { IfOk result (λ n. n ≤ 320 * 320) }
{
    let mut rows = 0u64;
    for number in 0..count_names(decls) {
        let more = add_name(buffer, decls, number, writer)?;
        rows += more;
    }
    Ok(rows)
}
