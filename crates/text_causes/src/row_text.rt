//! The text of a row, and of the header.

ghost use Rattle.std.specs.Prelude.{◌≡◌, ◌+◌, ◌-◌, ◌*◌, ◌<◌, ◌≤◌, ◌++◌, ◌∷◌, [], Some, None, codes, decimal, length, map, slice_get, take};
ghost use Rattle.causes_query.specs.Assignment.{bit_of};
ghost use Rattle.std.specs.List.{slice_range};
ghost use Rattle.io_text.specs.Buffer.{Sends};
ghost use Rattle.io_text.specs.Text.{after_commas, bit_text, line_text};
ghost use Rattle.text_causes.specs.CauseText.{name_of};
ghost use Rattle.text_causes.specs.Rows.{bits, name_in, row};
ghost use Rattle.text_causes.specs.declared.row_text.TheConstants.{DIGITS, ROW};

use diagram_declarations::Decls;
use diagram_program::Program;
use io_text::{Sink, TextBuffer, WriteFault};
use itoa::write_digits;

/// How many digits a number has at most.
pub const DIGITS: usize = 20;

/// How many bytes a row has at most: a number, 64 bits, each after a comma, and a line feed.
pub const ROW: usize = 149;

/// The title of a variable, as it is spelled where it is declared.
pub fn name_bytes(decls: &Decls, var: usize) -> &[u8]
    ensures { result.now ≡ name_in (slice_get decls.now.vars var) }
{
    match decls.vars().get(var) {
        Some(var) => var.title.bytes(),
        None => b"",
    }
}

/// Adds a comma and the title of a variable.
fn add_name<W: Sink>(
    buffer: &mut TextBuffer,
    decls: &Decls,
    var: usize,
    writer: &mut W,
) -> Result<(), WriteFault>
    ensures { Sends (W.log writer.old) (W.log writer.new) buffer.old buffer.new result (codes "," ++ name_in (slice_get decls.now.vars var)) }
{
    buffer.add(b",", writer)?;
    buffer.add(name_bytes(decls, var), writer)
}

/// Adds the titles of the listed inputs, a comma before each.
fn add_names<W: Sink>(
    buffer: &mut TextBuffer,
    decls: &Decls,
    listed: &[usize],
    writer: &mut W,
) -> Result<(), WriteFault>
    ensures { Sends (W.log writer.old) (W.log writer.new) buffer.old buffer.new result (after_commas (map (λ v. name_in (slice_get decls.now.vars v)) listed.now)) }
{
    for var in listed {
        add_name(buffer, decls, *var, writer)?;
    }
    Ok(())
}

/// Adds the header: the name of the first column, and the names of the listed inputs.
///
/// # Errors
///
/// `WriteFault` when the writer failed.
pub fn add_header<W: Sink>(
    buffer: &mut TextBuffer,
    first: &[u8],
    program: &Program,
    listed: &[usize],
    writer: &mut W,
) -> Result<(), WriteFault>
    ensures { Sends (W.log writer.old) (W.log writer.new) buffer.old buffer.new result (line_text (first.now ∷ map (name_of program.now) listed.now)) }
{
    buffer.add(first, writer)?;
    add_names(buffer, program.decls(), listed, writer)?;
    buffer.add(b"\n", writer)
}

/// The character `0` or `1` of a bit.
pub(crate) fn digit(bit: bool) -> u8
    ensures { result ∷ [] ≡ bit_text bit }
{
    if bit { b'1' } else { b'0' }
}

/// The bit of a number that is the value of the i-th of `listed` inputs.
fn bit_of(listed: usize, place: usize, number: u64) -> bool
    requires { (place < listed) × (listed ≤ 64) }
    ensures { result ≡ bit_of listed place number }
{
    (number >> (listed - (place + 1))) & 1 == 1
}

/// Writes the end of a number's row over the first bytes of a text: its bits, each after a comma, and a line feed.
pub fn fill_end(text: &mut [u8], listed: usize, number: u64)
    requires few { listed ≤ 64 }
    requires room { 2 * listed < length text.old }
    ensures { take (2 * listed + 1) text.new ≡ after_commas (bits listed number listed) ++ codes "\n" }
{
    for place in 0..listed {
        text[2 * place] = b',';
        text[2 * place + 1] = digit(bit_of(listed, place, number));
    }
    text[2 * listed] = b'\n';
}

/// Writes the row of a number into a text, and returns where it begins: its digits end at `DIGITS`, and the rest follows.
pub(crate) fn write_row(text: &mut [u8], listed: usize, number: u64) -> usize
    requires few { listed ≤ 64 }
    requires room { length text.old ≡ ROW }
    ensures start { result + length (decimal number) ≡ DIGITS }
    ensures row { slice_range text.new result (DIGITS + 2 * listed + 1) ≡ row listed number }
{
    fill_end(&mut text[DIGITS..], listed, number);
    write_digits(number, text, DIGITS)
}
