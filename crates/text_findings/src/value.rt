//! The text of a value.

ghost use Rattle.std.specs.Prelude.{◌≡◌};
ghost use Rattle.io_text.specs.Buffer.{Sends};
ghost use Rattle.text_findings.specs.FindingText.{address_text, letters, place_text, second_part, value_text};

use diagram_declarations::Address;
use io_text::{Piece, Sink, TextBuffer, WriteFault, add_pieces};

/// What is said of one of the programs.
#[derive(Clone, Copy)]
pub(crate) enum Value {
    Nothing,
    /// A value of a variable.
    Bit(bool),
    /// A preset.
    Number(u32),
    /// An address, where there is one.
    Place(Option<Address>),
}

/// The first letters of an address.
fn letters(letter: char) -> &'static [u8]
    ensures { result.now ≡ letters letter }
{
    match letter {
        'I' => b"%IX",
        'Q' => b"%QX",
        _ => b"%MX",
    }
}

/// Adds the second number of an address, where it has one, after a point.
fn add_second<W: Sink>(
    buffer: &mut TextBuffer,
    second: Option<u32>,
    writer: &mut W,
) -> Result<(), WriteFault>
    ensures { Sends (W.log writer.old) (W.log writer.new) buffer.old buffer.new result (second_part second) }
{
    match second {
        Some(number) => add_pieces(
            buffer,
            &[Piece::Text(b"."), Piece::Number(u64::from(number))],
            writer,
        ),
        None => Ok(()),
    }
}

/// Adds an address.
fn add_address<W: Sink>(
    buffer: &mut TextBuffer,
    address: Address,
    writer: &mut W,
) -> Result<(), WriteFault>
    ensures { Sends (W.log writer.old) (W.log writer.new) buffer.old buffer.new result (address_text address) }
{
    let head = letters(address.letter);
    let pieces = [Piece::Text(head), Piece::Number(u64::from(address.first))];
    add_pieces(buffer, &pieces, writer)?;
    add_second(buffer, address.second, writer)
}

/// Adds an address, where there is one.
fn add_place<W: Sink>(
    buffer: &mut TextBuffer,
    place: Option<Address>,
    writer: &mut W,
) -> Result<(), WriteFault>
    ensures { Sends (W.log writer.old) (W.log writer.new) buffer.old buffer.new result (place_text place) }
{
    match place {
        Some(address) => add_address(buffer, address, writer),
        None => Ok(()),
    }
}

/// Adds the text of a value.
pub(crate) fn add_value<W: Sink>(
    buffer: &mut TextBuffer,
    value: Value,
    writer: &mut W,
) -> Result<(), WriteFault>
    ensures { Sends (W.log writer.old) (W.log writer.new) buffer.old buffer.new result (value_text value) }
{
    match value {
        Value::Nothing => Ok(()),
        Value::Bit(bit) => add_pieces(buffer, &[Piece::Bit(bit)], writer),
        Value::Number(number) => add_pieces(buffer, &[Piece::Number(u64::from(number))], writer),
        Value::Place(place) => add_place(buffer, place, writer),
    }
}
