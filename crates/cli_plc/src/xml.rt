//! What is said of a text that is no document that can be read.

ghost use Rattle.std.specs.Prelude.{◌≡◌};
ghost use Rattle.io_text.specs.Log.{Puts};
ghost use Rattle.cli_plc.specs.Xml.{fault_sentence, line_number, placed, xml_sentence, xml_text};

use crate::lines::explained;
use io_text::{Piece, Sink, WriteFault, put_pieces};
use xml_document::{Reason, XmlFault};

/// The number of the line of a place, counted from 1.
fn line_number(text: &[u8], at: usize) -> usize
    ensures { result ≡ line_number text.now at }
{
    let before = &text[..at.min(text.len())];
    1 + before.iter().filter(|b| **b == b'\n').count()
}

/// The sentence on what stands at a place, or doesn't.
fn xml_sentence(reason: Reason) -> &'static [u8]
    ensures { result.now ≡ xml_sentence reason }
{
    match reason {
        Reason::Character => {
            b"N2: this is no XML document that can be read: a character that XML doesn't allow, or bytes that are no UTF-8\n"
        }
        Reason::Declaration => {
            b"N2: this is no XML document that can be read: an XML declaration that can't be read\n"
        }
        Reason::Encoding => {
            b"N2: this is no XML document that can be read: an encoding other than UTF-8\n"
        }
        Reason::Outside => {
            b"N2: this is no XML document that can be read: something other than one root element\n"
        }
        Reason::Comment => {
            b"N2: this is no XML document that can be read: a comment with no end, or with -- in it\n"
        }
        Reason::Instruction => {
            b"N2: this is no XML document that can be read: a processing instruction that can't be read\n"
        }
        Reason::Section => {
            b"N2: this is no XML document that can be read: a CDATA section with no end\n"
        }
        Reason::Reference => {
            b"N2: this is no XML document that can be read: a reference to no character, or to an entity that isn't one of the five\n"
        }
        Reason::SectionEnd => { b"N2: this is no XML document that can be read: ]]> in text\n" }
        Reason::Tag => {
            b"N2: this is no XML document that can be read: a tag that can't be read\n"
        }
        Reason::Attribute => {
            b"N2: this is no XML document that can be read: an attribute that can't be read\n"
        }
        Reason::Twice => {
            b"N2: this is no XML document that can be read: an attribute twice in a tag\n"
        }
        Reason::Attributes => {
            b"N2: this is no XML document that can be read: more than 256 attributes in a tag\n"
        }
        Reason::EndTag => {
            b"N2: this is no XML document that can be read: an end tag that isn't that of the open element\n"
        }
        Reason::Depth => {
            b"N2: this is no XML document that can be read: more than 200 elements within one another\n"
        }
        Reason::End => {
            b"N2: this is no XML document that can be read: the end of the text, too early\n"
        }
    }
}

/// The sentence on a text that is no document that can be read.
fn fault_sentence(fault: XmlFault) -> &'static [u8]
    ensures { result.now ≡ fault_sentence fault }
{
    match fault {
        XmlFault::Memory => b"X7: out of memory\n",
        XmlFault::Doctype { .. } => b"N2: a document type isn't read\n",
        XmlFault::Text { reason, .. } => xml_sentence(reason),
    }
}

/// Writes a line that ends with a number, and the sentence that explains it.
fn put_placed<'a, W: Sink>(
    line: &'a [u8],
    number: u64,
    said: &'a [u8],
    writer: &mut W,
) -> Result<(), WriteFault>
    ensures { Puts (W.log writer.old) (W.log writer.new) result (placed line.now number said.now) }
{
    let pieces = [
        Piece::Text(line),
        Piece::Number(number),
        Piece::Text(b"\n"),
        Piece::Text(said),
    ];
    put_pieces(writer, pieces.as_slice())
}

/// Writes the lines on a text that is no document that can be read.
pub(crate) fn write_xml_fault<W: Sink>(
    why: bool,
    text: &[u8],
    fault: XmlFault,
    writer: &mut W,
) -> Result<(), WriteFault>
    ensures { Puts (W.log writer.old) (W.log writer.new) result (xml_text why text.now fault) }
{
    let said = explained(why, fault_sentence(fault));
    match fault {
        XmlFault::Memory => put_pieces(
            writer,
            [Piece::Text(b"fault X7\n"), Piece::Text(said)].as_slice(),
        ),
        XmlFault::Doctype { at } => put_placed(
            b"fault N2 line ",
            line_number(text, at) as u64,
            said,
            writer,
        ),
        XmlFault::Text { at, .. } => put_placed(
            b"fault N2 line ",
            line_number(text, at) as u64,
            said,
            writer,
        ),
    }
}
