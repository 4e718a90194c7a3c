//! What is said of a project that has no program text.

ghost use Rattle.std.specs.Prelude.{◌≡◌};
ghost use Rattle.std.specs.List.{list_all};
ghost use Rattle.io_text.specs.Log.{Puts};
ghost use Rattle.cli_plc.specs.Lines.{code_of, explained, fault_lead, fault_name, fault_tail, is_visible, sentence, shown, unit_text};

use crate::reasons::{reason_sentence, reason_word};
use io_text::{Piece, Sink, WriteFault, put_pieces};
use plc_import::PlcImportFault;
use plc_text::PlcFault;
use st_program::{Refusal, StFault};
use xml_document::{Document, Span};
use xml_parts::bytes_at;

/// A sentence where it is asked for, and otherwise nothing.
pub(crate) fn explained(why: bool, sentence: &'static [u8]) -> &'static [u8]
    ensures { result.now ≡ explained why sentence.now }
{
    if why { sentence } else { b"" }
}

/// Whether a byte is a visible character of ASCII.
fn is_visible(b: u8) -> bool
    ensures { result ≡ is_visible b }
{
    33 <= b && b <= 126
}

/// Whether a word can stand in a line.
fn are_visible(word: &[u8]) -> bool
    ensures { result ≡ list_all is_visible word.now }
{
    word.iter().all(|b| is_visible(*b))
}

/// A word as a line shows it: a question mark for none, or for one that can't stand in a line.
fn shown(word: &[u8]) -> &[u8]
    ensures { result.now ≡ shown word.now }
{
    match word {
        [] => b"?",
        _ if are_visible(word) => word,
        _ => b"?",
    }
}

/// The code of a fault in Structured Text.
fn code_of(fault: StFault) -> &'static [u8]
    ensures { result.now ≡ code_of fault }
{
    match fault {
        StFault::Character { .. } => b"T1",
        StFault::Words(refusal) => match refusal {
            Refusal::Memory => b"X7",
            Refusal::Due { .. } => b"T2",
            Refusal::Name { .. } => b"T3",
            Refusal::Type { .. } => b"T4",
            Refusal::Undrawable { .. } | Refusal::Integer { .. } => b"T5",
            Refusal::Member { .. } => b"T6",
            Refusal::Input { .. } => b"T7",
            Refusal::Call { .. } => b"T8",
            Refusal::TooMany { .. } | Refusal::TooDeep { .. } => b"T9",
        },
    }
}

/// The line of a fault up to the name that it is about, or the whole line where there is none.
fn fault_lead(fault: PlcImportFault) -> &'static [u8]
    ensures { result.now ≡ fault_lead fault }
{
    match fault {
        PlcImportFault::Memory => b"fault X7\n",
        PlcImportFault::Unit(PlcFault::Memory) => b"fault X7\n",
        PlcImportFault::Unit(PlcFault::NoProject) => b"fault N1\n",
        PlcImportFault::Unit(PlcFault::NoProgram) => b"fault N3 none\n",
        PlcImportFault::Unit(PlcFault::SeveralPrograms) => b"fault N3 several\n",
        PlcImportFault::Unit(PlcFault::OtherLanguage) => b"fault N4\n",
        PlcImportFault::Unit(PlcFault::TooLarge) => b"fault N6 elements\n",
        PlcImportFault::TooManyRungs(_) => b"fault N6 rungs\n",
        PlcImportFault::TooManyVariables(_) => b"fault N6 variables\n",
        PlcImportFault::TooManyBlocks(_) => b"fault N6 blocks\n",
        PlcImportFault::NotFaithful => b"fault N7\n",
        PlcImportFault::AlikeNames => b"fault N5 statements T3\n",
        PlcImportFault::Statements(_) => b"fault N5 statements ",
        PlcImportFault::Unit(PlcFault::Variable { .. }) => b"fault N5 variable ",
        PlcImportFault::Unit(PlcFault::Element { .. }) => b"fault N5 element ",
    }
}

/// The name or the number of the element that a fault is about; nothing where there is none.
fn fault_name(document: &Document, fault: PlcImportFault) -> &[u8]
    ensures { result.now ≡ fault_name document.now fault }
{
    match fault {
        PlcImportFault::Unit(PlcFault::Variable { name, .. }) => {
            shown(bytes_at(&document.bytes, name))
        }
        PlcImportFault::Unit(PlcFault::Element { number, .. }) => {
            shown(bytes_at(&document.bytes, number))
        }
        PlcImportFault::Statements(fault) => code_of(fault),
        _ => b"",
    }
}

/// The end of the line behind that name; nothing where there is none.
fn fault_tail(fault: PlcImportFault) -> &'static [u8]
    ensures { result.now ≡ fault_tail fault }
{
    match fault {
        PlcImportFault::Unit(PlcFault::Variable { reason, .. }) => reason_word(reason),
        PlcImportFault::Unit(PlcFault::Element { reason, .. }) => reason_word(reason),
        PlcImportFault::Statements(_) => b"\n",
        _ => b"",
    }
}

/// The sentence that explains a fault.
fn sentence(fault: PlcImportFault) -> &'static [u8]
    ensures { result.now ≡ sentence fault }
{
    match fault {
        PlcImportFault::Memory => { b"X7: out of memory\n" }
        PlcImportFault::Unit(PlcFault::Memory) => { b"X7: out of memory\n" }
        PlcImportFault::Unit(PlcFault::NoProject) => {
            b"N1: the document is no PLCopen project: its root isn't a project with types and pous\n"
        }
        PlcImportFault::Unit(PlcFault::NoProgram) => {
            b"N3: no pou of the project is a program, or with --pou none has this name\n"
        }
        PlcImportFault::Unit(PlcFault::SeveralPrograms) => {
            b"N3: several pous of the project are programs, and --pou names one; or with it several have this name\n"
        }
        PlcImportFault::Unit(PlcFault::OtherLanguage) => {
            b"N4: the body of the program isn't one ladder diagram\n"
        }
        PlcImportFault::Unit(PlcFault::TooLarge) => {
            b"N6: the diagram has more than 4000 elements, or its expressions are too large\n"
        }
        PlcImportFault::TooManyRungs(_) => { b"N6: the drawing would have more than 100 rungs\n" }
        PlcImportFault::TooManyVariables(_) => {
            b"N6: the drawing would have more than 256 variables\n"
        }
        PlcImportFault::TooManyBlocks(_) => {
            b"N6: the drawing would have more than 64 instances of blocks\n"
        }
        PlcImportFault::NotFaithful => {
            b"N7: the drawing isn't found to do what the diagram does, so it isn't written\n"
        }
        PlcImportFault::AlikeNames | PlcImportFault::Statements(_) => {
            b"N5: in Structured Text the program is refused with this fault, which ladder explain tells\n"
        }
        PlcImportFault::Unit(PlcFault::Variable { reason, .. }) => reason_sentence(reason),
        PlcImportFault::Unit(PlcFault::Element { reason, .. }) => reason_sentence(reason),
    }
}

/// Writes the line of a fault, and the sentence that explains it where that is asked for.
pub(crate) fn write_fault<W: Sink>(
    why: bool,
    document: &Document,
    fault: PlcImportFault,
    writer: &mut W,
) -> Result<(), WriteFault>
    ensures { Puts (W.log writer.old) (W.log writer.new) result (unit_text why document.now fault) }
{
    let pieces = [
        Piece::Text(fault_lead(fault)),
        Piece::Text(fault_name(document, fault)),
        Piece::Text(fault_tail(fault)),
        Piece::Text(explained(why, sentence(fault))),
    ];
    put_pieces(writer, pieces.as_slice())
}
