//! What is said of a program that isn't exported.

ghost use Rattle.std.specs.Prelude.{◌≡◌};
ghost use Rattle.io_text.specs.Log.{Puts};
ghost use Rattle.cli_export.specs.Lines.{explained, fault_lead, fault_name, fault_text, sentence};

use diagram_declarations::Decls;
use export_program::ExportFault;
use io_text::{Piece, Sink, WriteFault, put_pieces};

/// The line of a fault up to the name that it is about, where there is one.
fn fault_lead(fault: ExportFault) -> &'static [u8]
    ensures { result.now ≡ fault_lead fault }
{
    match fault {
        ExportFault::Memory => b"fault X7",
        ExportFault::ProgramName => b"fault E1",
        ExportFault::TwoNumbers { .. } => b"fault E2 ",
        ExportFault::TooLarge => b"fault E3",
        ExportFault::NotFaithful => b"fault E4",
    }
}

/// The name that a fault is about; nothing where there is none.
fn fault_name(decls: &Decls, fault: ExportFault) -> &[u8]
    ensures { result.now ≡ fault_name decls.now fault }
{
    match fault {
        ExportFault::TwoNumbers { variable } => decls.var_name(variable),
        ExportFault::Memory
        | ExportFault::ProgramName
        | ExportFault::TooLarge
        | ExportFault::NotFaithful => b"",
    }
}

/// The sentence that explains a fault.
fn sentence(fault: ExportFault) -> &'static [u8]
    ensures { result.now ≡ sentence fault }
{
    match fault {
        ExportFault::Memory => b"X7: out of memory\n",
        ExportFault::ProgramName => {
            b"E1: the program's name is no name of Structured Text, or something is declared by it; --name gives another\n"
        }
        ExportFault::TwoNumbers { .. } => {
            b"E2: the address has two numbers already, so --bits can't write it by byte and bit\n"
        }
        ExportFault::TooLarge => {
            b"E3: the text would have more than 600 statements or 1000 names, or the project more than 4000 elements\n"
        }
        ExportFault::NotFaithful => {
            b"E4: the text isn't found to do what the drawing does, so it isn't written\n"
        }
    }
}

/// A sentence where it is asked for, and otherwise nothing.
fn explained(why: bool, sentence: &'static [u8]) -> &'static [u8]
    ensures { result.now ≡ explained why sentence.now }
{
    if why { sentence } else { b"" }
}

/// Writes the line of a fault, and the sentence that explains it where that is asked for.
pub(crate) fn write_fault<W: Sink>(
    why: bool,
    decls: &Decls,
    fault: ExportFault,
    writer: &mut W,
) -> Result<(), WriteFault>
    ensures { Puts (W.log writer.old) (W.log writer.new) result (fault_text why decls.now fault) }
{
    let pieces = [
        Piece::Text(fault_lead(fault)),
        Piece::Text(fault_name(decls, fault)),
        Piece::Text(b"\n"),
        Piece::Text(explained(why, sentence(fault))),
    ];
    put_pieces(writer, pieces.as_slice())
}
