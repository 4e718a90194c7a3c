//! A program, written and compared with what was written.

ghost use Rattle.std.specs.Prelude.{◌≡◌, IfErr, IfOk, IsTrue, position};
ghost use Rattle.export_program.specs.Exported.{IsExported, IsExportedAs, IsExportedBy, IsRefused, IsTitled, addresses, can_be_called, has_two_numbers, unwritable};
ghost use Rattle.export_program.specs.Refusals.{IsOfText};

use crate::exporting::{is_program, read_again};
use crate::fault::ExportFault;
use crate::form::AddressForm;
use crate::naming::behind;
use diagram_declarations::{Decls, Var};
use diagram_program::Program;
use export_text::{Form, is_declared, is_name, write_st};
use st_program::StProgram;
use std::alloc::Global;

/// How a text of this form writes addresses.
fn addresses(form: Form<'_>) -> AddressForm
    ensures { result ≡ addresses form.entry.bits }
{
    if form.bits {
        AddressForm::Bits
    } else {
        AddressForm::Plain
    }
}

/// Whether a program with these declarations can have a name.
fn can_be_called(decls: &Decls, name: &[u8]) -> bool
    ensures { result ≡ can_be_called decls.now name.now }
{
    is_name(name) && !is_declared(decls, name)
}

/// Whether the address of a variable has two numbers.
fn has_two_numbers(var: &Var) -> bool
    ensures { result ≡ has_two_numbers var.now }
{
    match var.address {
        Some(address) => address.second.is_some(),
        None => false,
    }
}

/// The first variable with an address that has two numbers.
fn first_with_two_numbers(decls: &Decls) -> Option<usize>
    ensures { result ≡ position has_two_numbers decls.now.vars }
{
    decls.vars().iter().position(|var| has_two_numbers(var))
}

/// The first variable with an address that can't be written in a form.
fn unwritable(form: AddressForm, decls: &Decls) -> Option<usize>
    ensures { result ≡ unwritable form decls.now }
{
    match form {
        AddressForm::Plain => None,
        AddressForm::Bits => first_with_two_numbers(decls),
    }
}

/// Whether a text begins with PROGRAM, a name and the end of the line.
fn is_titled(text: &[u8], name: &[u8]) -> bool
    ensures { IsTrue result → IsTitled name.now text.now }
{
    let Some(titled) = behind(text, b"PROGRAM ") else {
        return false;
    };
    match behind(titled, name) {
        Some([b'\n', ..]) => true,
        _ => false,
    }
}

/// A text, and the program in Structured Text that it is.
#[derive(Drop)]
pub struct Exported {
    pub text: Vec<u8>,
    pub program: StProgram,
}

/// The text of a program, written and looked at again.
fn written(alloc: Global, program: &Program, form: Form<'_>) -> Result<Exported, ExportFault>
    ensures exported { IfOk result (λ x. IsExported (addresses form.entry.bits) program.now x.text.items) }
    ensures by { IfOk result (λ x. IsExportedBy (addresses form.entry.bits) program.now x.text.items x.program) }
    ensures titled { IfOk result (λ x. IsTitled form.entry.name.now x.text.items) }
    ensures refused { IfErr result IsOfText }
{
    let text = write_st(alloc, program, form)?;
    let read = read_again(alloc, &text)?;
    if !is_program(alloc, addresses(form), program, &text, &read)? {
        return Err(ExportFault::NotFaithful);
    }
    if is_titled(&text, form.name) {
        Ok(Exported {
            text,
            program: read,
        })
    } else {
        Err(ExportFault::NotFaithful)
    }
}

/// The program in Structured Text, with its text, which declares what a ladder program declares, and each run of which does what a scan of that
/// program does.
///
/// # Errors
///
/// As of `export`.
pub fn export_program(
    alloc: Global,
    program: &Program,
    form: Form<'_>,
) -> Result<Exported, ExportFault>
    ensures by { IfOk result (λ x. IsExportedBy (addresses form.entry.bits) program.now x.text.items x.program) }
    ensures exported { IfOk result (λ x. IsExportedAs (addresses form.entry.bits) form.entry.name.now program.now x.text.items) }
    ensures refused { IfErr result (IsRefused (addresses form.entry.bits) form.entry.name.now program.now) }
{
    if !can_be_called(program.decls(), form.name) {
        return Err(ExportFault::ProgramName);
    }
    match unwritable(addresses(form), program.decls()) {
        Some(variable) => Err(ExportFault::TwoNumbers { variable }),
        None => written(alloc, program, form),
    }
}

/// The text of a ladder program in Structured Text, which declares what the program declares, and each run of which does what a scan of the
/// program does.
///
/// # Errors
///
/// `ProgramName` where the name of `form` is a keyword or no name, or that of a declaration; else `TwoNumbers` where it asks for bits and an
/// address has two numbers already. `TooLarge` where the text would have more than 600 statements or 1,000 names. `Memory` when out of memory.
/// `NotFaithful` when what was written isn't found to be the program, by a fault of this library.
pub fn export(alloc: Global, program: &Program, form: Form<'_>) -> Result<Vec<u8>, ExportFault>
    ensures exported { IfOk result (λ text. IsExportedAs (addresses form.entry.bits) form.entry.name.now program.now text.items) }
    ensures refused { IfErr result (IsRefused (addresses form.entry.bits) form.entry.name.now program.now) }
{
    let Exported { text, .. } = export_program(alloc, program, form)?;
    Ok(text)
}
