//! A text, read and compared with the program that it was written from.

ghost use Rattle.std.specs.Prelude.{◌≤◌, ◌+◌, IfErr, IfOk, IsTrue, length};
ghost use Rattle.diagram_program.specs.Program.{memories_of};
ghost use Rattle.st_program.specs.Programs.{IsStProgram};
ghost use Rattle.export_program.specs.Exported.{IsExported, IsExportedBy};
ghost use Rattle.export_program.specs.Refusals.{IsOfText};

use crate::fault::ExportFault;
use crate::form::AddressForm;
use crate::matching::are_exported;
use diagram_program::Program;
use export_check::is_export;
use st_program::{Refusal, StFault, StProgram, read_st_program};
use std::alloc::{AllocError, Global};

/// The program in Structured Text that a text is.
pub(crate) fn read_again(alloc: Global, text: &[u8]) -> Result<StProgram, ExportFault>
    ensures read { IfOk result (IsStProgram text.now) }
    ensures refused { IfErr result IsOfText }
{
    match read_st_program(alloc, text) {
        Ok(read) => Ok(read),
        Err(StFault::Words(Refusal::Memory)) => Err(ExportFault::Memory),
        Err(StFault::Words(Refusal::TooMany { .. })) => Err(ExportFault::TooLarge),
        Err(_) => Err(ExportFault::NotFaithful),
    }
}

/// Whether so many variables are those of a program and one for each of its memories, and perhaps more.
fn are_enough(program: &Program, variables: usize) -> bool
    ensures { IsTrue result → length program.now.decls.vars + memories_of program.now ≤ variables }
{
    match program.decls().vars().len().checked_add(program.memories()) {
        Some(least) => least <= variables,
        None => false,
    }
}

/// Whether a text that was read declares what a ladder program declares, and does what it does.
pub(crate) fn is_program(
    alloc: Global,
    form: AddressForm,
    program: &Program,
    text: &[u8],
    read: &StProgram,
) -> Result<bool, AllocError>
    requires { IsStProgram text.now read.now }
    ensures { IfOk result (λ is. IsTrue is → IsExportedBy form program.now text.now read.now) }
{
    let variables = read.variables.as_slice();
    if !are_exported(form, text, program.decls(), variables, &read.instances) {
        return Ok(false);
    }
    if !are_enough(program, variables.len()) {
        return Ok(false);
    }
    is_export(alloc, program, variables.len(), &read.statements)
}

/// Checks that a text is a program in Structured Text that declares what a ladder program declares, and each run of whose statements does what a
/// scan of that program does.
///
/// # Errors
///
/// `Memory` when out of memory; `TooLarge` where it has more statements or names than are read; `NotFaithful` where it isn't such a program, or
/// is one in another form than it is written in.
pub fn check_export(
    alloc: Global,
    form: AddressForm,
    program: &Program,
    text: &[u8],
) -> Result<(), ExportFault>
    ensures exported { IfOk result (λ unit. IsExported form program.now text.now) }
    ensures refused { IfErr result IsOfText }
{
    let read = read_again(alloc, text)?;
    if is_program(alloc, form, program, text, &read)? {
        Ok(())
    } else {
        Err(ExportFault::NotFaithful)
    }
}
