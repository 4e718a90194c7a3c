//! The program text of a project.

ghost use Rattle.std.specs.Prelude.{◌≡◌, ◌⊎◌, All, IfErr, IfOk};
ghost use Rattle.clp_meaning.specs.Carried.{IsCarriedBy};
ghost use Rattle.diagram_reader.specs.Reading.{IsMemory};
ghost use Rattle.clp_import.specs.Import.{HasText, HasTextBy, IsEarly, IsFault, IsOfText, fault_of};
ghost use Rattle.clp_import.specs.Refusals.{IsThere};
ghost use Rattle.clp_import.specs.declared.importing.ImportFault.TheVariants.{Memory, NotFaithful};

use crate::drafting::Drafting;
use crate::refusal::{Refusal, refusals};
use clp_drawing::{DraftFault, Drafted};
use clp_meaning::{BlockRef, is_carried_over};
use clp_project::{Project, ReadingOptions};
use diagram_declarations::VarRule;
use diagram_program::Program;
use diagram_program::geometry::RUNGS;
use diagram_reader::{GridFault, read_program};
use std::alloc::Global;
use thiserror::Error;

/// Why a project has no program text.
#[derive(Clone, Copy, Debug, Error)]
pub enum ImportFault {
    #[error("out of memory")]
    Memory,
    #[error("there are elements that can't be carried over")]
    Refused,
    #[error("there are more than 100 rungs")]
    TooManyRungs,
    #[error("there are more than 256 variables")]
    TooManyVars,
    #[error("there are more than 64 blocks")]
    TooManyBlocks,
    #[error("the text that was written isn't the project")]
    NotFaithful,
}

/// Why a project that can't be drafted has no program text.
fn draft_fault(fault: DraftFault) -> ImportFault
    ensures { result ≡ fault_of fault }
{
    match fault {
        DraftFault::Memory => ImportFault::Memory,
        DraftFault::TooManyVars => ImportFault::TooManyVars,
        DraftFault::TooManyBlocks => ImportFault::TooManyBlocks,
    }
}

/// Why a drafted text is none: memory ran out, or it breaks a rule, so that the draft isn't faithful.
fn text_fault(fault: GridFault) -> ImportFault
    ensures { (result ≡ Memory) ⊎ ((result ≡ NotFaithful) × ¬ (IsMemory fault)) }
{
    match fault {
        GridFault::Vars(fault) if fault.rule == VarRule::Memory => ImportFault::Memory,
        GridFault::Vars(_) | GridFault::Grid { .. } => ImportFault::NotFaithful,
    }
}

/// Compares the drafted program with the project: an error if it hasn't what the project has.
fn compared(
    reading: ReadingOptions,
    project: &Project<'_>,
    blocks: &[BlockRef],
    program: &Program,
) -> Result<(), ImportFault>
    ensures same { IfOk result (λ _. IsCarriedBy reading project.now blocks.now program.now) }
    ensures fault { IfErr result (λ e. (e ≡ NotFaithful) × ¬ (IsCarriedBy reading project.now blocks.now program.now)) }
{
    if is_carried_over(reading, project, blocks, program) {
        Ok(())
    } else {
        Err(ImportFault::NotFaithful)
    }
}

/// Reads the drafted text and compares it with the project: an error if it isn't a program with what the project has.
fn checked(
    alloc: Global,
    reading: ReadingOptions,
    project: &Project<'_>,
    blocks: &[BlockRef],
    text: &[u8],
) -> Result<(), ImportFault>
    ensures text { IfOk result (λ _. HasTextBy reading project.now blocks.now text.now) }
    ensures fault { IfErr result (λ e. IsOfText reading project.now blocks.now text.now e) }
{
    match read_program(alloc, text) {
        Ok(program) => compared(reading, project, blocks, &program),
        Err(fault) => Err(text_fault(fault)),
    }
}

/// Drafts the text of a project and checks it.
fn drawn<D: Drafting>(
    alloc: Global,
    reading: ReadingOptions,
    project: &Project<'_>,
    drafting: &D,
) -> Result<Vec<u8>, ImportFault>
    ensures text { IfOk result (λ v. HasText reading project.now v.items) }
    ensures fault { IfErr result (λ e. IsFault (D.answers drafting.now reading project.now) reading project.now e) }
{
    match drafting.draft(alloc, reading, project) {
        Ok(Drafted { text, blocks }) => match checked(alloc, reading, project, &blocks, &text) {
            Ok(()) => Ok(text),
            Err(fault) => Err(fault),
        },
        Err(fault) => Err(draft_fault(fault)),
    }
}

/// Refuses a project with elements that can't be carried over, or with more rungs than a program may have.
fn none_refused(
    reading: ReadingOptions,
    project: &Project<'_>,
    refused: &[Refusal],
) -> Result<(), ImportFault>
    requires { All (IsThere reading project.now) refused.now }
    ensures { IfErr result (λ e. IsEarly reading project.now e) }
{
    if refused.len() >= 1 {
        Err(ImportFault::Refused)
    } else if project.rungs.len() > RUNGS {
        Err(ImportFault::TooManyRungs)
    } else {
        Ok(())
    }
}

/// The program text of a project, as it is drawn: it reads as a program, and that has what the project has, as it is read.
///
/// # Errors
///
/// Why there is none. `Refused` where `refusals` names elements; `NotFaithful` never in practice: then the text that was drawn
/// did not pass the check.
pub fn import<D: Drafting>(
    alloc: Global,
    reading: ReadingOptions,
    project: &Project<'_>,
    drafting: &D,
) -> Result<Vec<u8>, ImportFault>
    ensures carried { IfOk result (λ v. HasText reading project.now v.items) }
    ensures fault { IfErr result (λ e. IsFault (D.answers drafting.now reading project.now) reading project.now e) }
{
    match refusals(alloc, reading, project) {
        Ok(refused) => match none_refused(reading, project, &refused) {
            Ok(()) => drawn(alloc, reading, project, drafting),
            Err(fault) => Err(fault),
        },
        Err(_) => Err(ImportFault::Memory),
    }
}
