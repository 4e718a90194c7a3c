//! A program in Structured Text, read, laid out, and compared with what was laid out.

ghost use Rattle.std.specs.Prelude.{◌≡◌, IfOk, IfSome, IsTrue};
ghost use Rattle.diagram_reader.specs.Titled.{IsTitledProgram};
ghost use Rattle.st_program.specs.Programs.{IsStProgram};
ghost use Rattle.draw_program.specs.Drawn.{IsDrawn};

use crate::alike::alike_name;
use crate::assembling::assembled;
use crate::fault::DrawFault;
use crate::integers::keeps_integers;
use crate::matching::are_declared;
use crate::names::{DrawnNames, drawn_names};
use crate::notes::comments_of;
use diagram_declarations::VarRule;
use diagram_declarations::limits::{MOST_INSTANCES, MOST_VARS};
use diagram_program::Program;
use diagram_program::geometry::RUNGS;
use diagram_reader::{GridFault, TitledFault, read_titled_program};
use draw_check::{Plan, is_drawing};
use draw_layout::{Comment, Layout, Names, lay_out};
use st_expression::Expression;
use st_program::{StProgram, read_st_program};
use st_words::{Word, read_words};
use std::alloc::{AllocError, Global};

/// A program in Structured Text, and the text of its drawing.
#[derive(Drop)]
pub struct Drawn {
    pub program: StProgram,
    pub bytes: Vec<u8>,
}

/// The words of a text that is a program.
fn words_of(alloc: Global, text: &[u8]) -> Result<Vec<Word>, DrawFault> {
    match read_words(alloc, text) {
        Ok(words) => Ok(words),
        Err(_) => Err(DrawFault::Memory),
    }
}

/// The rungs of a program, laid out.
fn laid_out<'a>(
    alloc: Global,
    text: &[u8],
    program: &'a StProgram,
    names: &DrawnNames,
) -> Result<Layout<'a>, DrawFault> {
    let words = words_of(alloc, text)?;
    let comments: Vec<Comment<'_>> = comments_of(alloc, text, &words, &program.places)?;
    let names = Names {
        variables: &names.variables,
        instances: &names.instances,
        helper: names.helper,
        label: b"L",
    };
    Ok(lay_out(alloc, &program.statements, &names, &comments)?)
}

/// Refuses a layout that is too large for a program.
fn check_size(program: &StProgram, layout: &Layout<'_>) -> Result<(), DrawFault> {
    let variables = program.variables.len().saturating_add(layout.helpers);
    if layout.rungs > RUNGS {
        return Err(DrawFault::TooManyRungs(layout.rungs));
    }
    if variables > MOST_VARS {
        return Err(DrawFault::TooManyVariables(variables));
    }
    if program.instances.len() > MOST_INSTANCES {
        return Err(DrawFault::TooManyBlocks(program.instances.len()));
    }
    Ok(())
}

/// The program that the bytes of a drawing are, read again; None where they are none.
fn read_again(alloc: Global, bytes: &[u8]) -> Result<Option<Program>, AllocError>
    ensures { IfOk result (λ found. IfSome found (IsTitledProgram bytes.now)) }
{
    match read_titled_program(alloc, bytes) {
        Ok(read) => Ok(Some(read)),
        Err(TitledFault::Grid(GridFault::Vars(fault))) if fault.rule == VarRule::Memory => {
            Err(AllocError)
        }
        Err(_) => Ok(None),
    }
}

/// Whether the bytes are a drawing of a program, as these parts say of its helpers.
fn is_drawn(
    alloc: Global,
    text: &[u8],
    program: &StProgram,
    parts: &[Option<&Expression>],
    bytes: &[u8],
) -> Result<bool, AllocError>
    ensures { IfOk result (λ is. IsTrue is → IsDrawn text.now program.now bytes.now) }
{
    let Some(read) = read_again(alloc, bytes)? else {
        return Ok(false);
    };
    let variables = program.variables.as_slice();
    let plan = Plan {
        program: &read,
        variables: variables.len(),
        parts,
    };
    if !are_declared(alloc, text, variables, &program.instances, read.decls())? {
        return Ok(false);
    }
    if !is_drawing(alloc, plan, &program.statements)? {
        return Ok(false);
    }
    keeps_integers(alloc, program, &read)
}

/// The text of a drawing of a program; None where it is found to be something else.
fn drawing_of(alloc: Global, text: &[u8], program: &StProgram) -> Result<Vec<u8>, DrawFault>
    ensures { IfOk result (λ bytes. IsDrawn text.now program.now bytes.items) }
{
    let Some(names) = drawn_names(alloc, text, program)? else {
        return Err(DrawFault::NotFaithful);
    };
    if let Some(at) = alike_name(text, program, &names.words) {
        return Err(DrawFault::AlikeNames { at });
    }
    let layout = laid_out(alloc, text, program, &names)?;
    check_size(program, &layout)?;
    let bytes = assembled(alloc, text, program, &names, &layout)?;
    if is_drawn(alloc, text, program, &layout.parts, &bytes)? {
        Ok(bytes)
    } else {
        Err(DrawFault::NotFaithful)
    }
}

/// Draws a program in Structured Text as a ladder diagram: a program text whose scan does what the statements do.
///
/// # Errors
///
/// The faults of `read_st_program`; a drawing that is too large for a program; and a drawing that isn't found to do what the
/// statements do, which is a fault of this library.
pub fn draw(alloc: Global, text: &[u8]) -> Result<Drawn, DrawFault>
    ensures read { IfOk result (λ x. IsStProgram text.now x.program) }
    ensures drawn { IfOk result (λ x. IsDrawn text.now x.program x.bytes.items) }
{
    let program = match read_st_program(alloc, text) {
        Ok(program) => program,
        Err(fault) => return Err(DrawFault::Text(fault)),
    };
    let bytes = drawing_of(alloc, text, &program)?;
    Ok(Drawn { program, bytes })
}
