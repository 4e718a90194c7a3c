//! Reads a program whose declarations have their aliases for titles.

ghost use Rattle.std.specs.Prelude.{IfOk, IfErr};
ghost use Rattle.diagram_reader.specs.Titled.{IsTitledProgram, IsRightTitled};

use crate::build::read_sites;
use crate::fault::GridFault;
use crate::grid_rule::Stop;
use crate::read::{behind, fault_of};
use diagram_declarations::{TitleFault, read_decls, take_aliases};
use diagram_program::Program;
use std::alloc::Global;
use thiserror::Error;

/// Why a text is no program with titles.
#[derive(Clone, Copy, Debug, PartialEq, Eq, Error)]
pub enum TitledFault {
    /// It is no program.
    #[error("{0}")]
    Grid(GridFault),
    /// It is one, and an alias of it is taken.
    #[error("{0}")]
    Title(TitleFault),
}

/// Reads the program of a text. Lists and traces call its variables and instances by their aliases, where they have one.
///
/// # Errors
///
/// The faults of `read_program`; and then A1 where an alias is the name or the alias of another declaration.
pub fn read_titled_program(alloc: Global, text: &[u8]) -> Result<Program, TitledFault>
    ensures found { IfOk result (IsTitledProgram text.now) }
    ensures refused { IfErr result (IsRightTitled text.now) }
{
    let (mut decls, place) = match read_decls(alloc, text) {
        Ok(read) => read,
        Err(fault) => return Err(TitledFault::Grid(GridFault::Vars(fault))),
    };
    let (rungs, sites) = match read_sites(alloc, &decls, behind(text, place)) {
        Ok(read) => read,
        Err(stop) => return Err(TitledFault::Grid(fault_of(text, place, stop))),
    };
    if let Err(fault) = take_aliases(text, &mut decls) {
        return Err(TitledFault::Title(fault));
    }
    match Program::new(alloc, decls, rungs, sites) {
        Ok(program) => Ok(program),
        Err(_) => Err(TitledFault::Grid(fault_of(text, place, Stop::NoMemory))),
    }
}
