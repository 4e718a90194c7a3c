//! The program and the state that the texts of a request describe, and the moment of the scan that is asked about.

ghost use Rattle.std.specs.Prelude.{◌≡◌, IfErr, IfOk, option_map, unwrap_or, vec_items};
ghost use Rattle.scan_cycle.specs.Standing.{Fits};
ghost use Rattle.diagram_reader.specs.Titled.{HasProgram};
ghost use Rattle.cli_inputs.specs.Setting.{HasProgramFault, HasSettingFault, HasState, HasStateFault, IsSet, given_by};

use crate::fault::ToolFault;
use crate::texts::Texts;
use diagram_program::Program;
use diagram_reader::{TitledFault, read_program, read_titled_program};
use scan_cycle::State;
use std::alloc::Global;
use text_state::read_state;

/// A program, and the state in which its first scan begins.
#[derive(Drop)]
pub struct Setting {
    pub program: Program,
    pub state: State,
}

/// Reads the program text, with aliases for titles where they are to be printed.
///
/// # Errors
///
/// The fault of the text: a rule of the declarations, of an alias or of the drawing, or out of memory.
pub fn read_given_program(alloc: Global, texts: &Texts) -> Result<Program, ToolFault>
    ensures program { IfOk result (HasProgram (given_by texts.now).aliases (given_by texts.now).program) }
    ensures fault { IfErr result (HasProgramFault (given_by texts.now)) }
{
    if texts.aliases {
        return match read_titled_program(alloc, &texts.program) {
            Ok(program) => Ok(program),
            Err(TitledFault::Grid(fault)) => Err(ToolFault::Grid(fault)),
            Err(TitledFault::Title(fault)) => Err(ToolFault::Title(fault)),
        };
    }
    match read_program(alloc, &texts.program) {
        Ok(program) => Ok(program),
        Err(fault) => Err(ToolFault::Grid(fault)),
    }
}

/// The state that a text describes, or the fresh one without a text.
///
/// # Errors
///
/// The fault of the text, or out of memory.
pub fn starting_state(
    alloc: Global,
    program: &Program,
    text: &Option<Vec<u8>>,
) -> Result<State, ToolFault>
    ensures fits { IfOk result (Fits program.now) }
    ensures state { IfOk result (HasState program.now (option_map vec_items text.now)) }
    ensures fault { IfErr result (HasStateFault program.now (option_map vec_items text.now)) }
{
    match text {
        Some(text) => match read_state(alloc, program, text) {
            Ok(state) => Ok(state),
            Err(fault) => Err(ToolFault::State(fault)),
        },
        None => match State::fresh(alloc, program) {
            Ok(state) => Ok(state),
            Err(_) => Err(ToolFault::Memory),
        },
    }
}

/// Reads the program text, and then the state text where there is one.
///
/// # Errors
///
/// The fault of the program text, and otherwise that of the state text.
pub fn read_setting(alloc: Global, texts: &Texts) -> Result<Setting, ToolFault>
    ensures fits { IfOk result (λ s. Fits s.program s.state) }
    ensures set { IfOk result (λ s. IsSet (given_by texts.now) s.program s.state) }
    ensures fault { IfErr result (HasSettingFault (given_by texts.now)) }
{
    let program = match read_given_program(alloc, texts) {
        Ok(program) => program,
        Err(fault) => return Err(fault),
    };
    match starting_state(alloc, &program, &texts.state) {
        Ok(state) => Ok(Setting { program, state }),
        Err(fault) => Err(fault),
    }
}

/// The moment of the scan that is asked about: the one that is given, or else the one of the state.
pub fn moment(asked: Option<u64>, stored: u64) -> u64
    ensures { result ≡ unwrap_or asked stored }
{
    asked.unwrap_or(stored)
}
