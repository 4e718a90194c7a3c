//! What is said of the first name of a request and of its texts that names nothing.

ghost use Rattle.std.specs.Prelude.{◌↔◌, IsTrue};
ghost use Rattle.cli_inputs.specs.Setting.{given_by};
ghost use Rattle.cli_names.specs.Advice.{Advises, IsMemoryFault, Tells, advice_on, word_advice};

use crate::fault::AdviceFault;
use crate::state::tell_state;
use crate::stimulus::tell_stimulus;
use crate::told::told;
use crate::words::first_unknown;
use cli_arguments::Request;
use cli_inputs::{Texts, ToolFault, read_given_program};
use diagram_declarations::{Decls, VarRule};
use diagram_reader::GridFault;
use io_text::Sink;
use std::alloc::Global;
use text_names::write_unknown;

/// Writes of the first word of a request that names nothing what it may mean. Returns whether there is one.
fn tell_words<W: Sink>(
    alloc: Global,
    decls: &Decls,
    request: &Request,
    writer: &mut W,
) -> Result<bool, AdviceFault>
    ensures { Tells decls.now (word_advice decls.now request.now) (W.log writer.old) (W.log writer.new) result }
{
    match first_unknown(decls, request) {
        Some(word) => told(write_unknown(alloc, decls, word.wanted, word.text, writer)),
        None => Ok(false),
    }
}

/// Writes the advice on a request and its texts by the declarations of their program. Returns whether there is one.
fn tell<W: Sink>(
    alloc: Global,
    decls: &Decls,
    request: &Request,
    texts: &Texts,
    writer: &mut W,
) -> Result<bool, AdviceFault>
    ensures { Tells decls.now (advice_on decls.now request.now (given_by texts.now)) (W.log writer.old) (W.log writer.new) result }
{
    match tell_state(alloc, decls, &texts.state, writer) {
        Ok(false) => {}
        Ok(true) => return Ok(true),
        Err(fault) => return Err(fault),
    }
    match tell_words(alloc, decls, request, writer) {
        Ok(false) => {}
        Ok(true) => return Ok(true),
        Err(fault) => return Err(fault),
    }
    tell_stimulus(alloc, decls, &texts.stimulus, writer)
}

/// Whether memory ran out.
fn is_memory(fault: &ToolFault) -> bool
    ensures { IsTrue result ↔ IsMemoryFault fault.now }
{
    match *fault {
        ToolFault::Grid(GridFault::Vars(fault)) => fault.rule == VarRule::Memory,
        _ => false,
    }
}

/// Writes which word of a request or of its texts names nothing that is wanted there, and which name it may mean: of the state first, then of the
/// words of the request, then of the header of the stimulus; of the first of these alone. Where the program text has a fault, nothing is written.
/// Returns whether something was.
///
/// # Errors
///
/// `Write` where the writer fails; what was written is then a prefix of the advice. `Memory` when out of memory; nothing was written.
pub fn advise<E: Sink>(
    alloc: Global,
    request: &Request,
    texts: &Texts,
    err: &mut E,
) -> Result<bool, AdviceFault>
    ensures { Advises (given_by texts.now) request.now (E.log err.old) (E.log err.new) result }
{
    match read_given_program(alloc, texts) {
        Ok(program) => tell(alloc, program.decls(), request, texts, err),
        Err(fault) => {
            if is_memory(&fault) {
                return Err(AdviceFault::Memory);
            }
            Ok(false)
        }
    }
}
