//! The inputs of one scan with the assignment of a number.

ghost use Rattle.std.specs.Prelude.{◌≡◌, All, IfErr, IfOk, None};
ghost use Rattle.scan_cycle.specs.Programs.{diagram_of};
ghost use Rattle.scan_cycle.specs.Standing.{Fits};
ghost use Rattle.causes_query.specs.Assignment.{assignment};
ghost use Rattle.causes_query.specs.Causes.{question};
ghost use Rattle.causes_query.specs.Refusal.{reason, scan_refusal};
ghost use Rattle.causes_query.specs.Sources.{IsShort, image_of};

use crate::fault::CauseFault;
use crate::refusal::list_refusal;
use crate::source::{InputSource, bit, sources};
use diagram_program::Program;
use scan_cycle::State;
use std::alloc::{AllocError, Global};

/// The values of all inputs for a number, in order of declaration.
fn image(alloc: Global, sources: &[InputSource], number: u64) -> Result<Vec<bool>, AllocError>
    requires { All IsShort sources.now }
    ensures { IfOk result (λ v. v.items ≡ image_of number sources.now) }
{
    sources
        .iter()
        .map(|source| bit(*source, number))
        .collect(alloc)
}

/// The inputs of a scan with the assignment of a number, in order of declaration: the listed ones have its bits, the first one the most
/// significant, and the others keep their stored values. `listed` has numbers of variables, in order of declaration; `now` is the moment
/// of the scan, in milliseconds.
///
/// # Errors
///
/// The first of the rules C1 and C3 to C6 that is broken, C6 where `number` isn't below 2 ^ k for k listed inputs; or `Memory` when out of
/// memory.
pub fn assignment(
    alloc: Global,
    program: &Program,
    state: &State,
    now: u64,
    listed: &[usize],
    number: u64,
) -> Result<Vec<bool>, CauseFault>
    requires { Fits program.now state.now }
    ensures inputs { IfOk result (λ v. v.items ≡ assignment (diagram_of program.now).inputs listed.now number state.now.held.values) }
    ensures accepted { IfOk result (λ _. scan_refusal (question program.now state.now now 0 listed.now) number ≡ None) }
    ensures refused { IfErr result (λ e. scan_refusal (question program.now state.now now 0 listed.now) number ≡ reason e) }
{
    if now < state.moment() {
        return Err(CauseFault::MomentBack);
    }
    if let Some(fault) = list_refusal(program, listed, Some(number)) {
        return Err(fault);
    }
    let Ok(sources) = sources(alloc, program.decls().vars(), listed, state) else {
        return Err(CauseFault::Memory);
    };
    match image(alloc, &sources, number) {
        Ok(inputs) => Ok(inputs),
        Err(_) => Err(CauseFault::Memory),
    }
}
