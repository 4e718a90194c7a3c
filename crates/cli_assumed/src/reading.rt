//! Reading what a request assumes of the inputs.

ghost use Rattle.std.specs.Prelude.{◌≡◌, IfErr, IfOk, map, string_bytes};
ghost use Rattle.assume_reading.specs.Several.{AreAssumptions};
ghost use Rattle.cli_assumed.specs.Assumed.{HasAssumptionFault, IsWordAt, assumption_fault};

use assume_reading::{AssumptionFault, read_assumptions};
use cli_inputs::ToolFault;
use diagram_program::Program;
use st_expression::Expression;
use std::alloc::Global;

/// The fault of a request of which the expression with this number, counted from 1, is refused.
fn assumption_fault(number: usize, fault: AssumptionFault) -> ToolFault
    requires { IsWordAt fault }
    ensures { result ≡ assumption_fault number fault }
{
    match fault {
        AssumptionFault::Memory => ToolFault::Memory,
        AssumptionFault::NotAnInput { start, .. } => ToolFault::NoInput {
            number,
            column: start + 1,
        },
        _ => ToolFault::Assumed { number },
    }
}

/// Reads what a request assumes of the inputs of a program: each expression, joined by AND.
///
/// # Errors
///
/// `Assumed` or `NoInput` with the number of the first expression that is refused, or `Memory`.
pub fn read_assumed(
    alloc: Global,
    program: &Program,
    texts: &[String],
) -> Result<Option<Expression>, ToolFault>
    ensures read { IfOk result (AreAssumptions program.now.decls (map string_bytes texts.now)) }
    ensures fault { IfErr result (HasAssumptionFault program.now.decls (map string_bytes texts.now)) }
{
    match read_assumptions(alloc, program.decls(), texts) {
        Ok(assumed) => Ok(assumed),
        Err(refused) => Err(assumption_fault(refused.number, refused.fault)),
    }
}
