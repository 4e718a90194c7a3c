//! Refusing what is assumed of the inputs where no values of them make it true, whatever inputs are listed.

ghost use Rattle.std.specs.Prelude.{IfErr, IfOk, option_map};
ghost use Rattle.cli_assumed.specs.Assumed.{HasTruthFault, MayBeTrue};

use assume_possible::is_satisfiable;
use cli_inputs::ToolFault;
use st_expression::Expression;
use std::alloc::Global;

/// Refuses what is assumed where no values of the inputs make it true, of those listed and the others alike.
///
/// # Errors
///
/// `NeverTrue` where that is so, or `Memory` when out of memory.
pub fn check_satisfiable(alloc: Global, assumed: Option<&Expression>) -> Result<(), ToolFault>
    ensures satisfiable { IfOk result (λ _. MayBeTrue (option_map (λ e. e.now) assumed.entry)) }
    ensures refused { IfErr result (HasTruthFault (option_map (λ e. e.now) assumed.entry)) }
{
    let Some(expression) = assumed else {
        return Ok(());
    };
    match is_satisfiable(alloc, expression) {
        Ok(true) => Ok(()),
        Ok(false) => Err(ToolFault::NeverTrue),
        Err(_) => Err(ToolFault::Memory),
    }
}
