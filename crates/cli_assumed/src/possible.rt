//! Refusing what is assumed of the inputs where nothing makes it true.

ghost use Rattle.std.specs.Prelude.{◌≡◌, ◌≤◌, ◌⊎◌, IfErr, IfOk, length, option_map};
ghost use Rattle.scan_cycle.specs.Standing.{Fits};
ghost use Rattle.causes_query.specs.declared.limit.TheConstants.{LISTED_LIMIT};
ghost use Rattle.cli_inputs.specs.declared.fault.ToolFault.TheVariants.{Cause, NeverTrue};
ghost use Rattle.cli_questions.specs.Query.{question_of};
ghost use Rattle.cli_assumed.specs.Assumed.{IsEverTrue, IsNeverTrue};

use assume_possible::is_possible;
use causes_query::source::sources;
use causes_query::{CauseFault, LISTED_LIMIT};
use cli_inputs::ToolFault;
use cli_questions::ListQuery;
use st_expression::Expression;
use std::alloc::Global;

/// Refuses what is assumed where no combination of the listed inputs makes it true. More inputs than a list may have are refused elsewhere.
pub fn check_possible(
    alloc: Global,
    asked: &ListQuery,
    assumed: Option<&Expression>,
) -> Result<(), ToolFault>
    requires { Fits asked.now.program asked.now.state }
    ensures possible { IfOk result (λ _. length asked.now.inputs.items ≤ LISTED_LIMIT → IsEverTrue (option_map (λ e. e.now) assumed.entry) (question_of asked.now)) }
    ensures refused { IfErr result (λ f. (f ≡ Cause CauseFault.Memory) ⊎ ((f ≡ NeverTrue) × IsNeverTrue (option_map (λ e. e.now) assumed.entry) (question_of asked.now))) }
{
    let Some(expression) = assumed else {
        return Ok(());
    };
    if asked.inputs.len() > LISTED_LIMIT {
        return Ok(());
    }
    let vars = asked.program.decls().vars();
    let Ok(sources) = sources(alloc, vars, &asked.inputs, &asked.state) else {
        return Err(ToolFault::Cause(CauseFault::Memory));
    };
    if is_possible(expression, sources, asked.inputs.len()) {
        return Ok(());
    }
    Err(ToolFault::NeverTrue)
}
