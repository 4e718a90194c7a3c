//! The groups of what some state, or every one, switches on.

ghost use Rattle.std.specs.Prelude.{◌≡◌, IfErr, IfOk, None, option_map};
ghost use Rattle.causes_query.specs.Refusal.{reason};
ghost use Rattle.scan_cycle.specs.Standing.{Fits};
ghost use Rattle.cli_questions.specs.Query.{question_of};
ghost use Rattle.cli_states.specs.Query.{AreAskedGroups, at_stored};
ghost use Rattle.cli_states.specs.AnyState.{possible_group_refusal};

use crate::possible_asking::causes_of;
use causes_any_state::{PossibleGroupFault, PossibleGroups};
use causes_query::CauseFault;
use cli_arguments::PossibleRequest;
use cli_questions::ListQuery;
use search_groups::BITS_LIMIT;
use st_expression::Expression;
use std::alloc::Global;

/// The groups of what is asked, of the states with which what is assumed is true.
pub(crate) fn groups_of<'a>(
    alloc: Global,
    request: &PossibleRequest,
    asked: &'a ListQuery,
    assumed: Option<&'a Expression>,
) -> Result<PossibleGroups<'a>, CauseFault>
    requires fits { Fits asked.now.program asked.now.state }
    ensures program { IfOk result (λ c. c.program ≡ asked.now.program) }
    ensures listed { IfOk result (λ c. c.listed ≡ asked.now.inputs.items) }
    ensures rest { IfOk result (λ c. AreAskedGroups (option_map (λ e. e.now) assumed.entry) request.now (at_stored (question_of asked.now)) c.rest) }
    ensures accepted { IfOk result (λ _. possible_group_refusal (at_stored (question_of asked.now)) ≡ None) }
    ensures refused { IfErr result (λ e. possible_group_refusal (at_stored (question_of asked.now)) ≡ reason e) }
{
    if asked.inputs.len() > BITS_LIMIT as usize {
        return Err(CauseFault::TooManyFree);
    }
    let causes = causes_of(alloc, request, request.off, request.must, asked, assumed)?;
    match PossibleGroups::new(alloc, causes) {
        Ok(groups) => Ok(groups),
        Err(PossibleGroupFault::TooManyInputs) => Err(CauseFault::TooManyFree),
        Err(PossibleGroupFault::Memory) => Err(CauseFault::Memory),
    }
}
