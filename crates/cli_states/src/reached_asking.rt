//! What a request for what some state switches on asks of the runs.

ghost use Rattle.std.specs.Prelude.{◌≡◌, IfErr, IfOk, None, option_map};
ghost use Rattle.causes_query.specs.Refusal.{reason, refusal};
ghost use Rattle.scan_cycle.specs.Standing.{Fits};
ghost use Rattle.cli_questions.specs.Query.{question_of};
ghost use Rattle.cli_states.specs.Query.{AsksRuns, at_stored};

use crate::possible_asking::causes_of;
use causes_in_runs::RunCauses;
use causes_query::CauseFault;
use cli_arguments::PossibleRequest;
use cli_questions::ListQuery;
use invariant_sets::laws::allowed_where_given;
use reach_search::Limits;
use st_expression::Expression;
use std::alloc::Global;

/// How many states the search of a row keeps at most, where the request doesn't say it.
const STATES: u64 = 100_000;

/// How far apart the scans of a run are where they can be, in ms. The run itself isn't written.
const GAP: u64 = 10;

/// How far the search of a row goes.
fn limits_of(states: Option<u64>) -> Limits {
    Limits {
        states: states.unwrap_or(STATES) as usize,
        scans: u64::MAX,
        gap: GAP,
    }
}

/// The rows of what is asked, but for those to which no run comes in whose scans what is assumed is true.
pub(crate) fn run_causes_of<'a>(
    alloc: Global,
    request: &PossibleRequest,
    states: Option<u64>,
    asked: &'a ListQuery,
    assumed: Option<&'a Expression>,
) -> Result<RunCauses<'a>, CauseFault>
    requires fits { Fits asked.now.program asked.now.state }
    ensures cursor { IfOk result (λ c. AsksRuns (option_map (λ e. e.now) assumed.entry) request.now (at_stored (question_of asked.now)) c) }
    ensures accepted { IfOk result (λ _. refusal (at_stored (question_of asked.now)) None ≡ None) }
    ensures refused { IfErr result (λ e. refusal (at_stored (question_of asked.now)) None ≡ reason e) }
{
    allowed_where_given(&asked.program);
    let causes = causes_of(alloc, request, false, false, asked, assumed)?;
    match RunCauses::new(alloc, &asked.state, causes, assumed, limits_of(states)) {
        Ok(causes) => Ok(causes),
        Err(_) => Err(CauseFault::Memory),
    }
}
