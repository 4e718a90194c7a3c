//! What a request for what some state, or every one, switches on asks.

ghost use Rattle.std.specs.Prelude.{◌≡◌, IfErr, IfOk, None, Some, option_map};
ghost use Rattle.causes_query.specs.Refusal.{reason, refusal};
ghost use Rattle.scan_cycle.specs.Standing.{Fits};
ghost use Rattle.cli_questions.specs.Query.{question_of};
ghost use Rattle.cli_states.specs.Query.{AsksFor, at_stored};
ghost use Rattle.cli_states.specs.AnyState.{IsSettledBy, IsStayingBy, claimed, counted};

use causes_any_state::{Before, Claim, PossibleCauses, PossibleQuery, States};
use causes_query::CauseFault;
use causes_query::refusal::refusal;
use causes_query::source::input_variables;
use cli_arguments::PossibleRequest;
use cli_questions::ListQuery;
use diagram_program::Program;
use invariant_cases::Assumption;
use invariant_runs::{staying_in_runs, staying_in_runs_assuming};
use invariant_sets::{PAIR_SCANS, SCANS, Staying};
use scan_cycle::{Memory, State};
use st_expression::Expression;
use std::alloc::Global;

/// How many scans over three values a search for one row makes at most, where the request doesn't say it.
const LOOKS: u32 = 4096;

/// How many scans a search for one row makes at most.
fn looks_of(looks: Option<u64>) -> u32 {
    match looks {
        Some(looks) => u32::try_from(looks).unwrap_or(u32::MAX),
        None => LOOKS,
    }
}

/// Which states count, where this stays so.
fn counted(off: bool, staying: Option<Staying>) -> States
    ensures { result ≡ counted off staying }
{
    if off {
        return States {
            before: Before::Off,
            staying,
        };
    }
    States {
        before: Before::Any,
        staying,
    }
}

/// What a row claims of its number.
fn claim_of(must: bool) -> Claim
    ensures { result ≡ claimed must }
{
    if must { Claim::Forced } else { Claim::Possible }
}

/// What stays so from the state on in runs in whose scans an expression over the inputs is true.
fn staying_where_true(
    alloc: Global,
    program: &Program,
    state: &State,
    assumed: &Expression,
) -> Result<Staying, Memory>
    requires { Fits program.now state.now }
    ensures { IfOk result (λ known. IsSettledBy (Some assumed.now) program.now state.now known) }
{
    let inputs = input_variables(alloc, program.decls().vars())?;
    let assumption = Assumption {
        inputs: &inputs,
        expression: Some(assumed),
    };
    staying_in_runs_assuming(alloc, program, state, assumption, SCANS, PAIR_SCANS)
}

/// What stays so from the state on in runs, where something is assumed of the inputs in those in whose scans it is true.
fn staying_by(
    alloc: Global,
    program: &Program,
    state: &State,
    assumed: Option<&Expression>,
) -> Result<Staying, Memory>
    requires { Fits program.now state.now }
    ensures { IfOk result (λ known. IsSettledBy (option_map (λ e. e.now) assumed.entry) program.now state.now known) }
{
    match assumed {
        Some(assumed) => staying_where_true(alloc, program, state, assumed),
        None => staying_in_runs(alloc, program, state, SCANS, PAIR_SCANS),
    }
}

/// What stays so, where that is asked for.
fn staying_of(
    alloc: Global,
    reachable: bool,
    program: &Program,
    state: &State,
    assumed: Option<&Expression>,
) -> Result<Option<Staying>, Memory>
    requires { Fits program.now state.now }
    ensures { IfOk result (λ staying. IsStayingBy reachable (option_map (λ e. e.now) assumed.entry) program.now state.now staying) }
{
    if !reachable {
        return Ok(None);
    }
    let staying = staying_by(alloc, program, state, assumed)?;
    Ok(Some(staying))
}

/// The rows of what is asked: of all states, or of those in which the coil is OFF, with which what is assumed is true; of some one, or of every one.
pub(crate) fn causes_of<'a>(
    alloc: Global,
    request: &PossibleRequest,
    off: bool,
    must: bool,
    asked: &'a ListQuery,
    assumed: Option<&'a Expression>,
) -> Result<PossibleCauses<'a>, CauseFault>
    requires fits { Fits asked.now.program asked.now.state }
    ensures cursor { IfOk result (λ c. AsksFor (option_map (λ e. e.now) assumed.entry) off must request.now (at_stored (question_of asked.now)) c) }
    ensures accepted { IfOk result (λ _. refusal (at_stored (question_of asked.now)) None ≡ None) }
    ensures refused { IfErr result (λ e. refusal (at_stored (question_of asked.now)) None ≡ reason e) }
{
    let (program, state) = (&asked.program, &asked.state);
    let (coil, inputs) = (asked.coil, &asked.inputs);
    // What is refused needs no search.
    if let Some(fault) = refusal(program, state, state.moment(), coil, inputs, None) {
        return Err(fault);
    }
    let Ok(staying) = staying_of(alloc, request.reachable, program, state, assumed) else {
        return Err(CauseFault::Memory);
    };
    let states = counted(off, staying);
    let query = PossibleQuery {
        coil,
        listed: inputs,
        states,
        claim: claim_of(must),
        looks: looks_of(request.looks),
    };
    PossibleCauses::assuming(alloc, program, state, query, assumed)
}
