//! What a request for a run asks.

ghost use Rattle.std.specs.Prelude.{◌≡◌, IfErr, IfOk, map, string_bytes};
ghost use Rattle.scan_cycle.specs.Standing.{Fits};
ghost use Rattle.assume_reading.specs.Several.{AreAssumptions};
ghost use Rattle.reach_runs.specs.Asking.{question_of as run_question};
ghost use Rattle.cli_inputs.specs.Setting.{given_by};
ghost use Rattle.cli_assumed.specs.Assumed.{MayBeTrue};
ghost use Rattle.cli_reach.specs.Asking.{HasExpressionFault, HasReachFault, IsAskedBy, question_of, timing_of};

use crate::naming::{inputs_of, target_of};
use cli_arguments::{Pace, ReachRequest};
use cli_assumed::{check_satisfiable, read_assumed};
use cli_inputs::{Setting, Texts, ToolFault, moment, read_setting};
use diagram_program::Program;
use reach_runs::{Literal, RunQuery, Timing};
use scan_cycle::State;
use st_expression::Expression;
use std::alloc::Global;

/// What is asked: of which program in which state, from which moment on, when the scans are, which inputs change, what is to be ON, and what is
/// assumed of the inputs of each scan.
#[derive(Drop)]
pub(crate) struct Asked {
    pub program: Program,
    pub state: State,
    pub from: u64,
    pub timing: Timing,
    pub inputs: Vec<usize>,
    pub target: Vec<Literal>,
    pub assumed: Option<Expression>,
}

impl Asked {
    /// The question to the runs.
    pub(crate) fn query(&self) -> RunQuery<'_>
        ensures { run_question result ≡ question_of self.now }
    {
        let assumed = self.assumed.as_ref();
        RunQuery {
            program: &self.program,
            state: &self.state,
            from: self.from,
            timing: self.timing,
            listed: &self.inputs,
            target: &self.target,
            assumed,
        }
    }
}

/// When the scans are.
fn timing_of(pace: Pace) -> Timing
    ensures { result ≡ timing_of pace }
{
    match pace {
        Pace::AnyMoments { .. } => Timing::AnyMoments,
        Pace::Every { every, .. } => Timing::Every(every),
    }
}

/// Reads what is assumed of the inputs of each scan, and refuses what no inputs make true.
///
/// # Errors
///
/// A fault of the first expression that is refused, or else `NeverTrue`, or `Memory`.
fn assumed_of(
    alloc: Global,
    program: &Program,
    request: &ReachRequest,
) -> Result<Option<Expression>, ToolFault>
    ensures read { IfOk result (λ assumed. AreAssumptions program.now.decls (map string_bytes request.now.assumed.items) assumed) }
    ensures may { IfOk result (λ assumed. MayBeTrue assumed) }
    ensures fault { IfErr result (HasExpressionFault program.now.decls request.now) }
{
    let expressions = request.assumed.as_slice();
    let assumed = match read_assumed(alloc, program, expressions) {
        Ok(assumed) => assumed,
        Err(fault) => return Err(fault),
    };
    match check_satisfiable(alloc, assumed.as_ref()) {
        Ok(()) => Ok(assumed),
        Err(fault) => Err(fault),
    }
}

/// Reads the texts, the names and the expressions of a request.
///
/// # Errors
///
/// A fault of the program text or of the state text, or else of a name, or else of the expressions.
pub(crate) fn read_asked(
    alloc: Global,
    request: &ReachRequest,
    texts: &Texts,
) -> Result<Asked, ToolFault>
    ensures fits { IfOk result (λ a. Fits a.program a.state) }
    ensures asked { IfOk result (λ a. IsAskedBy (given_by texts.now) request.now (question_of a)) }
    ensures fault { IfErr result (HasReachFault (given_by texts.now) request.now) }
{
    let Setting { program, state } = match read_setting(alloc, texts) {
        Ok(setting) => setting,
        Err(fault) => return Err(fault),
    };
    let target = match target_of(alloc, program.decls(), request) {
        Ok(target) => target,
        Err(fault) => return Err(fault),
    };
    let inputs = match inputs_of(alloc, program.decls(), request) {
        Ok(inputs) => inputs,
        Err(fault) => return Err(fault),
    };
    match assumed_of(alloc, &program, request) {
        Ok(assumed) => {
            let from = moment(request.moment, state.moment());
            Ok(Asked {
                program,
                state,
                from,
                timing: timing_of(request.pace),
                inputs,
                target,
                assumed,
            })
        }
        Err(fault) => Err(fault),
    }
}
