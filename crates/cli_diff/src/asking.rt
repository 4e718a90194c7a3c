//! What is asked of two programs.

ghost use Rattle.std.specs.Prelude.{◌≡◌, IfErr, IfOk, List, ℕ, Some, true, length, map, string_bytes, unwrap_or};
ghost use Rattle.scan_cycle.specs.Standing.{Fits};
ghost use Rattle.diff_matching.specs.Carried.{IsCarried};
ghost use Rattle.diff_matching.specs.Matching.{Matching as Matched};
ghost use Rattle.diff_matching.specs.Names.{IsByNames};
ghost use Rattle.cli_questions.specs.Query.{question_of};
ghost use Rattle.cli_inputs.specs.Reports.{HasWordFault};
ghost use Rattle.cli_inputs.specs.Setting.{HasStateFault, given_by};
ghost use Rattle.cli_inputs.specs.Variables.{AreVariables, variable_of};
ghost use Rattle.cli_diff.specs.Asking.{AreAsked, AreListedInBoth, AreSet, HasNewState, number_in};
ghost use Rattle.cli_diff.specs.Faults.{HasOwnFaultOf, HasWordFaultOf, words_of};

use crate::sided::{SidedFault, of};
use crate::texts::DiffTexts;
use cli_arguments::DiffRequest;
use cli_inputs::{
    CauseVariables, Setting, ToolFault, asked_variables, moment, read_given_program, starting_state,
};
use cli_questions::ListQuery;
use diagram_program::Program;
use diff_matching::{Matching, Pair, carry};
use scan_cycle::State;
use search_differences::Side;
use std::alloc::Global;

/// What is asked of both: of which program in which state, the moment of the scan, the coil's variable and the listed inputs.
#[derive(Drop)]
pub struct DiffQuery {
    pub of_old: ListQuery,
    pub of_new: ListQuery,
}

/// Both programs, each with the state in which its scan begins.
#[derive(Drop)]
struct Settings {
    old: Setting,
    new: Setting,
}

/// The state of the old program carried over to the new one, by the names of both.
fn carried(alloc: Global, old: &Setting, new: &Program) -> Result<State, ToolFault>
    requires { Fits old.now.program old.now.state }
    ensures fits { IfOk result (Fits new.now) }
    ensures carried { IfOk result (λ t. (m : Matched) × IsByNames m old.now.program new.now × IsCarried m new.now old.now.state t) }
    ensures fault { IfErr result (λ f. f ≡ ToolFault.Memory) }
{
    let Ok(matching) = Matching::by_names(alloc, &old.program, new) else {
        return Err(ToolFault::Memory);
    };
    let state = carry(alloc, &matching, new, &old.state);
    drop(matching);
    match state {
        Ok(state) => Ok(state),
        Err(_) => Err(ToolFault::Memory),
    }
}

/// The state in which the scan of the new program begins.
fn new_state(
    alloc: Global,
    old: &Setting,
    new: &Program,
    texts: &DiffTexts,
) -> Result<State, ToolFault>
    requires { Fits old.now.program old.now.state }
    ensures fits { IfOk result (Fits new.now) }
    ensures state { IfOk result (HasNewState (given_by texts.now.old).state (given_by texts.now.new).state old.now.program new.now old.now.state) }
    ensures fault { IfErr result (HasStateFault new.now (given_by texts.now.new).state) }
{
    match (&texts.old.state, &texts.new.state) {
        (Some(_), None) => carried(alloc, old, new),
        (None, _) | (Some(_), Some(_)) => starting_state(alloc, new, &texts.new.state),
    }
}

/// Reads the texts of both programs, and then those of their states.
fn read_settings(alloc: Global, texts: &DiffTexts) -> Result<Settings, SidedFault>
    ensures fits_old { IfOk result (λ b. Fits b.old.program b.old.state) }
    ensures fits_new { IfOk result (λ b. Fits b.new.program b.new.state) }
    ensures set { IfOk result (λ b. AreSet (given_by texts.now.old) (given_by texts.now.new) b.old.program b.new.program b.old.state b.new.state) }
    ensures fault { (words : List (List ℕ)) → IfErr result (λ e. HasOwnFaultOf e.side (given_by texts.now.old) (given_by texts.now.new) words e.fault) }
{
    let program = match read_given_program(alloc, &texts.old) {
        Ok(program) => program,
        Err(fault) => return Err(of(Side::Old, fault)),
    };
    let new_program = match read_given_program(alloc, &texts.new) {
        Ok(program) => program,
        Err(fault) => {
            drop(program);
            return Err(of(Side::New, fault));
        }
    };
    let state = match starting_state(alloc, &program, &texts.old.state) {
        Ok(state) => state,
        Err(fault) => {
            drop(new_program);
            drop(program);
            return Err(of(Side::Old, fault));
        }
    };
    let old = Setting { program, state };
    match new_state(alloc, &old, &new_program, texts) {
        Ok(state) => Ok(Settings {
            old,
            new: Setting {
                program: new_program,
                state,
            },
        }),
        Err(fault) => {
            drop(new_program);
            drop(old);
            Err(of(Side::New, fault))
        }
    }
}

/// Which input of a pair is meant.
fn number_in(side: Side, pair: Pair) -> usize
    ensures { result ≡ number_in side pair }
{
    match side {
        Side::Old => pair.old,
        Side::New => pair.new,
    }
}

/// The numbers that pairs have in one of the programs.
fn numbers_in(alloc: Global, side: Side, pairs: &[Pair]) -> Result<Vec<usize>, ToolFault>
    ensures numbers { IfOk result (λ v. v.items ≡ map (number_in side) pairs.now) }
    ensures fault { IfErr result (λ f. f ≡ ToolFault.Memory) }
{
    let mut numbers = Vec::new(alloc);
    for pair in pairs {
        if numbers.push(number_in(side, *pair)).is_err() {
            return Err(ToolFault::Memory);
        }
    }
    Ok(numbers)
}

/// The listed inputs, by their numbers in each program.
#[derive(Drop)]
struct InputNumbers {
    old: Vec<usize>,
    new: Vec<usize>,
}

/// All inputs that both programs have.
fn common_inputs(alloc: Global, old: &Program, new: &Program) -> Result<InputNumbers, ToolFault>
    ensures listed { IfOk result (λ v. (names : List (List ℕ)) → AreListedInBoth old.now new.now true names v.old.items v.new.items) }
    ensures same { IfOk result (λ v. length v.old.items ≡ length v.new.items) }
    ensures fault { IfErr result (λ f. f ≡ ToolFault.Memory) }
{
    let Ok(matching) = Matching::by_names(alloc, old, new) else {
        return Err(ToolFault::Memory);
    };
    let old = match numbers_in(alloc, Side::Old, matching.inputs()) {
        Ok(numbers) => numbers,
        Err(fault) => {
            drop(matching);
            return Err(fault);
        }
    };
    let new = numbers_in(alloc, Side::New, matching.inputs());
    drop(matching);
    match new {
        Ok(new) => Ok(InputNumbers { old, new }),
        Err(fault) => Err(fault),
    }
}

/// The coil and the inputs of a request in one of the programs.
fn named_in(
    alloc: Global,
    program: &Program,
    request: &DiffRequest,
) -> Result<CauseVariables, ToolFault>
    ensures coil { IfOk result (λ a. variable_of program.now.decls (string_bytes request.now.coil) ≡ Some a.coil) }
    ensures inputs { IfOk result (λ a. AreVariables program.now.decls (map string_bytes request.now.inputs.items) a.inputs.items) }
    ensures fault { IfErr result (HasWordFault program.now.decls (words_of request.now)) }
{
    let coil = request.coil.as_str();
    asked_variables(alloc, program.decls(), coil, false, &request.inputs)
}

/// The variables of both programs that a request is about.
#[derive(Drop)]
struct BothVariables {
    old_coil: usize,
    new_coil: usize,
    inputs: InputNumbers,
}

/// The coil and the inputs of a request in both programs.
fn read_variables(
    alloc: Global,
    old: &Program,
    new: &Program,
    request: &DiffRequest,
) -> Result<BothVariables, SidedFault>
    ensures old_on { IfOk result (λ b. variable_of old.now.decls (string_bytes request.now.coil) ≡ Some b.old_coil) }
    ensures new_on { IfOk result (λ b. variable_of new.now.decls (string_bytes request.now.coil) ≡ Some b.new_coil) }
    ensures listed { IfOk result (λ b. AreListedInBoth old.now new.now request.now.all_inputs (map string_bytes request.now.inputs.items) b.inputs.old.items b.inputs.new.items) }
    ensures same { IfOk result (λ b. length b.inputs.old.items ≡ length b.inputs.new.items) }
    ensures fault { IfErr result (λ e. HasWordFaultOf e.side old.now new.now (words_of request.now) e.fault) }
{
    let old_named = match named_in(alloc, old, request) {
        Ok(named) => named,
        Err(fault) => return Err(of(Side::Old, fault)),
    };
    let new_named = match named_in(alloc, new, request) {
        Ok(named) => named,
        Err(fault) => return Err(of(Side::New, fault)),
    };
    let (old_coil, new_coil) = (old_named.coil, new_named.coil);
    if request.all_inputs {
        drop(new_named);
        drop(old_named);
        return match common_inputs(alloc, old, new) {
            Ok(inputs) => Ok(BothVariables {
                old_coil,
                new_coil,
                inputs,
            }),
            Err(fault) => Err(of(Side::New, fault)),
        };
    }
    Ok(BothVariables {
        old_coil,
        new_coil,
        inputs: InputNumbers {
            old: old_named.inputs,
            new: new_named.inputs,
        },
    })
}

/// What is asked of one program.
fn query_of(setting: Setting, asked: Option<u64>, coil: usize, inputs: Vec<usize>) -> ListQuery
    ensures program { result.program ≡ setting.program }
    ensures state { result.state ≡ setting.state }
    ensures at { result.moment ≡ unwrap_or asked setting.state.moment }
    ensures coil { result.coil ≡ coil }
    ensures inputs { result.inputs.items ≡ inputs.items }
{
    let moment = moment(asked, setting.state.moment());
    ListQuery {
        program: setting.program,
        state: setting.state,
        moment,
        coil,
        inputs,
    }
}

/// Reads the texts of a comparison, and the names of the coil and the inputs, in both programs.
///
/// # Errors
///
/// The first fault, and of which program it is: of the old text, of the new one, of the old state, of the new one, of the words in the old
/// program, of those in the new one.
pub fn read_query(
    alloc: Global,
    request: &DiffRequest,
    texts: &DiffTexts,
) -> Result<DiffQuery, SidedFault>
    ensures fits_old { IfOk result (λ a. Fits a.of_old.program a.of_old.state) }
    ensures fits_new { IfOk result (λ a. Fits a.of_new.program a.of_new.state) }
    ensures asked { IfOk result (λ a. AreAsked (given_by texts.now.old) (given_by texts.now.new) request.now (question_of a.of_old) (question_of a.of_new)) }
    ensures same { IfOk result (λ a. length a.of_old.inputs.items ≡ length a.of_new.inputs.items) }
    ensures fault { IfErr result (λ e. HasOwnFaultOf e.side (given_by texts.now.old) (given_by texts.now.new) (words_of request.now) e.fault) }
{
    let settings = match read_settings(alloc, texts) {
        Ok(settings) => settings,
        Err(fault) => return Err(fault),
    };
    let Settings { old, new } = settings;
    match read_variables(alloc, &old.program, &new.program, request) {
        Ok(named) => {
            let BothVariables {
                old_coil,
                new_coil,
                inputs,
            } = named;
            Ok(DiffQuery {
                of_old: query_of(old, request.moment, old_coil, inputs.old),
                of_new: query_of(new, request.moment, new_coil, inputs.new),
            })
        }
        Err(fault) => {
            drop(new);
            drop(old);
            Err(fault)
        }
    }
}
