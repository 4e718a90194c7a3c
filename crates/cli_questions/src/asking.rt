//! What a request for a list of causes asks.

ghost use Rattle.std.specs.Prelude.{◌∷◌, ◌⊎◌, IfErr, IfOk, map, string_bytes};
ghost use Rattle.scan_cycle.specs.Standing.{Fits};
ghost use Rattle.cli_questions.specs.Query.{question_of};
ghost use Rattle.cli_questions.specs.Ending.{HasNameFault, IsAsked, IsNamed, names_of};
ghost use Rattle.cli_inputs.specs.Setting.{HasSettingFault, given_by};

use cli_arguments::ListRequest;
use cli_inputs::{Setting, Texts, ToolFault, asked_variables, moment, read_setting};
use diagram_program::Program;
use scan_cycle::State;
use std::alloc::Global;

/// What is asked: of which program in which state, the moment of the scan, the coil's variable and the listed inputs.
#[derive(Drop)]
pub struct ListQuery {
    pub program: Program,
    pub state: State,
    pub moment: u64,
    pub coil: usize,
    pub inputs: Vec<usize>,
}

/// Reads the program text, the state text where there is one, and the names of the coil and the inputs.
pub fn read_question(
    alloc: Global,
    texts: &Texts,
    asked_moment: Option<u64>,
    coil: &str,
    all_inputs: bool,
    inputs: &[String],
) -> Result<ListQuery, ToolFault>
    ensures fits { IfOk result (λ a. Fits a.program a.state) }
    ensures asked { IfOk result (λ a. IsNamed (given_by texts.now) coil.now asked_moment all_inputs (map string_bytes inputs.now) (question_of a)) }
    ensures fault { IfErr result (λ f. HasSettingFault (given_by texts.now) f ⊎ HasNameFault (given_by texts.now) (coil.now ∷ map string_bytes inputs.now) f) }
{
    let Setting { program, state } = match read_setting(alloc, texts) {
        Ok(setting) => setting,
        Err(fault) => return Err(fault),
    };
    match asked_variables(alloc, program.decls(), coil, all_inputs, inputs) {
        Ok(named) => {
            let moment = moment(asked_moment, state.moment());
            Ok(ListQuery {
                program,
                state,
                moment,
                coil: named.coil,
                inputs: named.inputs,
            })
        }
        Err(fault) => Err(fault),
    }
}

/// Reads what a request asks.
pub fn read_request(
    alloc: Global,
    request: &ListRequest,
    texts: &Texts,
) -> Result<ListQuery, ToolFault>
    ensures fits { IfOk result (λ a. Fits a.program a.state) }
    ensures asked { IfOk result (λ a. IsAsked (given_by texts.now) request.now (question_of a)) }
    ensures fault { IfErr result (λ f. HasSettingFault (given_by texts.now) f ⊎ HasNameFault (given_by texts.now) (names_of request.now) f) }
{
    let (coil, inputs) = (request.coil.as_str(), request.inputs.as_slice());
    read_question(
        alloc,
        texts,
        request.moment,
        coil,
        request.all_inputs,
        inputs,
    )
}
