//! What is assumed of the inputs of two programs.

ghost use Rattle.std.specs.Prelude.{◌≡◌, IfOk, option_map};
ghost use Rattle.invariant_sets.specs.Invariants.{input_numbers};
ghost use Rattle.diff_cases.specs.Assuming.{assumed_of_both};
ghost use Rattle.cli_assumed_both.specs.Together.{assumption_read};
ghost use Rattle.cli_verdicts.specs.Ending.{assumed_where, assumption_of};

use causes_query::source::input_variables;
use cli_diff::ReadAssumed;
use diagram_program::Program;
use diff_cases::Assumptions;
use invariant_cases::Assumption;
use scan_cycle::Memory;
use st_expression::Expression;
use std::alloc::Global;

/// What is assumed of two programs: of each an expression over its own inputs, where there is one. An operand of it is an input, by its place in
/// order of declaration.
#[derive(Clone, Copy)]
pub(crate) struct AssumedOfBoth<'a> {
    pub old: Option<&'a Expression>,
    pub new: Option<&'a Expression>,
    /// Of how many expressions it is made.
    pub expressions: u64,
}

/// What was read, as the judging takes it.
pub(crate) fn as_assumed(read: &Option<ReadAssumed>) -> Option<AssumedOfBoth<'_>>
    ensures { assumption_of result ≡ option_map assumption_read read.now }
{
    match read {
        Some(read) => Some(AssumedOfBoth {
            old: read.old.as_ref(),
            new: read.new.as_ref(),
            expressions: read.expressions,
        }),
        None => None,
    }
}

/// The numbers of the inputs' variables in each program, in order of declaration.
#[derive(Drop)]
pub(crate) struct InputsOfBoth {
    pub old: Vec<usize>,
    pub new: Vec<usize>,
}

/// The numbers of the inputs' variables of a program.
#[tactic(auto, using(crate::proofs::Inputs::numbers_of))]
fn inputs_of(alloc: Global, program: &Program) -> Result<Vec<usize>, Memory>
    ensures { IfOk result (λ v. v.items ≡ input_numbers program.now) }
{
    match input_variables(alloc, program.decls().vars()) {
        Ok(inputs) => Ok(inputs),
        Err(_) => Err(Memory),
    }
}

/// Those of both.
pub(crate) fn inputs_of_both(
    alloc: Global,
    old: &Program,
    new: &Program,
) -> Result<InputsOfBoth, Memory>
    ensures old { IfOk result (λ b. b.old.items ≡ input_numbers old.now) }
    ensures new { IfOk result (λ b. b.new.items ≡ input_numbers new.now) }
{
    let of_old = match inputs_of(alloc, old) {
        Ok(inputs) => inputs,
        Err(_) => return Err(Memory),
    };
    match inputs_of(alloc, new) {
        Ok(of_new) => Ok(InputsOfBoth {
            old: of_old,
            new: of_new,
        }),
        Err(_) => {
            drop(of_old);
            Err(Memory)
        }
    }
}

/// What is assumed, over these inputs.
pub(crate) fn assumptions<'a>(
    assumed: Option<AssumedOfBoth<'a>>,
    inputs: &'a InputsOfBoth,
    old: &Program,
    new: &Program,
) -> Assumptions<'a>
    requires old { inputs.now.old.items ≡ input_numbers old.now }
    requires new { inputs.now.new.items ≡ input_numbers new.now }
    ensures { assumed_of_both result ≡ assumed_where (assumption_of assumed.entry) old.now new.now }
{
    let _old = old;
    let _new = new;
    match assumed {
        Some(assumed) => Assumptions {
            of_old: Assumption {
                inputs: &inputs.old,
                expression: assumed.old,
            },
            of_new: Assumption {
                inputs: &inputs.new,
                expression: assumed.new,
            },
        },
        None => Assumptions::nothing(),
    }
}
