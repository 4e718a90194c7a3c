//! Why what is asked of runs is refused.

ghost use Rattle.std.specs.Prelude.{◌≡◌, slice_index_or, false, map};
ghost use Rattle.std.specs.List.{list_all};
ghost use Rattle.diagram_declarations.specs.Decls.{is_input};
ghost use Rattle.causes_query.specs.Refusal.{has_repetition};
ghost use Rattle.cli_reach.specs.Asking.{is_written, question_of, refusal};

use crate::asking::Asked;
use causes_query::CauseFault;
use diagram_declarations::Symbol;
use diagram_program::Program;
use reach_runs::Literal;

/// Whether a coil writes the variable; the output of an instance is written where it is drawn.
fn is_written(program: &Program, symbol: Symbol) -> bool
    ensures { result ≡ is_written program.now symbol }
{
    match symbol {
        Symbol::Var(var) => program.has_coil(var),
        Symbol::Instance(_) => true,
    }
}

/// Whether all that is to be ON is written.
fn are_written(program: &Program, target: &[Literal]) -> bool
    ensures { result ≡ list_all (λ literal. is_written program.now literal.symbol) target.now }
{
    target
        .iter()
        .all(|literal| is_written(program, literal.symbol))
}

/// Whether this is the number of an input.
fn is_input(program: &Program, var: usize) -> bool
    ensures { result ≡ slice_index_or (map is_input program.now.decls.vars) var false }
{
    match program.decls().vars().get(var) {
        Some(var) => var.is_input(),
        None => false,
    }
}

/// Whether all are numbers of inputs.
fn are_inputs(program: &Program, listed: &[usize]) -> bool
    ensures { result ≡ list_all (λ var. slice_index_or (map is_input program.now.decls.vars) var false) listed.now }
{
    listed.iter().all(|var| is_input(program, *var))
}

/// Whether one is listed twice.
fn has_repetition(mut listed: &[usize]) -> bool
    ensures { result ≡ has_repetition listed.entry.now }
{
    while let [var, rest @ ..] = listed {
        if rest.contains(var) {
            return true;
        }
        listed = rest;
    }
    false
}

/// The first rule that what is asked breaks.
pub(crate) fn refusal(asked: &Asked) -> Option<CauseFault>
    ensures { result ≡ refusal (question_of asked.now) }
{
    let program = &asked.program;
    if asked.from < asked.state.moment() {
        return Some(CauseFault::MomentBack);
    }
    if !are_written(program, &asked.target) {
        return Some(CauseFault::NotACoil);
    }
    if !are_inputs(program, &asked.inputs) {
        return Some(CauseFault::NotAnInput);
    }
    if has_repetition(&asked.inputs) {
        return Some(CauseFault::RepeatedInput);
    }
    None
}
