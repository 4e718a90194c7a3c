//! Why a question has no list of causes, or no scan that can be shown.

ghost use Rattle.std.specs.Prelude.{◌≡◌, ◌==◌, ◌≤◌, IfNone, ℕ, length};
ghost use Rattle.std.specs.List.{list_all, list_any};
ghost use Rattle.causes_query.specs.Causes.{question};
ghost use Rattle.scan_cycle.specs.Standing.{Standing};
ghost use Rattle.causes_query.specs.Refusal.{has_repetition, refusal};
ghost use Rattle.causes_query.specs.Tests.{is_input_variable, list_refusal};
ghost use Rattle.causes_query.specs.declared.limit.TheConstants.{LISTED_LIMIT};

use crate::fault::CauseFault;
use crate::limit::LISTED_LIMIT;
use diagram_program::Program;
use scan_cycle::State;

/// Whether this is the number of a variable that is an input, so that it may be listed.
fn is_input_variable(program: &Program, var: usize) -> bool
    ensures { result ≡ is_input_variable program.now var }
{
    match program.decls().vars().get(var) {
        Some(var) => var.is_input(),
        None => false,
    }
}

/// Whether all listed numbers are those of inputs.
fn are_input_variables(program: &Program, listed: &[usize]) -> bool
    ensures { result ≡ list_all (is_input_variable program.now) listed.now }
{
    listed.iter().all(|var| is_input_variable(program, *var))
}

/// Whether an input is listed twice, so that a combination could give it two values.
fn has_repetition(mut listed: &[usize]) -> bool
    ensures { result ≡ has_repetition listed.entry.now }
{
    while let [var, rest @ ..] = listed {
        if rest.contains(var) {
            return true;
        }
        listed = rest;
    }
    false
}

/// The first rule that the listed inputs break, or that a number breaks which is to be one of their assignments.
pub(crate) fn list_refusal(
    program: &Program,
    listed: &[usize],
    number: Option<u64>,
) -> Option<CauseFault>
    ensures fault { (s : Standing) (now coil : ℕ) → result ≡ list_refusal (question program.now s now coil listed.now) number }
    ensures few { IfNone result (length listed.now ≤ LISTED_LIMIT) }
{
    if listed.len() > LISTED_LIMIT {
        return Some(CauseFault::TooManyFree);
    }
    if !are_input_variables(program, listed) {
        return Some(CauseFault::NotAnInput);
    }
    if has_repetition(listed) {
        return Some(CauseFault::RepeatedInput);
    }
    match number {
        Some(number) if 1 << listed.len() <= number => Some(CauseFault::AfterOutOfRange),
        _ => None,
    }
}

/// The first of the rules C1 to C6 that the question breaks. `now` is the moment of the scan, in milliseconds.
pub fn refusal(
    program: &Program,
    state: &State,
    now: u64,
    coil: usize,
    listed: &[usize],
    after: Option<u64>,
) -> Option<CauseFault>
    ensures { result ≡ refusal (question program.now state.now now coil listed.now) after }
{
    if now < state.moment() {
        return Some(CauseFault::MomentBack);
    }
    if !(coil < program.decls().vars().len() && program.has_coil(coil)) {
        return Some(CauseFault::NotACoil);
    }
    list_refusal(program, listed, after)
}
