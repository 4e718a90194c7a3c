//! A state that may leave the coil at the sought value, and whether it does.

ghost use Rattle.std.specs.Prelude.{◌≡◌, ◌<◌, ◌≤◌, ℕ, IsTrue, Some, length, map, option_map, slice_index_or};
ghost use Rattle.diagram_declarations.specs.Decls.{is_input};
ghost use Rattle.causes_query.specs.Assignment.{input_variables};
ghost use Rattle.scan_cycle.specs.Standing.{Fits, Standing};
ghost use Rattle.causes_any_state.specs.Numbers.{HasBits};
ghost use Rattle.causes_any_state.specs.Possible.{AreStatesOf, SomeLeavesBy};
ghost use Rattle.causes_any_state.specs.Searching.{IsTried};
ghost use Rattle.causes_any_state.specs.declared.content.TheConstants.{MOMENT};

use crate::assumed::is_true;
use crate::content::{MOMENT, content};
use crate::numbers::prefix_bit;
use crate::query::{StateQuery, Tried};
use crate::states::counts;
use diagram_program::Program;
use invariant_cases::Outcome;
use invariant_cases::pinning::answer;
use scan_cycle::{State, scan};
use scan_partial::{Keep, Knowledge};
use scan_signals::Tri;
use st_expression::Expression;

/// Gives each variable a value that is allowed by what is known: of a listed input its bit, of another one ON where it must be.
fn set_values(asked: StateQuery<'_>, case: &Knowledge<Tri, Outcome>, state: &mut State)
    requires few { length asked.listed.now ≤ 64 }
    requires fits { Fits asked.program.now state.old }
    ensures fits { Fits asked.entry.program.now state.new }
    ensures moment { state.new.moment ≡ state.old.moment }
    ensures bits { HasBits asked.entry.listed.now asked.entry.number state.new.held.values }
{
    for var in 0..asked.program.decls().vars().len() {
        let value = match prefix_bit(asked.listed, var, 0, asked.number) {
            Some(bit) => bit,
            None => case.value(var) == Tri::On,
        };
        state.set_value(var, value);
    }
}

/// Sets each memory that must be ON.
fn set_memories(program: &Program, case: &Knowledge<Tri, Outcome>, state: &mut State)
    requires fits { Fits program.now state.old }
    ensures fits { Fits program.now state.new }
    ensures moment { state.new.moment ≡ state.old.moment }
    ensures values { state.new.held.values ≡ state.old.held.values }
{
    for number in 0..program.memories() {
        state.set_memory(number, case.memory(Some(number)) == Tri::On);
    }
}

/// Gives each instance a content with the Q and the answer that are known.
fn set_blocks(program: &Program, case: &Knowledge<Tri, Outcome>, state: &mut State)
    requires fits { Fits program.now state.old }
    requires moment { state.old.moment ≡ MOMENT }
    ensures fits { Fits program.now state.new }
    ensures moment { state.new.moment ≡ MOMENT }
    ensures values { state.new.held.values ≡ state.old.held.values }
{
    let instances = program.decls().instances();
    for inst in 0..instances.len() {
        state.checked();
        let kind = instances[inst].kind;
        let preset = instances[inst].preset;
        let q = case.kept(inst).q() == Tri::On;
        state.set_block(inst, content(kind, preset, answer(inst, case), q));
    }
}

/// Whether the state counts, what is assumed is true in it, and one scan of it with the number's assignment leaves the coil's variable at the
/// sought value. `scanned` is written over.
fn leaves_sought(
    asked: StateQuery<'_>,
    assumed: Option<&Expression>,
    inputs: &[usize],
    state: &State,
    scanned: &mut State,
) -> bool
    requires coil { asked.coil < length asked.program.now.decls.vars }
    requires states { AreStatesOf asked.program.now asked.states.now }
    requires inputs { inputs.now ≡ input_variables (map is_input asked.program.now.decls.vars) }
    requires fits { Fits asked.program.now state.now }
    requires moment { state.now.moment ≡ MOMENT }
    requires bits { HasBits asked.listed.now asked.number state.now.held.values }
    requires scanned { Fits asked.program.now scanned.old }
    ensures found { IsTrue result → SomeLeavesBy (option_map (λ e. e.now) assumed.entry) asked.entry.program.now asked.entry.coil asked.entry.listed.now asked.entry.states.now asked.entry.sought asked.entry.number }
    ensures scanned { Fits asked.entry.program.now scanned.new }
{
    state.checked();
    scanned.checked();
    if !counts(asked.program, asked.states, asked.coil, state) {
        return false;
    }
    if !is_true(assumed, inputs, state) {
        return false;
    }
    scanned.copy_from(state);
    match scan(asked.program, scanned, &[], MOMENT) {
        Ok(()) => scanned.value(asked.coil) == asked.sought,
        Err(_) => false,
    }
}

/// Makes a state that is allowed by what is known, and tries whether it leaves the coil at the sought value.
pub(crate) fn is_found(
    asked: StateQuery<'_>,
    assumed: Option<&Expression>,
    inputs: &[usize],
    case: &Knowledge<Tri, Outcome>,
    tried: &mut Tried,
) -> bool
    requires few { length asked.listed.now ≤ 64 }
    requires coil { asked.coil < length asked.program.now.decls.vars }
    requires states { AreStatesOf asked.program.now asked.states.now }
    requires inputs { inputs.now ≡ input_variables (map is_input asked.program.now.decls.vars) }
    requires tried { IsTried asked.program.now tried.old }
    ensures found { IsTrue result → SomeLeavesBy (option_map (λ e. e.now) assumed.entry) asked.entry.program.now asked.entry.coil asked.entry.listed.now asked.entry.states.now asked.entry.sought asked.entry.number }
    ensures tried { IsTried asked.entry.program.now tried.new }
{
    set_values(asked, case, &mut tried.state);
    set_memories(asked.program, case, &mut tried.state);
    set_blocks(asked.program, case, &mut tried.state);
    leaves_sought(asked, assumed, inputs, &tried.state, &mut tried.scanned)
}
