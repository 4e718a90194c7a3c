//! The sets that removing begins with: what each is in a state, but for inputs and for what changes after random scans.

ghost use Rattle.std.specs.Prelude.{◌≡◌, ◌<◌, ℕ, length, map, false, slice_index_or, if◌then◌else◌, IfOk};
ghost use Rattle.diagram_declarations.specs.declared.kind.BlockKind.TheVariants.{Ton};
ghost use Rattle.diagram_declarations.specs.Decls.{is_input};
ghost use Rattle.scan_signals.specs.Blocks.{q_of, new_block};
ghost use Rattle.scan_cycle.specs.Standing.{Fits};
ghost use Rattle.invariant_sets.specs.Never.{claims, Bits, IsSo, IsSetOf, IsWithin};
ghost use Rattle.invariant_sets.specs.Removing.{IsThinned};
ghost use Rattle.scan_signals.specs.Three.{three_known};
ghost use Rattle.scan_signals.specs.declared.tri.Tri.TheVariants.{Unsure};

use crate::history::History;
use crate::set::Set;
use diagram_declarations::{Symbol, Var};
use diagram_program::Program;
use scan_cycle::{Memory, State};
use scan_signals::{Operations, Tri};
use std::alloc::Global;

/// What a variable is in a state; of an input nothing is claimed.
fn begin_variable(vars: &[Var], state: &State, var: usize) -> Tri
    requires { var < length vars.now }
    ensures { result ≡ (if slice_index_or (map is_input vars.now) var false then Unsure else three_known (slice_index_or state.now.held.values var false)) }
{
    if vars[var].is_input() {
        Tri::Unsure
    } else {
        Tri::known(state.value_or_off(var))
    }
}

/// Claims of each variable but the inputs what it is in the state.
fn begin_variables(vars: &[Var], state: &State, variables: &mut [Tri])
    requires { length variables.old ≡ length vars.now }
    ensures { (var : ℕ) → var < length vars.now
        → claims variables.new var ≡ (if slice_index_or (map is_input vars.now) var false then Unsure else three_known (slice_index_or state.now.held.values var false)) }
{
    for var in 0..variables.len() {
        variables[var] = begin_variable(vars, state, var);
    }
}

/// Claims of the output of each block what it is in the state.
fn begin_instances(state: &State, instances: &mut [Tri])
    ensures { (inst : ℕ) → inst < length instances.old
        → claims instances.new inst ≡ three_known (q_of (slice_index_or state.now.held.kept.blocks inst (new_block Ton))) }
{
    for inst in 0..instances.len() {
        instances[inst] = Tri::known(state.stored(inst).q());
    }
}

/// All that is so in the state, but for inputs: each set that is so in it is within.
pub(crate) fn begin(alloc: Global, program: &Program, state: &State) -> Result<Set, Memory>
    ensures set { IfOk result (λ z. IsSetOf program.now z) }
    ensures so { IfOk result (λ z. IsSo z state.now.held) }
    ensures most { IfOk result (λ z. (other : Bits) → IsSetOf program.now other → IsSo other state.now.held → IsWithin other z) }
{
    let decls = program.decls();
    let mut set = Set::none(alloc, program)?;
    begin_variables(decls.vars(), state, &mut set.variables);
    begin_instances(state, &mut set.instances);
    Ok(set)
}

/// Removes claims of variables that weren't so after each of the random scans, but for those that the other set has.
fn thin_variables(variables: &mut [Tri], alone: &Set, history: &History)
    ensures { IsThinned variables.old variables.new alone.now.variables }
{
    for var in 0..variables.len() {
        let is_on = variables[var] == Tri::On;
        if alone.of_variable(var) == Tri::Unsure && !history.has_only(Symbol::Var(var), is_on) {
            variables[var] = Tri::Unsure;
        }
    }
}

/// Removes claims of Qs that weren't so after each of the random scans, but for those that the other set has.
fn thin_instances(instances: &mut [Tri], alone: &Set, history: &History)
    ensures { IsThinned instances.old instances.new alone.now.instances }
{
    for inst in 0..instances.len() {
        let is_on = instances[inst] == Tri::On;
        if alone.of_instance(inst) == Tri::Unsure
            && !history.has_only(Symbol::Instance(inst), is_on)
        {
            instances[inst] = Tri::Unsure;
        }
    }
}

/// All that is so in the state and was so after each of the random scans, but for inputs, and what the other set claims, which is so there.
pub(crate) fn begin_with(
    alloc: Global,
    program: &Program,
    state: &State,
    history: &History,
    alone: &Set,
) -> Result<Set, Memory>
    requires set { IsSetOf program.now alone.now }
    requires so { IsSo alone.now state.now.held }
    ensures set { IfOk result (λ z. IsSetOf program.now z) }
    ensures so { IfOk result (λ z. IsSo z state.now.held) }
    ensures within { IfOk result (λ z. IsWithin alone.now z) }
{
    let mut set = begin(alloc, program, state)?;
    thin_variables(&mut set.variables, alone, history);
    thin_instances(&mut set.instances, alone, history);
    Ok(set)
}
