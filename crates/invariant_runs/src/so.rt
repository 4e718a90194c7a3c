//! Whether it is so in a state what stays so.

ghost use Rattle.std.specs.Prelude.{◌≡◌, ◌<◌, ℕ, Bool, IsTrue, false, length, slice_index_or};
ghost use Rattle.diagram_declarations.specs.declared.kind.BlockKind.TheVariants.{Ton};
ghost use Rattle.scan_signals.specs.Blocks.{new_block, q_of};
ghost use Rattle.scan_signals.specs.Three.{three_known};
ghost use Rattle.invariant_sets.specs.Never.{IsSo, claims};
ghost use Rattle.invariant_runs.specs.Staying.{IsStayingOf, StaysSo};

use diagram_program::Program;
use invariant_sets::{Set, Staying};
use scan_cycle::State;
use scan_signals::Tri;

/// Whether it may have the value by what is claimed of it.
fn allows(claim: Tri, value: bool) -> bool
    ensures { IsTrue result → (claimed : Bool) → claim ≡ three_known claimed → value ≡ claimed }
{
    match claim {
        Tri::On => value,
        Tri::Off => !value,
        Tri::Unsure => true,
    }
}

/// Whether each of the first variables has the value that the set claims.
fn are_variables_so(set: &Set, variables: usize, state: &State) -> bool
    ensures { IsTrue result → (var : ℕ) → var < variables → (value : Bool) → claims set.now.variables var ≡ three_known value
        → slice_index_or state.now.held.values var false ≡ value }
{
    for var in 0..variables {
        if !allows(set.of_variable(var), state.value_or_off(var)) {
            return false;
        }
    }
    true
}

/// Whether the Q of each of the first instances has the value that the set claims.
fn are_instances_so(set: &Set, instances: usize, state: &State) -> bool
    ensures { IsTrue result → (inst : ℕ) → inst < instances → (value : Bool) → claims set.now.instances inst ≡ three_known value
        → q_of (slice_index_or state.now.held.kept.blocks inst (new_block Ton)) ≡ value }
{
    for inst in 0..instances {
        if !allows(set.of_instance(inst), state.stored(inst).q()) {
            return false;
        }
    }
    true
}

/// Whether all that the set claims is so.
fn is_so(program: &Program, set: &Set, state: &State) -> bool
    requires variables { length set.now.variables ≡ length program.now.decls.vars }
    requires instances { length set.now.instances ≡ length program.now.decls.instances }
    ensures { IsTrue result → IsSo set.now state.now.held }
{
    let decls = program.decls();
    are_variables_so(set, decls.vars().len(), state)
        && are_instances_so(set, decls.instances().len(), state)
}

/// Whether it is so what stays so.
pub fn stays_so(program: &Program, staying: &Staying, state: &State) -> bool
    requires { IsStayingOf program.now staying.now }
    ensures { IsTrue result → StaysSo staying.now state.now.held }
{
    is_so(program, &staying.steady, state) && staying.apart.are_apart(state)
}
