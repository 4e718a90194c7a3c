//! A state of one program, carried over to another.

ghost use Rattle.std.specs.Prelude.{◌≡◌, ◌<◌, IfOk, false, length};
ghost use Rattle.std.specs.List.{All};
ghost use Rattle.diagram_declarations.specs.declared.kind.BlockKind.TheVariants.{Ton};
ghost use Rattle.scan_signals.specs.Blocks.{new_block};
ghost use Rattle.scan_cycle.specs.Standing.{Fits, with_blocks, with_memories, with_values};
ghost use Rattle.diff_matching.specs.Carried.{CanCarry, IsCarried};
ghost use Rattle.diff_matching.specs.Suited.{AreOnce};
ghost use Rattle.diff_matching.specs.Writing.{AreInstances, IsWritten};

use crate::matching::{Matching, Pair};
use diagram_program::Program;
use scan_cycle::{Memory, State};
use std::alloc::Global;

/// Gives variables the values that those of the other state have.
fn carry_values(pairs: &[Pair], from: &State, to: &mut State)
    requires there { All (λ x. x.new < length to.old.held.values) pairs.now }
    requires once { AreOnce pairs.now }
    ensures written { IsWritten false pairs.now from.now.held.values to.old.held.values to.new.held.values }
    ensures others { to.new ≡ with_values to.old to.new.held.values }
{
    for pair in pairs {
        to.set_value(pair.new, from.value_or_off(pair.old));
    }
}

/// Makes instances store what those of the other state store.
fn carry_blocks(pairs: &[Pair], from: &State, to: &mut State)
    requires instances { AreInstances pairs.now from.now to.old }
    requires once { AreOnce pairs.now }
    requires moment { to.old.moment ≡ from.now.moment }
    ensures written { IsWritten (new_block Ton) pairs.now from.now.held.kept.blocks to.old.held.kept.blocks to.new.held.kept.blocks }
    ensures others { to.new ≡ with_blocks to.old to.new.held.kept.blocks }
{
    from.checked();
    for pair in pairs {
        to.set_block(pair.new, from.stored(pair.old));
    }
}

/// Gives memories the values that those of the other state have.
fn carry_memories(pairs: &[Pair], from: &State, to: &mut State)
    requires there { All (λ x. x.new < length to.old.held.kept.memories) pairs.now }
    requires once { AreOnce pairs.now }
    ensures written { IsWritten false pairs.now from.now.held.kept.memories to.old.held.kept.memories to.new.held.kept.memories }
    ensures others { to.new ≡ with_memories to.old to.new.held.kept.memories }
{
    for pair in pairs {
        to.set_memory(pair.new, from.storage().memory_at(pair.old));
    }
}

/// The state of NEW in which what belongs together is as in a state of OLD.
///
/// # Errors
///
/// `Memory` when out of memory.
pub fn carry(
    alloc: Global,
    matching: &Matching,
    new: &Program,
    state: &State,
) -> Result<State, Memory>
    requires { CanCarry matching.now new.now state.now }
    ensures fits { IfOk result (λ t. Fits new.now t) }
    ensures carried { IfOk result (λ t. IsCarried matching.now new.now state.now t) }
{
    state.checked();
    let mut carried = State::fresh(alloc, new)?;
    carried.set_moment(state.moment());
    carry_values(matching.inputs(), state, &mut carried);
    carry_values(matching.variables(), state, &mut carried);
    carry_blocks(matching.instances(), state, &mut carried);
    carry_memories(matching.memories(), state, &mut carried);
    Ok(carried)
}
