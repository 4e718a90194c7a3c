//! Whether two states agree.

ghost use Rattle.std.specs.Prelude.{◌≡◌, ◌↔◌, IsTrue, false};
ghost use Rattle.diagram_declarations.specs.declared.kind.BlockKind.TheVariants.{Ton};
ghost use Rattle.scan_signals.specs.Blocks.{new_block};
ghost use Rattle.diff_matching.specs.Matching.{Agree, AgreeOnInputs, AreSame};

use crate::matching::{Matching, Pair};
use scan_cycle::State;
use scan_signals::Stored;

/// Whether variables have the same values.
fn are_same_values(pairs: &[Pair], old: &State, new: &State) -> bool
    ensures { IsTrue result ↔ AreSame false pairs.now old.now.held.values new.now.held.values }
{
    for pair in pairs {
        if old.value_or_off(pair.old) != new.value_or_off(pair.new) {
            return false;
        }
    }
    true
}

/// Whether both store the same.
fn is_same(a: Stored, b: Stored) -> bool
    ensures { IsTrue result ↔ (a ≡ b) }
{
    a == b
}

/// Whether instances store the same.
fn are_same_blocks(pairs: &[Pair], old: &State, new: &State) -> bool
    ensures { IsTrue result ↔ AreSame (new_block Ton) pairs.now old.now.held.kept.blocks new.now.held.kept.blocks }
{
    for pair in pairs {
        if !is_same(old.stored(pair.old), new.stored(pair.new)) {
            return false;
        }
    }
    true
}

/// Whether memories are the same.
fn are_same_memories(pairs: &[Pair], old: &State, new: &State) -> bool
    ensures { IsTrue result ↔ AreSame false pairs.now old.now.held.kept.memories new.now.held.kept.memories }
{
    for pair in pairs {
        if old.storage().memory_at(pair.old) != new.storage().memory_at(pair.new) {
            return false;
        }
    }
    true
}

/// Whether two states agree on what belongs together, whatever their inputs are.
pub fn agree_but_inputs(matching: &Matching, old_state: &State, new_state: &State) -> bool
    ensures { IsTrue result ↔ Agree matching.now old_state.now.held new_state.now.held }
{
    are_same_values(matching.variables(), old_state, new_state)
        && are_same_blocks(matching.instances(), old_state, new_state)
        && are_same_memories(matching.memories(), old_state, new_state)
}

/// Whether two states agree on what belongs together, inputs included.
pub fn agree(matching: &Matching, old_state: &State, new_state: &State) -> bool
    ensures { IsTrue result
        ↔ (Agree matching.now old_state.now.held new_state.now.held × AgreeOnInputs matching.now old_state.now.held new_state.now.held) }
{
    are_same_values(matching.inputs(), old_state, new_state)
        && agree_but_inputs(matching, old_state, new_state)
}
