//! What is known is filled in by what a state stores.

ghost use Rattle.std.specs.Prelude.{◌≡◌, ℕ, length, map, slice_index_or, IfOk};

use crate::keep::Keep;
use scan_cycle::{Memory, State};
use scan_signals::{Operations, Signal};
use std::alloc::Global;

/// Gives all items of a buffer the same value.
fn fill<T: Copy>(items: &mut [T], item: T)
    ensures { (i : ℕ) → slice_index_or items.new i item ≡ item }
{
    for number in 0..items.len() {
        items[number] = item;
    }
}

/// A buffer with the same item at each of this many numbers.
pub(crate) fn filled<T: Copy>(alloc: Global, item: T, count: usize) -> Result<Vec<T>, Memory>
    ensures length { IfOk result (λ v. length v.items ≡ count) }
    ensures each { IfOk result (λ v. (i : ℕ) → slice_index_or v.items i item ≡ item) }
{
    let mut items = vec![in alloc; item; count]?;
    fill(&mut items, item);
    Ok(items)
}

/// What is known of each variable is the value that the state has.
pub(crate) fn know_values<S: Operations>(state: &State, values: &mut [S])
    requires { length values.old ≡ length state.now.held.values }
    ensures { values.new ≡ map S.algebra.known state.now.held.values }
{
    for var in 0..values.len() {
        values[var] = S::known(state.value(var));
    }
}

/// What is known of each memory of an edge is the one that the state has.
pub(crate) fn know_memories<S: Operations>(state: &State, memories: &mut [S])
    requires { length memories.old ≡ length state.now.held.kept.memories }
    ensures { memories.new ≡ map S.algebra.known state.now.held.kept.memories }
{
    for number in 0..memories.len() {
        memories[number] = S::known(state.memory(number));
    }
}

/// What is known of each instance is all that the state stores of it.
pub(crate) fn know_blocks<S: Signal, B: Keep<S>>(state: &State, blocks: &mut [B])
    requires { length blocks.old ≡ length state.now.held.kept.blocks }
    ensures { blocks.new ≡ map B.keeping.stored state.now.held.kept.blocks }
{
    for inst in 0..blocks.len() {
        blocks[inst] = B::stored(state.block(inst));
    }
}

/// Takes the Q of each instance from what is known of it, for contacts to see.
pub(crate) fn take_ends<S: Signal, B: Keep<S>>(blocks: &[B], ends: &mut [S])
    requires { length ends.old ≡ length blocks.now }
    ensures { ends.new ≡ map B.keeping.q blocks.now }
{
    for inst in 0..blocks.len() {
        ends[inst] = blocks[inst].q();
    }
}
