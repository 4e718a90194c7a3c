//! Which pairs are marked: both programs store the same of them.

ghost use Rattle.std.specs.Prelude.{◌≡◌, ◌↔◌, IfOk, IsTrue, ℕ, Some, length};
ghost use Rattle.diagram_program.specs.Program.{memory_in};
ghost use Rattle.scan_cycle.specs.Cells.{var_in};
ghost use Rattle.diff_rungs.specs.Marks.{AreAsMany, AreCellsRestored, AreNarrowed, AreRestored, AreSpoiled, HasMark, HaveSameMarks, IsCellSpoiled, IsMarked, IsNarrowed, number_in};

use diagram_program::Cell;
use diff_matching::{Matching, Pair};
use scan_cycle::Memory;
use std::alloc::Global;

/// One of the two programs.
#[derive(Clone, Copy)]
pub(crate) enum Side {
    Old,
    New,
}

/// For each pair whether both programs store the same of it.
#[derive(Drop)]
pub(crate) struct Marks {
    pub(crate) inputs: Vec<bool>,
    pub(crate) variables: Vec<bool>,
    pub(crate) instances: Vec<bool>,
    pub(crate) memories: Vec<bool>,
}

impl Marks {
    /// Those of the beginning, where all that is in a pair is the same.
    pub(crate) fn all(alloc: Global, matching: &Matching) -> Result<Marks, Memory>
        ensures { IfOk result (λ c. AreAsMany matching.now c) }
    {
        Ok(Marks {
            inputs: vec![in alloc; true; matching.inputs().len()]?,
            variables: vec![in alloc; true; matching.variables().len()]?,
            instances: vec![in alloc; true; matching.instances().len()]?,
            memories: vec![in alloc; true; matching.memories().len()]?,
        })
    }

    /// The same marks again.
    pub(crate) fn copy(&self) -> Result<Marks, Memory>
        ensures { IfOk result (λ c. HaveSameMarks self.now c) }
    {
        Ok(Marks {
            inputs: self.inputs.clone()?,
            variables: self.variables.clone()?,
            instances: self.instances.clone()?,
            memories: self.memories.clone()?,
        })
    }
}

/// The number of a pair in one of the programs.
fn number_in(side: Side, pair: Pair) -> usize
    ensures { result ≡ number_in side pair }
{
    match side {
        Side::Old => pair.old,
        Side::New => pair.new,
    }
}

/// Whether it is this number.
fn is_at(at: Option<usize>, number: usize) -> bool
    ensures { IsTrue result ↔ (at ≡ Some number) }
{
    match at {
        Some(place) => place == number,
        None => false,
    }
}

/// Whether the mark with a number is there.
fn has_mark(marks: &[bool], n: usize) -> bool
    ensures { IsTrue result ↔ HasMark marks.now n }
{
    n < marks.len() && marks[n]
}

/// Whether the pair is marked.
pub(crate) fn is_marked(pairs: &[Pair], marks: &[bool], pair: Pair) -> bool
    ensures { IsTrue result → IsMarked pairs.now marks.now pair }
{
    for n in 0..pairs.len() {
        let found = pairs[n];
        if has_mark(marks, n) && found.old == pair.old && found.new == pair.new {
            return true;
        }
    }
    false
}

/// Takes a mark where it is asked for.
fn unmark(marks: &mut Vec<bool>, n: usize, asked: bool)
    ensures many { length marks.new.items ≡ length marks.old.items }
    ensures before { (k : ℕ) → HasMark marks.new.items k → HasMark marks.old.items k }
    ensures taken { IsTrue asked → HasMark marks.new.items n → ⊥ }
{
    if asked && n < marks.len() {
        marks[n] = false;
    }
}

/// Takes the marks of all pairs that have the number in one of the programs.
fn spoil(pairs: &[Pair], marks: &mut Vec<bool>, side: Side, at: Option<usize>)
    ensures many { length marks.new.items ≡ length marks.old.items }
    ensures spoiled { AreSpoiled side at pairs.now marks.old.items marks.new.items }
{
    for n in 0..pairs.len() {
        unmark(marks, n, is_at(at, number_in(side, pairs[n])));
    }
}

/// Marks each pair that has both numbers.
fn restore(pairs: &[Pair], marks: &mut Vec<bool>, old: Option<usize>, new: Option<usize>)
    ensures many { length marks.new.items ≡ length marks.old.items }
    ensures restored { AreRestored old new pairs.now marks.old.items marks.new.items }
{
    for n in 0..pairs.len() {
        if n < marks.len() && is_at(old, pairs[n].old) && is_at(new, pairs[n].new) {
            marks[n] = true;
        }
    }
}

/// Takes the marks that the first list has not, unless `surely`.
fn narrow_list(first: &[bool], marks: &mut Vec<bool>, surely: bool)
    ensures many { length marks.new.items ≡ length marks.old.items }
    ensures narrowed { AreNarrowed surely first.now marks.old.items marks.new.items }
{
    for n in 0..marks.len() {
        unmark(marks, n, !surely && !has_mark(first, n));
    }
}

/// Takes the marks that the first ones have not, unless `surely`.
pub(crate) fn narrow(first: &Marks, marks: &mut Marks, surely: bool)
    ensures { IsNarrowed surely first.now marks.old marks.new }
{
    narrow_list(&first.inputs, &mut marks.inputs, surely);
    narrow_list(&first.variables, &mut marks.variables, surely);
    narrow_list(&first.instances, &mut marks.instances, surely);
    narrow_list(&first.memories, &mut marks.memories, surely);
}

/// The variable that a cell writes.
fn var_in(cell: Cell) -> Option<usize>
    ensures { result ≡ var_in cell }
{
    match cell {
        Cell::Coil { var, .. } => Some(var),
        Cell::Empty
        | Cell::Wire
        | Cell::Contact { .. }
        | Cell::Block { .. }
        | Cell::Lower { .. }
        | Cell::Jump { .. }
        | Cell::Return => None,
    }
}

/// The memory that a cell has.
fn memory_in(cell: Cell) -> Option<usize>
    ensures { result ≡ memory_in cell }
{
    match cell {
        Cell::Contact { memory, .. } | Cell::Coil { memory, .. } => memory,
        Cell::Empty
        | Cell::Wire
        | Cell::Block { .. }
        | Cell::Lower { .. }
        | Cell::Jump { .. }
        | Cell::Return => None,
    }
}

/// Takes the marks of all that a cell of one of the programs writes.
pub(crate) fn spoil_cell(matching: &Matching, marks: &mut Marks, side: Side, cell: Cell)
    ensures { IsCellSpoiled side cell matching.now marks.old marks.new }
{
    spoil(matching.inputs(), &mut marks.inputs, side, var_in(cell));
    spoil(
        matching.variables(),
        &mut marks.variables,
        side,
        var_in(cell),
    );
    spoil(
        matching.instances(),
        &mut marks.instances,
        side,
        cell.block(),
    );
    spoil(
        matching.memories(),
        &mut marks.memories,
        side,
        memory_in(cell),
    );
}

/// Marks what a cell of each of the programs writes, where it is in a pair.
pub(crate) fn restore_cells(matching: &Matching, marks: &mut Marks, old: Cell, new: Cell)
    ensures { AreCellsRestored old new matching.now marks.old marks.new }
{
    restore(
        matching.inputs(),
        &mut marks.inputs,
        var_in(old),
        var_in(new),
    );
    restore(
        matching.variables(),
        &mut marks.variables,
        var_in(old),
        var_in(new),
    );
    restore(
        matching.instances(),
        &mut marks.instances,
        old.block(),
        new.block(),
    );
    restore(
        matching.memories(),
        &mut marks.memories,
        memory_in(old),
        memory_in(new),
    );
}
