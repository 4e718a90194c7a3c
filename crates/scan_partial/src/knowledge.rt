//! What is known of all that a scan changes.

ghost use Rattle.std.specs.Prelude.{◌≡◌, length, map, slice_index_or, slice_set, false, All, IfOk};
ghost use Rattle.diagram_declarations.specs.Decls.{is_input};
ghost use Rattle.scan_cycle.specs.Cells.{at, put_in};
ghost use Rattle.scan_cycle.specs.Scan.{given};
ghost use Rattle.scan_symbolic.specs.KnownScan.{all_known, frame_in, kept_at};
ghost use Rattle.scan_partial.specs.Sizes.{AreAsLong, HasSizes, IsAsLong};
ghost use Rattle.scan_partial.specs.Evaluating.{AreSure};

use crate::filling::{filled, know_blocks, know_memories, know_values, take_ends};
use crate::keep::Keep;
use diagram_declarations::{BlockKind, Decls};
use diagram_program::Program;
use scan_cycle::gates::link_at;
use scan_cycle::image::Image;
use scan_cycle::inputs::give;
use scan_cycle::{Memory, State};
use scan_signals::{Signal, Stored};
use std::alloc::Global;
use std::marker::Model;

/// What is known of the value of each variable and of each memory, and what is kept of each instance.
#[derive(Drop)]
pub struct Knowledge<S: Signal, B: Keep<S>> {
    values: Vec<S>,
    memories: Vec<S>,
    blocks: Vec<B>,
}

impl<S: Signal, B: Keep<S>> Model for Knowledge<S, B> {
    ghost use Rattle.scan_symbolic.specs.KnownScan.{Known};
    ghost use Rattle.scan_partial.specs.Evaluating.{AreSure};

    ghost Value = { Known S B };

    ghost view = { λ k. record { values = k.values.items; memories = k.memories.items; blocks = k.blocks.items } };

    ghost invariant = { λ k. AreSure S.algebra S.value B.kept B.keeping (record { values = k.values.items; memories = k.memories.items; blocks = k.blocks.items }) };
}

impl<S: Signal, B: Keep<S>> Knowledge<S, B> {
    /// As many values, memories and instances as the program has, to be filled by `know`.
    ///
    /// # Errors
    ///
    /// `Memory` when out of memory.
    pub fn new(alloc: Global, program: &Program) -> Result<Knowledge<S, B>, Memory>
        ensures { IfOk result (λ k. HasSizes program.now k) }
    {
        let decls = program.decls();
        let off = S::known(false);
        let unused = B::stored(Stored::new(BlockKind::Ton));
        Ok(Knowledge {
            values: filled(alloc, off, decls.vars().len())?,
            memories: filled(alloc, off, program.memories())?,
            blocks: filled(alloc, unused, decls.instances().len())?,
        })
    }

    /// Becomes all that a state of the same program stores, which is known. It needs no memory.
    pub fn know(&mut self, state: &State)
        requires { IsAsLong self.old state.now.held }
        ensures { self.new ≡ all_known S.algebra B.keeping state.now.held }
    {
        know_values(state, &mut self.values);
        know_memories(state, &mut self.memories);
        know_blocks(state, &mut self.blocks);
    }

    /// Becomes equal to what is known of a state of the same program. It needs no memory.
    pub fn copy_from(&mut self, other: &Knowledge<S, B>)
        requires { AreAsLong self.old other.now }
        ensures { self.new ≡ other.now }
    {
        self.values.copy_from_slice(&other.values);
        self.memories.copy_from_slice(&other.memories);
        self.blocks.copy_from_slice(&other.blocks);
    }

    /// Becomes what these say, in order: a value for each variable, each memory, and what is kept of each instance. It needs no memory.
    pub fn set_parts(&mut self, values: &[S], memories: &[S], blocks: &[B])
        requires values { length values.now ≡ length self.old.values }
        requires memories { length memories.now ≡ length self.old.memories }
        requires blocks { length blocks.now ≡ length self.old.blocks }
        requires sure { AreSure S.algebra S.value B.kept B.keeping (record { values = values.now; memories = memories.now; blocks = blocks.now }) }
        ensures { self.new ≡ record { values = values.now; memories = memories.now; blocks = blocks.now } }
    {
        self.values.copy_from_slice(values);
        self.memories.copy_from_slice(memories);
        self.blocks.copy_from_slice(blocks);
    }

    /// The values of the variables, in order of declaration.
    pub fn values(&self) -> &[S]
        ensures { result.now ≡ self.now.values }
    {
        &self.values
    }

    /// The memories of edges, by their numbers.
    pub fn memories(&self) -> &[S]
        ensures { result.now ≡ self.now.memories }
    {
        &self.memories
    }

    /// What is kept of the instances, in order of declaration.
    pub fn blocks(&self) -> &[B]
        ensures { result.now ≡ self.now.blocks }
    {
        &self.blocks
    }

    /// The value of a variable, and OFF past the last one.
    pub fn value(&self, var: usize) -> S
        ensures { result ≡ slice_index_or self.now.values var (S.algebra.known false) }
    {
        match self.values.get(var) {
            Some(value) => *value,
            None => S::known(false),
        }
    }

    /// Does nothing: its contract is what holds of all that is known.
    pub(crate) fn checked(&self)
        ensures { AreSure S.algebra S.value B.kept B.keeping self.now }
    {
        let _values = &self.values;
    }

    /// A memory, and OFF where there is none.
    pub fn memory(&self, number: Option<usize>) -> S
        ensures { result ≡ at self.now.memories number (S.algebra.known false) }
    {
        match number {
            Some(number) => link_at(&self.memories, number),
            None => S::known(false),
        }
    }

    /// What is kept of an instance, and a timer that was never used past the last one.
    pub fn kept(&self, inst: usize) -> B
        ensures is { result ≡ kept_at B.keeping self.now inst }
        ensures kept { B.kept result }
    {
        match self.blocks.get(inst) {
            Some(kept) => *kept,
            None => B::stored(Stored::new(BlockKind::Ton)),
        }
    }

    /// Takes what contacts see from the start of a rung on.
    pub(crate) fn begin(&self, start: &mut Image<S>)
        requires values { length start.old.values ≡ length self.now.values }
        requires ends { length start.old.ends ≡ length self.now.blocks }
        ensures { start.new ≡ frame_in B.keeping self.now }
    {
        start.values.copy_from_slice(&self.values);
        take_ends(&self.blocks, &mut start.ends);
    }

    /// Gives the input variables their values, in order of declaration.
    pub(crate) fn give(&mut self, decls: &Decls, inputs: &[S])
        requires { All S.value inputs.now }
        ensures { self.new ≡ record self.old { values = given (map is_input decls.now.vars) inputs.now self.old.values } }
    {
        give(decls, inputs, &mut self.values);
    }

    /// Writes what is known of a variable; past the last one nothing is written.
    pub fn put_value(&mut self, var: usize, value: S)
        ensures { self.new ≡ record self.old { values = slice_set self.old.values var value } }
    {
        let _is_value = value.is_value();
        if var < self.values.len() {
            self.values[var] = value;
        }
    }

    /// Writes what is known of a memory, where the cell has one.
    pub(crate) fn remember(&mut self, number: Option<usize>, value: S)
        ensures { self.new ≡ record self.old { memories = put_in self.old.memories number value } }
    {
        if let Some(number) = number {
            self.put_memory(number, value);
        }
    }

    /// Writes what is known of a memory; past the last one nothing is written.
    pub fn put_memory(&mut self, number: usize, value: S)
        ensures { self.new ≡ record self.old { memories = slice_set self.old.memories number value } }
    {
        let _is_value = value.is_value();
        if number < self.memories.len() {
            self.memories[number] = value;
        }
    }

    /// Writes what is known of an instance; past the last one nothing is written.
    pub fn keep(&mut self, inst: usize, kept: B)
        requires { B.kept kept }
        ensures { self.new ≡ record self.old { blocks = slice_set self.old.blocks inst kept } }
    {
        if inst < self.blocks.len() {
            self.blocks[inst] = kept;
        }
    }
}
