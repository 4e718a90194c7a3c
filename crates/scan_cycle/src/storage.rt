//! What a scan changes: the values of the variables, the memories of edges, and what the instances store.

ghost use Rattle.std.specs.Prelude.{◌≡◌, map, slice_index_or, slice_set, false, IfOk};
ghost use Rattle.diagram_declarations.specs.Decls.{is_input};
ghost use Rattle.diagram_declarations.specs.declared.kind.BlockKind.TheVariants.{Ton};
ghost use Rattle.scan_signals.specs.Blocks.{new_block, q_of};
ghost use Rattle.scan_cycle.specs.Cells.{memory_of, put_in};
ghost use Rattle.scan_cycle.specs.Rung.{held, SameLengths, SameSizes};
ghost use Rattle.scan_cycle.specs.Scan.{given};
ghost use Rattle.scan_cycle.specs.Standing.{fresh};

use crate::inputs::give;
use crate::memory::Memory;
use diagram_declarations::{BlockKind, Decls, Instance, Var};
use diagram_program::{Cell, Program};
use scan_signals::Stored;
use std::alloc::{AllocError, Global};
use std::marker::Model;

/// The value of each variable, each memory, and what each instance stores.
#[derive(Drop)]
pub struct Storage {
    pub(crate) values: Vec<bool>,
    pub(crate) memories: Vec<bool>,
    pub(crate) blocks: Vec<Stored>,
    // the Q of each block, which contacts see from a rung's start on
    pub(crate) outputs: Vec<bool>,
}

impl Model for Storage {
    ghost use Rattle.std.specs.Prelude.{◌≡◌, map};
    ghost use Rattle.scan_signals.specs.Blocks.{q_of};
    ghost use Rattle.scan_cycle.specs.Rung.{Held, held};

    ghost Value = { Held };

    ghost view = { λ s. held s.values.items s.memories.items s.blocks.items };

    ghost invariant = { λ s. s.outputs.items ≡ map q_of s.blocks.items };
}

/// The initial values of the variables, as they are declared.
fn initial_values(alloc: Global, vars: &[Var]) -> Result<Vec<bool>, AllocError>
    ensures { IfOk result (λ v. v.items ≡ map (λ v. v.initial) vars.now) }
{
    vars.iter().map(|var| var.initial).collect(alloc)
}

/// What the instances store before the first scan.
fn new_blocks(alloc: Global, instances: &[Instance]) -> Result<Vec<Stored>, AllocError>
    ensures { IfOk result (λ v. v.items ≡ map (λ i. new_block i.kind) instances.now) }
{
    instances
        .iter()
        .map(|instance| Stored::new(instance.kind))
        .collect(alloc)
}

/// The outputs of the instances, kept beside what they store, so that contacts read them at once.
fn outputs(alloc: Global, blocks: &[Stored]) -> Result<Vec<bool>, AllocError>
    ensures { IfOk result (λ v. v.items ≡ map q_of blocks.now) }
{
    blocks.iter().map(|stored| stored.q()).collect(alloc)
}

impl Storage {
    /// What is stored before the first scan.
    pub(crate) fn fresh(alloc: Global, program: &Program) -> Result<Storage, Memory>
        ensures { IfOk result (λ s. s ≡ (fresh program.now).held) }
    {
        let decls = program.decls();
        let blocks = new_blocks(alloc, decls.instances())?;
        let outputs = outputs(alloc, &blocks)?;
        Ok(Storage {
            values: initial_values(alloc, decls.vars())?,
            memories: vec![in alloc; false; program.memories()]?,
            blocks,
            outputs,
        })
    }

    /// A copy with buffers of its own.
    pub(crate) fn copy(&self, alloc: Global) -> Result<Storage, Memory>
        ensures { IfOk result (λ s. s ≡ self.now) }
    {
        Ok(Storage {
            values: Vec::from_slice(alloc, &self.values)?,
            memories: Vec::from_slice(alloc, &self.memories)?,
            blocks: Vec::from_slice(alloc, &self.blocks)?,
            outputs: Vec::from_slice(alloc, &self.outputs)?,
        })
    }

    /// Becomes equal to a storage of the same lengths.
    pub(crate) fn copy_from(&mut self, other: &Storage)
        requires { SameLengths self.old other.now }
        ensures { self.new ≡ other.now }
    {
        self.values.copy_from_slice(&other.values);
        self.memories.copy_from_slice(&other.memories);
        self.blocks.copy_from_slice(&other.blocks);
        self.outputs.copy_from_slice(&other.outputs);
    }

    /// Gives the input variables their values, in order of declaration.
    pub fn give(&mut self, decls: &Decls, inputs: &[bool])
        ensures { self.new ≡ record self.old { values = given (map is_input decls.now.vars) inputs.now self.old.values } }
    {
        give(decls, inputs, &mut self.values);
    }

    /// The value of a variable, and OFF past the last one.
    pub fn value(&self, var: usize) -> bool
        ensures { result ≡ slice_index_or self.now.values var false }
    {
        match self.values.get(var) {
            Some(value) => *value,
            None => false,
        }
    }

    /// The memory of an edge by its number, and OFF past the last one.
    pub fn memory_at(&self, number: usize) -> bool
        ensures { result ≡ slice_index_or self.now.kept.memories number false }
    {
        match self.memories.get(number) {
            Some(memory) => *memory,
            None => false,
        }
    }

    /// The memory of a cell, and OFF where it has none.
    pub fn memory(&self, cell: Cell) -> bool
        ensures { result ≡ memory_of self.now.kept cell }
    {
        match cell {
            Cell::Contact {
                memory: Some(number),
                ..
            }
            | Cell::Coil {
                memory: Some(number),
                ..
            } => self.memory_at(number),
            Cell::Contact { .. }
            | Cell::Coil { .. }
            | Cell::Empty
            | Cell::Wire
            | Cell::Block { .. }
            | Cell::Lower { .. }
            | Cell::Jump { .. }
            | Cell::Return => false,
        }
    }

    /// What an instance stores, and a timer that was never used past the last one.
    pub fn stored(&self, inst: usize) -> Stored
        ensures { result ≡ slice_index_or self.now.kept.blocks inst (new_block Ton) }
    {
        match self.blocks.get(inst) {
            Some(stored) => *stored,
            None => Stored::new(BlockKind::Ton),
        }
    }

    /// Writes a variable; past the last one nothing is written.
    pub(crate) fn put_value(&mut self, var: usize, value: bool)
        ensures { self.new ≡ held (slice_set self.old.values var value) self.old.kept.memories self.old.kept.blocks }
    {
        if var < self.values.len() {
            self.values[var] = value;
        }
    }

    /// Writes the memory of a cell, where it has one.
    pub(crate) fn remember(&mut self, memory: Option<usize>, value: bool)
        ensures { self.new ≡ held self.old.values (put_in self.old.kept.memories memory value) self.old.kept.blocks }
    {
        if let Some(number) = memory {
            self.put_memory(number, value);
        }
    }

    /// Writes a memory; past the last one nothing is written.
    pub(crate) fn put_memory(&mut self, number: usize, memory: bool)
        ensures { self.new ≡ held self.old.values (slice_set self.old.kept.memories number memory) self.old.kept.blocks }
    {
        if number < self.memories.len() {
            self.memories[number] = memory;
        }
    }

    /// Writes what an instance stores, and with it its output; past the last one nothing is written.
    pub(crate) fn put_block(&mut self, inst: usize, stored: Stored)
        ensures { self.new ≡ held self.old.values self.old.kept.memories (slice_set self.old.kept.blocks inst stored) }
    {
        if inst < self.blocks.len() {
            self.blocks[inst] = stored;
            self.outputs[inst] = stored.q();
        }
    }
}
