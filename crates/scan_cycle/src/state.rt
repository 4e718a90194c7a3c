//! The state that is kept from scan to scan.

ghost use Rattle.std.specs.Prelude.{◌≡◌, ◌<◌, ◌≤◌, ◌↔◌, length, map, set, IfOk, IsTrue, slice_get, slice_index_or, false, Some};
ghost use Rattle.diagram_declarations.specs.declared.kind.BlockKind.TheVariants.{Ton};
ghost use Rattle.scan_signals.specs.Blocks.{new_block};
ghost use Rattle.scan_cycle.specs.Rung.{SameLengths};
ghost use Rattle.scan_cycle.specs.Standing.{fresh, CanStore, Fits, IsStanding, with_blocks, with_memories, with_moment, with_values};

use crate::image::Image;
use crate::memory::Memory;
use crate::storage::Storage;
use diagram_declarations::{BlockKind, Instance};
use diagram_program::Program;
use scan_signals::Stored;
use std::alloc::{AllocError, Global};
use std::marker::Model;

/// The state kept between scans: the value of each variable, each memory, what each instance stores, and the moment of the last
/// scan in milliseconds.
///
/// Each instance stores what belongs to its kind. A timer that runs did not begin to after the moment; one that does not has
/// start 0.
#[derive(Drop)]
pub struct State {
    /// What a scan changes.
    pub storage: Storage,
    pub(crate) kinds: Vec<BlockKind>,
    /// The moment of the last scan.
    pub moment: u64,
    /// A buffer for what contacts see from a rung's start on.
    pub start: Image<bool>,
}

impl Model for State {
    ghost use Rattle.scan_cycle.specs.Rung.{SameSizes};
    ghost use Rattle.scan_cycle.specs.Standing.{Standing, AreSound};

    ghost Value = { Standing };

    ghost view = { λ s. record { held = s.storage; kinds = s.kinds.items; moment = s.moment } };

    ghost invariant = { λ s. SameSizes s.start s.storage × AreSound s.kinds.items s.storage.kept.blocks s.moment };
}

/// The kinds of the instances, by which a state is compared with a program.
fn kinds(alloc: Global, instances: &[Instance]) -> Result<Vec<BlockKind>, AllocError>
    ensures { IfOk result (λ v. v.items ≡ map (λ i. i.kind) instances.now) }
{
    instances
        .iter()
        .map(|instance| instance.kind)
        .collect(alloc)
}

/// Whether a state was made for instances of these kinds, in this order.
fn same_kinds(kinds: &[BlockKind], instances: &[Instance]) -> bool
    ensures { IsTrue result ↔ (kinds.now ≡ map (λ i. i.kind) instances.now) }
{
    if kinds.len() != instances.len() {
        return false;
    }
    for i in 0..kinds.len() {
        if kinds[i] != instances[i].kind {
            return false;
        }
    }
    true
}

impl State {
    /// The state before the first scan: the variables have their initial values, all else is OFF or 0.
    ///
    /// # Errors
    ///
    /// `Memory` when out of memory.
    pub fn fresh(alloc: Global, program: &Program) -> Result<State, Memory>
        ensures is { IfOk result (λ s. s ≡ fresh program.now) }
        ensures fits { IfOk result (λ s. Fits program.now s) }
    {
        let storage = Storage::fresh(alloc, program)?;
        let kinds = kinds(alloc, program.decls().instances())?;
        let start = storage.room(alloc)?;
        Ok(State {
            storage,
            kinds,
            moment: 0,
            start,
        })
    }

    /// A copy of the state with buffers of its own.
    ///
    /// # Errors
    ///
    /// `Memory` when out of memory.
    pub fn copy(&self, alloc: Global) -> Result<State, Memory>
        ensures { IfOk result (λ s. s ≡ self.now) }
    {
        let storage = self.storage.copy(alloc)?;
        let kinds = Vec::from_slice(alloc, &self.kinds)?;
        let start = storage.room(alloc)?;
        Ok(State {
            storage,
            kinds,
            moment: self.moment,
            start,
        })
    }

    /// Becomes equal to a state of the same program, without memory.
    pub fn copy_from(&mut self, other: &State)
        requires lengths { SameLengths self.old.held other.now.held }
        requires kinds { self.old.kinds ≡ other.now.kinds }
        ensures { self.new ≡ other.now }
    {
        self.storage.copy_from(&other.storage);
        self.moment = other.moment;
    }

    /// Whether there are as many variables and memories as in the program, and instances of the same kinds in the same order.
    pub fn fits(&self, program: &Program) -> bool
        ensures { IsTrue result ↔ Fits program.now self.now }
    {
        let decls = program.decls();
        self.storage.values.len() == decls.vars().len()
            && self.storage.memories.len() == program.memories()
            && same_kinds(&self.kinds, decls.instances())
    }

    /// What a scan changes, which a look reads.
    pub fn storage(&self) -> &Storage
        ensures { result.now ≡ self.now.held }
    {
        &self.storage
    }

    /// The value of a variable, by its number in order of declaration.
    pub fn value(&self, var: usize) -> bool
        requires { var < length self.now.held.values }
        ensures { slice_get self.now.held.values var ≡ Some result }
    {
        self.storage.values[var]
    }

    /// The moment of the last scan, in milliseconds; 0 before the first.
    pub fn moment(&self) -> u64
        ensures { result ≡ self.now.moment }
    {
        self.moment
    }

    /// Does nothing: its contract is what holds of every state.
    pub fn checked(&self)
        ensures { IsStanding self.now }
    {
        let _moment = self.moment;
    }

    /// The memory of an edge contact or an edge coil, by its number in the program.
    pub fn memory(&self, number: usize) -> bool
        requires { number < length self.now.held.kept.memories }
        ensures { slice_get self.now.held.kept.memories number ≡ Some result }
    {
        self.storage.memories[number]
    }

    /// What an instance stores, by its number in order of declaration.
    pub fn block(&self, inst: usize) -> Stored
        requires { inst < length self.now.held.kept.blocks }
        ensures { slice_get self.now.held.kept.blocks inst ≡ Some result }
    {
        self.storage.blocks[inst]
    }

    /// What an instance stores, and a timer that was never used past the last one.
    pub fn stored(&self, inst: usize) -> Stored
        ensures { result ≡ slice_index_or self.now.held.kept.blocks inst (new_block Ton) }
    {
        self.storage.stored(inst)
    }

    /// The value of a variable, and OFF past the last one.
    pub fn value_or_off(&self, var: usize) -> bool
        ensures { result ≡ slice_index_or self.now.held.values var false }
    {
        self.storage.value(var)
    }

    /// Sets the value of a variable, by its number in order of declaration.
    pub fn set_value(&mut self, var: usize, value: bool)
        requires { var < length self.old.held.values }
        ensures { self.new ≡ with_values self.old (set self.old.held.values var value) }
    {
        self.storage.put_value(var, value);
    }

    /// Sets a memory of an edge, by its number in the program.
    pub fn set_memory(&mut self, number: usize, value: bool)
        requires { number < length self.old.held.kept.memories }
        ensures { self.new ≡ with_memories self.old (set self.old.held.kept.memories number value) }
    {
        self.storage.put_memory(number, value);
    }

    /// Sets the moment, which is not before the present one.
    pub fn set_moment(&mut self, moment: u64)
        requires { self.old.moment ≤ moment }
        ensures { self.new ≡ with_moment self.old moment }
    {
        self.moment = moment;
    }

    /// Sets what an instance stores, by its number in order of declaration: what belongs to its kind and is possible at the moment.
    pub fn set_block(&mut self, inst: usize, stored: Stored)
        requires range { inst < length self.old.held.kept.blocks }
        requires stored { CanStore (slice_index_or self.old.kinds inst Ton) self.old.moment stored }
        ensures { self.new ≡ with_blocks self.old (set self.old.held.kept.blocks inst stored) }
    {
        self.storage.put_block(inst, stored);
    }
}
