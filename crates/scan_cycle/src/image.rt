//! What contacts and coils see: the signals of the variables and of the instances' outputs.

ghost use Rattle.std.specs.Prelude.{◌≡◌, length, map, slice_index_or, slice_set, false, IfOk};
ghost use Rattle.diagram_declarations.specs.Decls.{is_input};
ghost use Rattle.scan_signals.specs.Blocks.{q_of};
ghost use Rattle.scan_cycle.specs.Cells.{frame, operand_value};
ghost use Rattle.scan_cycle.specs.Rung.{frame_of, SameSizes};
ghost use Rattle.scan_cycle.specs.Scan.{given};

use crate::inputs::give;
use crate::memory::Memory;
use crate::storage::Storage;
use diagram_declarations::Decls;
use diagram_program::Operand;
use scan_signals::Operations;
use std::alloc::Global;
use std::marker::Model;

/// The signal of each variable, and that of each instance's Q.
#[derive(Drop)]
pub struct Image<S> {
    pub values: Vec<S>,
    pub ends: Vec<S>,
}

impl<S> Model for Image<S> {
    ghost use Rattle.scan_cycle.specs.Cells.{Frame, frame};

    ghost Value = { Frame S };

    ghost view = { λ f. frame f.values.items f.ends.items };
}

impl<S: Operations> Image<S> {
    /// Buffers for the signals of this many variables and instances.
    ///
    /// # Errors
    ///
    /// `Memory` when out of memory.
    pub fn new(alloc: Global, variables: usize, instances: usize) -> Result<Image<S>, Memory>
        ensures values { IfOk result (λ f. length f.values ≡ variables) }
        ensures ends { IfOk result (λ f. length f.ends ≡ instances) }
    {
        Ok(Image {
            values: vec![in alloc; S::known(false); variables]?,
            ends: vec![in alloc; S::known(false); instances]?,
        })
    }

    /// Takes the values and Qs that a state stores for what contacts see.
    pub fn know(&mut self, storage: &Storage)
        requires { SameSizes self.old storage.now }
        ensures { self.new ≡ frame (map S.algebra.known storage.now.values) (map (λ b. S.algebra.known (q_of b)) storage.now.kept.blocks) }
    {
        know_each(&storage.values, &mut self.values);
        know_each(&storage.outputs, &mut self.ends);
    }

    /// Gives the input variables their signals, in order of declaration.
    pub fn give(&mut self, decls: &Decls, inputs: &[S])
        ensures { self.new ≡ frame (given (map is_input decls.now.vars) inputs.now self.old.values) self.old.ends }
    {
        give(decls, inputs, &mut self.values);
    }

    /// The signal of a variable, and OFF past the last one.
    pub fn value(&self, var: usize) -> S
        ensures { result ≡ slice_index_or self.now.values var (S.algebra.known false) }
    {
        match self.values.get(var) {
            Some(value) => *value,
            None => S::known(false),
        }
    }

    /// The signal of an instance's Q, and OFF past the last one.
    pub fn end(&self, inst: usize) -> S
        ensures { result ≡ slice_index_or self.now.ends inst (S.algebra.known false) }
    {
        match self.ends.get(inst) {
            Some(end) => *end,
            None => S::known(false),
        }
    }

    /// The signal of what a contact reads: a variable, or the Q of an instance.
    pub fn operand(&self, operand: Operand) -> S
        ensures { result ≡ operand_value S.algebra self.now operand }
    {
        match operand {
            Operand::Var(var) => self.value(var),
            Operand::Output(inst) => self.end(inst),
        }
    }

    /// Writes a variable; past the last one there is none.
    pub fn put_value(&mut self, var: usize, value: S)
        ensures { self.new ≡ frame (slice_set self.old.values var value) self.old.ends }
    {
        if var < self.values.len() {
            self.values[var] = value;
        }
    }

    /// Writes the Q of an instance; past the last one there is none.
    pub fn put_end(&mut self, inst: usize, end: S)
        ensures { self.new ≡ frame self.old.values (slice_set self.old.ends inst end) }
    {
        if inst < self.ends.len() {
            self.ends[inst] = end;
        }
    }
}

/// Writes stored values or Qs as signals.
fn know_each<S: Operations>(stored: &[bool], signals: &mut [S])
    requires { length signals.old ≡ length stored.now }
    ensures { signals.new ≡ map S.algebra.known stored.now }
{
    for number in 0..stored.len() {
        signals[number] = S::known(stored[number]);
    }
}

/// What contacts see from the start of a rung on: a copy of the values and Qs.
pub fn copy_start(storage: &Storage, start: &mut Image<bool>)
    requires { SameSizes start.old storage.now }
    ensures { start.new ≡ frame_of storage.now }
{
    start.values.copy_from_slice(&storage.values);
    start.ends.copy_from_slice(&storage.outputs);
}

impl Storage {
    /// A buffer for what contacts see of this storage.
    pub(crate) fn room(&self, alloc: Global) -> Result<Image<bool>, Memory>
        ensures { IfOk result (λ f. SameSizes f self.now) }
    {
        Image::new(alloc, self.values.len(), self.blocks.len())
    }
}
