//! A set of states without moments.

ghost use Rattle.std.specs.Prelude.{◌≡◌, ◌<◌, ◌+◌, ℕ, IfOk, IsTrue};
ghost use Rattle.scan_partial.specs.Sizes.{HasSizes};
ghost use Rattle.reach_search.specs.Sets.{IsSetFor, count_of, state_at};

use crate::rows::Rows;
use diagram_program::Program;
use reach_states::Untimed;
use scan_cycle::Memory;
use scan_partial::Knowledge;
use scan_signals::Tri;
use std::alloc::Global;

/// States of a program without moments, by numbers from 0.
#[derive(Drop)]
pub(crate) struct StateSet {
    pub values: Rows<Tri>,
    pub memories: Rows<Tri>,
    pub blocks: Rows<Untimed>,
}

impl StateSet {
    /// No states of the program.
    pub(crate) fn new(alloc: Global, program: &Program) -> StateSet
        ensures set { IsSetFor program.now result }
        ensures none { count_of result ≡ 0 }
    {
        let decls = program.decls();
        StateSet {
            values: Rows::new(alloc, decls.vars().len()),
            memories: Rows::new(alloc, program.memories()),
            blocks: Rows::new(alloc, decls.instances().len()),
        }
    }

    /// How many there are.
    pub(crate) fn count(&self) -> usize
        ensures { result ≡ count_of self.now }
    {
        self.blocks.count()
    }

    /// Adds one.
    ///
    /// # Errors
    ///
    /// `Memory` when out of memory.
    pub(crate) fn push(
        &mut self,
        program: &Program,
        known: &Knowledge<Tri, Untimed>,
    ) -> Result<(), Memory>
        requires set { IsSetFor program.now self.old }
        requires sizes { HasSizes program.now known.now }
        ensures set { IfOk result (λ _. IsSetFor program.now self.new) }
        ensures count { IfOk result (λ _. count_of self.new ≡ count_of self.old + 1) }
        ensures others { IfOk result (λ _. (number : ℕ) → number < count_of self.old → state_at self.new number ≡ state_at self.old number) }
        ensures added { IfOk result (λ _. state_at self.new (count_of self.old) ≡ known.now) }
    {
        let _program = program;
        self.values.push(known.values())?;
        self.memories.push(known.memories())?;
        self.blocks.push(known.blocks())
    }

    /// Whether the one of a number is this one.
    pub(crate) fn is_at(
        &self,
        program: &Program,
        number: usize,
        known: &Knowledge<Tri, Untimed>,
    ) -> bool
        requires set { IsSetFor program.now self.now }
        requires sizes { HasSizes program.now known.now }
        requires number { number < count_of self.now }
        ensures { IsTrue result → state_at self.now number ≡ known.now }
    {
        let _program = program;
        if self.values.row(number) != known.values()
            || self.memories.row(number) != known.memories()
        {
            return false;
        }
        self.blocks.row(number) == known.blocks()
    }

    /// Takes over the one of a number.
    pub(crate) fn read(&self, program: &Program, number: usize, known: &mut Knowledge<Tri, Untimed>)
        requires set { IsSetFor program.now self.now }
        requires sizes { HasSizes program.now known.old }
        requires number { number < count_of self.now }
        ensures known { known.new ≡ state_at self.now number }
        ensures sizes { HasSizes program.now known.new }
    {
        let _program = program;
        known.set_parts(
            self.values.row(number),
            self.memories.row(number),
            self.blocks.row(number),
        );
    }
}
