//! What belongs together in two programs.

ghost use Rattle.std.specs.Prelude.{◌≡◌, IfOk};
ghost use Rattle.diff_matching.specs.Names.{IsByNames};
ghost use Rattle.diff_matching.specs.Runs.{HaveNoInput};
ghost use Rattle.diff_matching.specs.Suited.{IsSuited};

use crate::names::{instances, memories, variables};
use diagram_program::Program;
use scan_cycle::Memory;
use std::alloc::Global;
use std::marker::Model;

/// A number in the old program, and the one in the new program that belongs to it.
#[derive(Clone, Copy, Debug, PartialEq, Eq)]
pub struct Pair {
    pub old: usize,
    pub new: usize,
}

/// What belongs together: pairs of inputs, of other variables, of instances, and of memories of edges. What is in no pair belongs to one
/// program alone.
#[derive(Drop)]
pub struct Matching {
    inputs: Vec<Pair>,
    variables: Vec<Pair>,
    instances: Vec<Pair>,
    memories: Vec<Pair>,
}

impl Model for Matching {
    ghost use Rattle.diff_matching.specs.Matching.{Matching};

    ghost Value = { Matching };

    ghost view = { λ m. record {
      inputs = m.inputs.items;
      variables = m.variables.items;
      instances = m.instances.items;
      memories = m.memories.items;
    } };
}

/// Does nothing: its contract is what holds of all that belongs together by names.
fn checked(matching: &Matching, old: &Program, new: &Program)
    requires { IsByNames matching.now old.now new.now }
    ensures suited { IsSuited matching.now old.now new.now }
    ensures no_input { HaveNoInput matching.now old.now new.now }
{
    let _vars = old.decls().vars();
}

impl Matching {
    /// What belongs together by the names of the declarations.
    ///
    /// # Errors
    ///
    /// `Memory` when out of memory.
    pub fn by_names(alloc: Global, old: &Program, new: &Program) -> Result<Matching, Memory>
        ensures names { IfOk result (λ m. IsByNames m old.now new.now) }
        ensures suited { IfOk result (λ m. IsSuited m old.now new.now) }
        ensures no_input { IfOk result (λ m. HaveNoInput m old.now new.now) }
    {
        let matching = Matching {
            inputs: variables(alloc, old.decls(), new.decls(), true)?,
            variables: variables(alloc, old.decls(), new.decls(), false)?,
            instances: instances(alloc, old.decls(), new.decls())?,
            memories: memories(alloc, old, new)?,
        };
        checked(&matching, old, new);
        Ok(matching)
    }

    /// What belongs together as given pairs say.
    pub fn of_pairs(
        inputs: Vec<Pair>,
        variables: Vec<Pair>,
        instances: Vec<Pair>,
        memories: Vec<Pair>,
    ) -> Matching
        ensures { result ≡ record {
          inputs = inputs.items;
          variables = variables.items;
          instances = instances.items;
          memories = memories.items;
        } }
    {
        Matching {
            inputs,
            variables,
            instances,
            memories,
        }
    }

    /// The pairs of inputs.
    pub fn inputs(&self) -> &[Pair]
        ensures { result.now ≡ self.entry.now.inputs }
    {
        &self.inputs
    }

    /// The pairs of variables that are no inputs.
    pub fn variables(&self) -> &[Pair]
        ensures { result.now ≡ self.entry.now.variables }
    {
        &self.variables
    }

    /// The pairs of instances.
    pub fn instances(&self) -> &[Pair]
        ensures { result.now ≡ self.entry.now.instances }
    {
        &self.instances
    }

    /// The pairs of memories of edges.
    pub fn memories(&self) -> &[Pair]
        ensures { result.now ≡ self.entry.now.memories }
    {
        &self.memories
    }
}
