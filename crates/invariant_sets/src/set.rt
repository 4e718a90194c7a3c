//! A set of what is claimed of variables and of Qs.

ghost use Rattle.std.specs.Prelude.{◌≡◌, IfOk, length, replicate};
ghost use Rattle.invariant_sets.specs.Never.{claims};
ghost use Rattle.scan_signals.specs.declared.tri.Tri.TheVariants.{Unsure};

use diagram_program::Program;
use scan_cycle::Memory;
use scan_signals::Tri;
use std::alloc::Global;
use std::marker::Model;

/// Of which variables, and of the Qs of which instances, it is claimed that they are OFF, or that they are ON, each by its number in order
/// of declaration. Of the others, which are `Unsure`, nothing is claimed.
#[derive(Drop)]
pub struct Set {
    pub(crate) variables: Vec<Tri>,
    pub(crate) instances: Vec<Tri>,
}

impl Model for Set {
    ghost use Rattle.invariant_sets.specs.Never.{Bits};

    ghost Value = { Bits };

    ghost view = { λ s. record { variables = s.variables.items; instances = s.instances.items } };
}

impl Set {
    /// A set that claims nothing of the program's variables and instances.
    ///
    /// # Errors
    ///
    /// `Memory` when out of memory.
    pub fn none(alloc: Global, program: &Program) -> Result<Set, Memory>
        ensures variables { IfOk result (λ z. z.variables ≡ replicate (length program.now.decls.vars) Unsure) }
        ensures instances { IfOk result (λ z. z.instances ≡ replicate (length program.now.decls.instances) Unsure) }
    {
        let decls = program.decls();
        Ok(Set {
            variables: vec![in alloc; Tri::Unsure; decls.vars().len()]?,
            instances: vec![in alloc; Tri::Unsure; decls.instances().len()]?,
        })
    }

    /// What is claimed of a variable.
    pub fn of_variable(&self, var: usize) -> Tri
        ensures { result ≡ claims self.now.variables var }
    {
        self.variables.get(var).copied().unwrap_or(Tri::Unsure)
    }

    /// What is claimed of the Q of an instance.
    pub fn of_instance(&self, inst: usize) -> Tri
        ensures { result ≡ claims self.now.instances inst }
    {
        self.instances.get(inst).copied().unwrap_or(Tri::Unsure)
    }

    /// Whether it claims all that the other one does, of as many variables and instances.
    pub(crate) fn has_all_of(&self, other: &Set) -> bool {
        have_all_of(&self.variables, &other.variables)
            && have_all_of(&self.instances, &other.instances)
    }
}

/// Whether each claim of the second list is in the first.
fn have_all_of(claims: &[Tri], others: &[Tri]) -> bool {
    for (claim, other) in claims.iter().zip(others.iter()) {
        if *other != Tri::Unsure && claim != other {
            return false;
        }
    }
    true
}
