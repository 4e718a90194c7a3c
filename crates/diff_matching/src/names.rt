//! What belongs together by names.

ghost use Rattle.std.specs.Prelude.{◌≡◌, ◌<◌, ◌↔◌, ◌++◌, ℕ, IfOk, OnOk, Some, length, option_map, slice_get};
ghost use Rattle.std.specs.Option.{option_to_list};
ghost use Rattle.diagram_declarations.specs.Decls.{is_input_at};
ghost use Rattle.diff_matching.specs.declared.owner.Owner.{Owner};
ghost use Rattle.diff_matching.specs.Names.{AreOneMemory, AreOneOwner, owners_of};
ghost use Rattle.diff_matching.specs.Names.{AreAll, AreOneInstance, AreOneOfSort, AreOneVariable};

use crate::matching::Pair;
use crate::owner::{Owner, edge_at, owners, rank};
use diagram_declarations::{Decls, Symbol};
use diagram_program::Program;
use std::alloc::{AllocError, Global};

/// The variable of NEW that belongs to a variable of OLD.
pub(crate) fn variable_in(old: &Decls, new: &Decls, var: usize) -> Option<usize>
    ensures { (n : ℕ) → ((result ≡ Some n) ↔ AreOneVariable old.now new.now (record { old = var; new = n })) }
{
    let of_old = old.vars().get(var)?;
    let Some(Symbol::Var(number)) = new.find(&of_old.name) else {
        return None;
    };
    let of_new = new.vars().get(number)?;
    if of_old.is_input() == of_new.is_input() {
        Some(number)
    } else {
        None
    }
}

/// The instance of NEW that belongs to an instance of OLD.
pub(crate) fn instance_in(old: &Decls, new: &Decls, inst: usize) -> Option<usize>
    ensures { (n : ℕ) → ((result ≡ Some n) ↔ AreOneInstance old.now new.now (record { old = inst; new = n })) }
{
    let of_old = old.instances().get(inst)?;
    let Some(Symbol::Instance(number)) = new.find(&of_old.name) else {
        return None;
    };
    let of_new = new.instances().get(number)?;
    if of_old.kind == of_new.kind {
        Some(number)
    } else {
        None
    }
}

/// Whether a variable is an input.
fn is_input_at(decls: &Decls, var: usize) -> bool
    ensures { result ≡ is_input_at (slice_get decls.now.vars var) }
{
    match decls.vars().get(var) {
        Some(var) => var.is_input(),
        None => false,
    }
}

/// The same of inputs alone, or of other variables alone.
fn one_of_sort(old: &Decls, new: &Decls, inputs: bool, var: usize) -> Option<usize>
    ensures { (n : ℕ) → ((result ≡ Some n) ↔ AreOneOfSort inputs old.now new.now (record { old = var; new = n })) }
{
    if is_input_at(old, var) == inputs {
        variable_in(old, new, var)
    } else {
        None
    }
}

/// Adds the pair of a number of OLD and what belongs to it, if something does.
fn add(pairs: &mut Vec<Pair>, old: usize, found: Option<usize>) -> Result<(), AllocError>
    ensures { OnOk result (pairs.new.items ≡ pairs.old.items ++ option_to_list (option_map (λ n. record { old = old; new = n }) found)) }
{
    if let Some(new) = found {
        pairs.push(Pair { old, new })?;
    }
    Ok(())
}

/// The pairs of inputs, or those of other variables.
pub(crate) fn variables(
    alloc: Global,
    old: &Decls,
    new: &Decls,
    inputs: bool,
) -> Result<Vec<Pair>, AllocError>
    ensures { IfOk result (λ v. AreAll (AreOneOfSort inputs old.now new.now) v.items) }
{
    let mut pairs: Vec<Pair> = Vec::new(alloc);
    for var in 0..old.vars().len() {
        add(&mut pairs, var, one_of_sort(old, new, inputs, var))?;
    }
    Ok(pairs)
}

/// The pairs of instances.
pub(crate) fn instances(alloc: Global, old: &Decls, new: &Decls) -> Result<Vec<Pair>, AllocError>
    ensures { IfOk result (λ v. AreAll (AreOneInstance old.now new.now) v.items) }
{
    let mut pairs: Vec<Pair> = Vec::new(alloc);
    for inst in 0..old.instances().len() {
        add(&mut pairs, inst, instance_in(old, new, inst))?;
    }
    Ok(pairs)
}

/// The owner of NEW that belongs to an owner of OLD.
fn owner_in(old: &Decls, new: &Decls, owner: Owner) -> Option<Owner>
    ensures { (o : Owner) → ((result ≡ Some o) ↔ AreOneOwner old.now new.now owner o) }
{
    match owner {
        Owner::Variable(var) => Some(Owner::Variable(variable_in(old, new, var)?)),
        Owner::Output(inst) => Some(Owner::Output(instance_in(old, new, inst)?)),
        Owner::Coil(var) => Some(Owner::Coil(variable_in(old, new, var)?)),
    }
}

/// The memory of NEW that belongs to a memory of OLD. `olds` and `news` are the owners of the memories.
fn memory_in(
    old: &Program,
    new: &Program,
    olds: &[Option<Owner>],
    news: &[Option<Owner>],
    number: usize,
) -> Option<usize>
    requires number { number < length olds.now }
    requires olds { olds.now ≡ owners_of old.now }
    requires news { news.now ≡ owners_of new.now }
    ensures { (n : ℕ) → ((result ≡ Some n) ↔ AreOneMemory old.now new.now (record { old = number; new = n })) }
{
    let owner = olds[number]?;
    let belonging = owner_in(old.decls(), new.decls(), owner)?;
    edge_at(news, belonging, rank(olds, owner, number))
}

/// The pairs of memories.
pub(crate) fn memories(alloc: Global, old: &Program, new: &Program) -> Result<Vec<Pair>, AllocError>
    ensures { IfOk result (λ v. AreAll (AreOneMemory old.now new.now) v.items) }
{
    let olds = owners(alloc, old)?;
    let news = owners(alloc, new)?;
    let mut pairs: Vec<Pair> = Vec::new(alloc);
    for number in 0..olds.len() {
        add(
            &mut pairs,
            number,
            memory_in(old, new, &olds, &news, number),
        )?;
    }
    Ok(pairs)
}
