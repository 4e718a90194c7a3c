//! Two programs in one.

ghost use Rattle.std.specs.Prelude.{◌≡◌, ◌+◌, ◌≤◌};
ghost use Rattle.diagram_program.specs.declared.geometry.TheConstants.{RUNGS};
ghost use Rattle.diff_beside.specs.Fitting.{FitIn};
ghost use Rattle.diff_beside.specs.Moving.{shift_of};
ghost use Rattle.diff_beside.specs.Standing.{after, before};

use crate::declaring::declared;
use crate::fitting::fit_in;
use crate::moving::Moving;
use crate::numbering::{count_past, numbers_beside, own_numbers};
use crate::pairing::paired;
use crate::sites::add_sites;
use crate::small::checked;
use diagram_declarations::Decls;
use diagram_program::geometry::RUNGS;
use diagram_program::{Program, Site};
use diff_matching::Matching;
use scan_cycle::Memory;
use std::alloc::{AllocError, Global};

/// Two programs in one, and what belongs together in it and in each of them.
#[derive(Drop)]
pub struct Beside {
    pub program: Program,
    pub of_old: Matching,
    pub of_new: Matching,
}

/// The numbers of what OLD has: those that it has in OLD. Its returns lead to the first rung of NEW.
fn before<'a>(old: &Program, new: &Program, vars: &'a [usize]) -> Moving<'a>
    ensures { shift_of result ≡ before old.now new.now vars.now }
{
    let past = if new.rungs() == 0 {
        None
    } else {
        Some(old.rungs())
    };
    Moving {
        vars,
        instances: 0,
        memories: 0,
        rungs: 0,
        past,
    }
}

/// The numbers of what NEW has: all but its variables come after those of OLD.
fn after<'a>(old: &Program, vars: &'a [usize]) -> Moving<'a>
    ensures { shift_of result ≡ after old.now vars.now }
{
    checked(old);
    Moving {
        vars,
        instances: old.decls().instances().len(),
        memories: old.memories(),
        rungs: old.rungs(),
        past: None,
    }
}

/// Whether there are as many variables and instances as both programs have.
fn are_as_many(decls: &Decls, old: &Decls, new: &Decls, new_numbers: &[usize]) -> bool {
    let olds = old.vars().len();
    let alone = count_past(new_numbers, olds);
    let instances = old.instances().len() + new.instances().len();
    decls.vars().len() == olds + alone && decls.instances().len() == instances
}

/// The rungs of OLD, and after them the rungs of NEW.
fn joined(
    alloc: Global,
    decls: Decls,
    old: &Program,
    new: &Program,
    of_old: Moving<'_>,
    of_new: Moving<'_>,
) -> Result<Program, AllocError>
    requires few { old.now.rungs + new.now.rungs ≤ RUNGS }
    requires before { shift_of of_old ≡ before old.now new.now of_old.vars.now }
    requires after { shift_of of_new ≡ after old.now of_new.vars.now }
    requires old { FitIn (shift_of of_old) old.now.decls decls }
    requires new { FitIn (shift_of of_new) new.now.decls decls }
{
    checked(old);
    checked(new);
    let mut sites: Vec<Site> = Vec::new(alloc);
    add_sites(&mut sites, old, of_old)?;
    add_sites(&mut sites, new, of_new)?;
    Program::new(alloc, decls, old.rungs() + new.rungs(), sites)
}

/// The program in which two stand side by side: the rungs of OLD, and after them the rungs of NEW. Inputs that belong together are one input, all else
/// each of them has for itself. `None` where they don't fit into one program, which has at most 256 variables, 64 instances and 100 rungs.
///
/// # Errors
///
/// `Memory` when out of memory.
pub fn put_beside(
    alloc: Global,
    old: &Program,
    new: &Program,
    matching: &Matching,
) -> Result<Option<Beside>, Memory> {
    let olds = old.decls().vars().len();
    let old_numbers = own_numbers(alloc, olds)?;
    let new_numbers = numbers_beside(alloc, matching.inputs(), olds, new.decls().vars())?;
    let Some(decls) = declared(alloc, old.decls(), new.decls(), &old_numbers, &new_numbers)? else {
        return Ok(None);
    };
    let of_old = before(old, new, &old_numbers);
    let of_new = after(old, &new_numbers);
    if old.rungs() + new.rungs() > RUNGS
        || !are_as_many(&decls, old.decls(), new.decls(), &new_numbers)
        || !fit_in(of_old, old.decls(), &decls)
        || !fit_in(of_new, new.decls(), &decls)
    {
        return Ok(None);
    }
    let program = joined(alloc, decls, old, new, of_old, of_new)?;
    Ok(Some(Beside {
        program,
        of_old: paired(alloc, old, of_old)?,
        of_new: paired(alloc, new, of_new)?,
    }))
}
