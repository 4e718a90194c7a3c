//! Where each instance is drawn first. Places are counted in the order of reading.

ghost use Rattle.std.specs.Prelude.{◌≡◌, ◌≤◌, ◌<◌, ◌*◌, ◌↔◌, ℕ, length, slice_index_or, false, None, Some, IsTrue, IfOk};
ghost use Rattle.diagram_program.specs.declared.geometry.TheConstants.{RUNGS, PLACES};
ghost use Rattle.diagram_page.specs.Tables.{noted, AreFirsts, HasBlock, IsBefore};

use diagram_declarations::Decls;
use diagram_page::operand::block_drawn;
use diagram_page::{Form, NameOver, Reference};
use diagram_program::geometry::{PLACES, Place};
use std::alloc::{AllocError, Global};

/// The variable or instance that is named over the place of this number.
fn name_in(overs: &[NameOver], at: usize) -> Option<Reference>
    ensures { result ≡ (slice_index_or overs.now at (record { written = false; name = None })).name }
{
    if at < overs.len() {
        overs[at].name
    } else {
        None
    }
}

/// The form of the cell at the place of this number.
fn form_in(forms: &[Option<Form>], at: usize) -> Option<Form>
    ensures { result ≡ slice_index_or forms.now at None }
{
    if at < forms.len() { forms[at] } else { None }
}

/// The instance whose block is at a place.
fn block_in(decls: &Decls, forms: &[Option<Form>], overs: &[NameOver], n: usize) -> Option<usize>
    requires { n < PLACES * RUNGS }
    ensures { (inst : ℕ) → (result ≡ Some inst) ↔ HasBlock decls.now forms.now overs.now n inst }
{
    let at = Place::read_at(n).number();
    block_drawn(decls, form_in(forms, at), name_in(overs, at))
}

/// Keeps this place as that of an instance's first block, unless one was found before.
fn note(firsts: &mut Vec<Option<usize>>, n: usize, inst: Option<usize>)
    ensures { firsts.new.items ≡ noted n inst firsts.old.items }
{
    if let Some(inst) = inst {
        if inst < firsts.len() && firsts[inst].is_none() {
            firsts[inst] = Some(n);
        }
    }
}

/// The place where each instance is drawn first in the first `rungs` rungs, by its number.
///
/// # Errors
///
/// `AllocError` when out of memory.
pub fn firsts(
    alloc: Global,
    decls: &Decls,
    rungs: usize,
    forms: &[Option<Form>],
    overs: &[NameOver],
) -> Result<Vec<Option<usize>>, AllocError>
    requires { rungs ≤ RUNGS }
    ensures { IfOk result (λ v. AreFirsts (HasBlock decls.now forms.now overs.now) (length decls.now.instances) (PLACES * rungs) v.items) }
{
    let mut firsts: Vec<Option<usize>> = vec![in alloc; None; decls.instances().len()]?;
    for n in 0..PLACES * rungs {
        note(&mut firsts, n, block_in(decls, forms, overs, n));
    }
    Ok(firsts)
}

/// The place where an instance is drawn first, by its number in the order of reading.
pub(crate) fn first_of(firsts: &[Option<usize>], inst: usize) -> Option<usize>
    ensures { result ≡ slice_index_or firsts.now inst None }
{
    if inst < firsts.len() {
        firsts[inst]
    } else {
        None
    }
}

/// Whether a place is before another one in the order of reading.
pub(crate) fn is_before(first: Option<usize>, here: usize) -> bool
    ensures { IsTrue result ↔ IsBefore first here }
{
    match first {
        Some(first) => first < here,
        None => false,
    }
}
