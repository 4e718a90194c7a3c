//! Whose the memories of edges are.

ghost use Rattle.std.specs.Prelude.{◌≡◌, ◌<◌, ◌≤◌, ◌*◌, ◌↔◌, ℕ, Some, IfOk, length};
ghost use Rattle.diagram_program.specs.declared.geometry.TheConstants.{PLACES};
ghost use Rattle.diagram_program.specs.Program.{cell_in};
ghost use Rattle.diff_matching.specs.Names.{edge_in, is_owner, owner_of, owner_with, owners_of, rank, IsRanked};

use diagram_program::geometry::{PLACES, ROWS};
use diagram_program::{Cell, Operand, Program};
use std::alloc::{AllocError, Global};

/// Whose a memory of an edge is.
#[derive(Clone, Copy)]
pub enum Owner {
    /// Of contacts that read this variable.
    Variable(usize),
    /// Of contacts that read the output of this instance.
    Output(usize),
    /// Of coils that write this variable.
    Coil(usize),
}

/// The number of a cell's memory, and its owner.
fn edge_in(cell: Cell) -> Option<(usize, Owner)>
    ensures { result ≡ edge_in cell }
{
    match cell {
        Cell::Contact {
            operand: Operand::Var(var),
            memory: Some(number),
            ..
        } => Some((number, Owner::Variable(var))),
        Cell::Contact {
            operand: Operand::Output(inst),
            memory: Some(number),
            ..
        } => Some((number, Owner::Output(inst))),
        Cell::Coil {
            var,
            memory: Some(number),
            ..
        } => Some((number, Owner::Coil(var))),
        Cell::Contact { memory: None, .. }
        | Cell::Coil { memory: None, .. }
        | Cell::Empty
        | Cell::Wire
        | Cell::Block { .. }
        | Cell::Lower { .. }
        | Cell::Jump { .. }
        | Cell::Return => None,
    }
}

/// The cell at a place. Places go by rung, column and row.
fn cell_in(program: &Program, place: usize) -> Cell
    requires { place < PLACES * program.now.rungs }
    ensures { result ≡ cell_in program.now place }
{
    program.cell(place / PLACES, place % PLACES % ROWS, place % PLACES / ROWS)
}

/// The owner, where the memory has the number.
fn owner_with(number: usize, edge: Option<(usize, Owner)>) -> Option<Owner>
    ensures { result ≡ owner_with number edge }
{
    match edge {
        Some((found, owner)) if found == number => Some(owner),
        _ => None,
    }
}

/// The owner of a memory, by its number.
pub fn owner_of(program: &Program, number: usize) -> Option<Owner>
    ensures { result ≡ owner_of program.now number }
{
    for place in 0..PLACES * program.rungs() {
        if let Some(owner) = owner_with(number, edge_in(cell_in(program, place))) {
            return Some(owner);
        }
    }
    None
}

/// The owners of all memories.
#[tactic(auto, unfolding(crate::specs::Names::owners_of))]
pub(crate) fn owners(alloc: Global, program: &Program) -> Result<Vec<Option<Owner>>, AllocError>
    ensures { IfOk result (λ v. v.items ≡ owners_of program.now) }
{
    (0..program.memories())
        .map(|number| owner_of(program, number))
        .collect(alloc)
}

/// Whether it is the owner.
fn is_owner(owner: Owner, other: Option<Owner>) -> bool
    ensures { result ≡ is_owner owner other }
{
    match (owner, other) {
        (Owner::Variable(a), Some(Owner::Variable(b)))
        | (Owner::Output(a), Some(Owner::Output(b)))
        | (Owner::Coil(a), Some(Owner::Coil(b))) => a == b,
        _ => false,
    }
}

/// How many memories of the owner come before a number.
pub(crate) fn rank(owners: &[Option<Owner>], owner: Owner, number: usize) -> usize
    requires { number ≤ length owners.now }
    ensures { result ≡ rank owners.now owner number }
{
    owners[..number]
        .iter()
        .filter(|other| is_owner(owner, **other))
        .count()
}

/// The memory of the owner before which so many of it come.
pub(crate) fn edge_at(owners: &[Option<Owner>], owner: Owner, rank: usize) -> Option<usize>
    ensures { (n : ℕ) → ((result ≡ Some n) ↔ IsRanked owners.now owner rank n) }
{
    let mut before = 0;
    for number in 0..owners.len() {
        if !is_owner(owner, owners[number]) {
            continue;
        }
        if before == rank {
            return Some(number);
        }
        before += 1;
    }
    None
}
