//! A rung as gates, which a scan evaluates, and as the actions of its coils, blocks and edges.
//!
//! The links of a rung are kept in one list, by the places of the cells: what a gate gives is at the place of its cell, and what a
//! cell by itself lets through `OWN` further on.

ghost use Rattle.std.specs.Prelude.{◌≡◌, ◌<◌, ◌≤◌, ◌+◌, ◌/◌, ◌%◌, ◌==◌, ◌&&◌, nat_lt, Some, None, [], map, IfOk, if◌then◌else◌};
ghost use Rattle.diagram_program.specs.declared.geometry.TheConstants.{RUNGS, ROWS, COLUMNS, PLACES};
ghost use Rattle.diagram_program.specs.Program.{cell_of, feeds, jump_of};
ghost use Rattle.diagram_program.specs.Gates.{last_feeder, literal_of, below_of, gate_at, has_gate, gates_of, acts, action_at, actions_of, exit_of, leaps_below};
ghost use Rattle.diagram_program.specs.Sheet.{drawing_of, IsOfEach};

use crate::cell::{Cell, Operand};
use crate::geometry::{COLUMNS, PLACES, Place, ROWS};
use crate::mode::Mode;
use crate::sheet::{Jump, Sheet, feeds, site_in};
use std::alloc::{AllocError, Global};

/// Where ON is among the links of a rung.
pub const ON: usize = PLACES;

/// Where OFF is among them.
pub const OFF: usize = PLACES + 1;

/// From here on is what each cell by itself lets through.
pub const OWN: usize = PLACES + 2;

/// How many links a rung has.
pub const LINKS: usize = OWN + PLACES;

/// The numbers of variables below this one go into a literal.
pub const VARIABLES: usize = 65_536;

/// What a gate lets through.
#[derive(Clone, Copy)]
pub enum Literal {
    /// The value of a variable.
    Is(u16),
    /// The inverse of the value of a variable.
    Not(u16),
    /// What its cell says: a wire, an edge, an output or a block.
    Other,
}

/// A gate gives, at `place`, the link at `left` AND the literal, OR the link at `other`.
///
/// `below` is where the second input of a block is.
#[derive(Clone, Copy)]
pub struct Gate {
    pub place: u8,
    pub left: u8,
    pub below: u8,
    pub other: u8,
    pub literal: Literal,
}

/// A cell that writes a variable, a memory or an instance, and where its left link and its second input are.
#[derive(Clone, Copy)]
pub struct Action {
    pub cell: Cell,
    pub place: u8,
    pub left: u8,
    pub below: u8,
}

/// A jump or return: where its left link is, and the rung that it goes to, past the last one by a return.
#[derive(Clone, Copy)]
pub struct Exit {
    pub left: u8,
    pub target: usize,
}

/// A rung that has a jump or return, and the rung that this goes to.
#[derive(Clone, Copy)]
pub struct Leap {
    pub rung: usize,
    pub target: usize,
}

/// Where the OR is of what the rows below `count` in the column before bring into the group of a cell: at the place of the last of
/// them that feeds it, or OFF where none does. In the first column it is ON.
#[tactic(auto, using(crate::proofs::StepLaws::last_step))]
pub(crate) fn feeder(sheet: Sheet<'_>, at: Place, count: usize) -> u8
    requires { count ≤ ROWS }
    ensures { result ≡ (if at.column == 0 then ON else last_feeder (drawing_of sheet.entry) at.rung at.row at.column count) }
{
    if at.column == 0 {
        return ON as u8;
    }
    let mut last: u8 = OFF as u8;
    for from in 0..count {
        if feeds(sheet, at, from) {
            last = (ROWS * (at.column - 1) + from) as u8;
        }
    }
    last
}

/// The place with this number in its rung, counted by columns from the left and in each from the top row.
pub(crate) fn place_in(rung: usize, at: usize) -> Place
    requires rungs { rung < RUNGS }
    requires places { at < PLACES }
    ensures { (result.rung ≡ rung) × (result.row ≡ at % ROWS) × (result.column ≡ at / ROWS) }
{
    Place {
        rung,
        row: at % ROWS,
        column: at / ROWS,
    }
}

/// Where the second input of a block is: the links that feed the cell below its place, where that is a pin joined with a wire;
/// otherwise OFF.
pub(crate) fn below_of(sheet: Sheet<'_>, rung: usize, at: usize) -> u8
    requires rungs { rung < RUNGS }
    requires places { at < PLACES }
    ensures { result ≡ below_of (drawing_of sheet.entry) rung at }
{
    if at % ROWS + 1 >= ROWS {
        return OFF as u8;
    }
    let next = at + 1;
    match site_in(sheet, PLACES * rung + next).cell {
        Cell::Lower { linked: true, .. } => feeder(sheet, place_in(rung, next), ROWS),
        Cell::Lower { linked: false, .. }
        | Cell::Empty
        | Cell::Wire
        | Cell::Contact { .. }
        | Cell::Coil { .. }
        | Cell::Block { .. }
        | Cell::Jump { .. }
        | Cell::Return => OFF as u8,
    }
}

/// Whether the cell at a place passes power on: its right link enters the group of joints on its right.
fn feeds_on(sheet: Sheet<'_>, at: Place) -> bool
    ensures { result ≡ (nat_lt (at.column + 1) COLUMNS && feeds (drawing_of sheet.entry) at.rung at.row (at.column + 1) at.row) }
{
    let (rung, row, column) = (at.rung, at.row, at.column + 1);
    column < COLUMNS && feeds(sheet, Place { rung, row, column }, row)
}

/// Where the gate of a cell finds the OR of what the rows above bring into the group of joints on its right.
fn other_of(sheet: Sheet<'_>, at: Place) -> u8
    ensures { result ≡ (if nat_lt (at.column + 1) COLUMNS then last_feeder (drawing_of sheet.entry) at.rung at.row (at.column + 1) at.row else OFF) }
{
    let (rung, row, column) = (at.rung, at.row, at.column + 1);
    if column < COLUMNS {
        feeder(sheet, Place { rung, row, column }, row)
    } else {
        OFF as u8
    }
}

/// What a gate reads of its cell at once: the value of a contact's variable, or its inverse. Any other cell is asked when the gate
/// is evaluated.
fn literal_of(cell: Cell) -> Literal
    ensures { result ≡ literal_of cell }
{
    match cell {
        Cell::Contact {
            mode: Mode::Plain,
            operand: Operand::Var(var),
            ..
        } if var < VARIABLES => Literal::Is(var as u16),
        Cell::Contact {
            mode: Mode::Negated,
            operand: Operand::Var(var),
            ..
        } if var < VARIABLES => Literal::Not(var as u16),
        Cell::Contact { .. }
        | Cell::Empty
        | Cell::Wire
        | Cell::Coil { .. }
        | Cell::Block { .. }
        | Cell::Lower { .. }
        | Cell::Jump { .. }
        | Cell::Return => Literal::Other,
    }
}

/// The gate of the cell at a place, if power goes on from it, or if it is a block, whose Q is read by its step too.
fn gate_at(sheet: Sheet<'_>, rung: usize, at: usize) -> Option<Gate>
    requires rungs { rung < RUNGS }
    requires places { at < PLACES }
    ensures { result ≡ (if has_gate (drawing_of sheet.entry) rung at then Some (gate_at (drawing_of sheet.entry) rung at) else None) }
{
    let here = place_in(rung, at);
    let cell = site_in(sheet, PLACES * rung + at).cell;
    if !(matches!(cell, Cell::Block { .. }) || feeds_on(sheet, here)) {
        return None;
    }
    Some(Gate {
        place: at as u8,
        left: feeder(sheet, here, ROWS),
        below: below_of(sheet, rung, at),
        other: other_of(sheet, here),
        literal: literal_of(cell),
    })
}

/// The gates of one rung, by columns from the left and in each from the top row.
#[tactic(auto, unfolding(crate::specs::Gates::gates_of), using(crate::proofs::StepLaws::rung_step))]
fn rung_gates(alloc: Global, sheet: Sheet<'_>, rung: usize) -> Result<Vec<Gate>, AllocError>
    requires rungs { rung < RUNGS }
    ensures { IfOk result (λ v. v.items ≡ gates_of (drawing_of sheet.entry) rung) }
{
    let mut gates: Vec<Gate> = Vec::new(alloc);
    for at in 0..PLACES {
        if let Some(gate) = gate_at(sheet, rung, at) {
            gates.push(gate)?;
        }
    }
    Ok(gates)
}

/// The gates of each rung.
pub(crate) fn gates(alloc: Global, sheet: Sheet<'_>) -> Result<Vec<Vec<Gate>>, AllocError>
    requires rungs { sheet.rungs ≤ RUNGS }
    ensures { IfOk result (λ v. IsOfEach sheet.entry.rungs [] (gates_of (drawing_of sheet.entry)) (map (λ x. x.items) v.items)) }
{
    let mut gates: Vec<Vec<Gate>> = Vec::new(alloc);
    for rung in 0..sheet.rungs {
        let of_rung = rung_gates(alloc, sheet, rung)?;
        gates.push(of_rung)?;
    }
    Ok(gates)
}

/// The action of the cell at a place, if it writes a variable, a memory or an instance.
fn action_at(sheet: Sheet<'_>, rung: usize, at: usize) -> Option<Action>
    requires rungs { rung < RUNGS }
    requires places { at < PLACES }
    ensures { result ≡ (if acts (cell_of (drawing_of sheet.entry) rung at) then Some (action_at (drawing_of sheet.entry) rung at) else None) }
{
    let cell = site_in(sheet, PLACES * rung + at).cell;
    match cell {
        Cell::Contact {
            memory: Some(_),
            ..
        }
        | Cell::Coil { .. }
        | Cell::Block { .. } => Some(Action {
            cell,
            place: at as u8,
            left: feeder(sheet, place_in(rung, at), ROWS),
            below: below_of(sheet, rung, at),
        }),
        Cell::Contact { memory: None, .. }
        | Cell::Empty
        | Cell::Wire
        | Cell::Lower { .. }
        | Cell::Jump { .. }
        | Cell::Return => None,
    }
}

/// The actions of one rung, by columns from the left and in each from the top row.
#[tactic(auto, unfolding(crate::specs::Gates::actions_of), using(crate::proofs::StepLaws::rung_step))]
fn rung_actions(alloc: Global, sheet: Sheet<'_>, rung: usize) -> Result<Vec<Action>, AllocError>
    requires rungs { rung < RUNGS }
    ensures { IfOk result (λ v. v.items ≡ actions_of (drawing_of sheet.entry) rung) }
{
    let mut actions: Vec<Action> = Vec::new(alloc);
    for at in 0..PLACES {
        if let Some(action) = action_at(sheet, rung, at) {
            actions.push(action)?;
        }
    }
    Ok(actions)
}

/// The actions of each rung.
pub(crate) fn actions(alloc: Global, sheet: Sheet<'_>) -> Result<Vec<Vec<Action>>, AllocError>
    requires rungs { sheet.rungs ≤ RUNGS }
    ensures { IfOk result (λ v. IsOfEach sheet.entry.rungs [] (actions_of (drawing_of sheet.entry)) (map (λ x. x.items) v.items)) }
{
    let mut actions: Vec<Vec<Action>> = Vec::new(alloc);
    for rung in 0..sheet.rungs {
        let of_rung = rung_actions(alloc, sheet, rung)?;
        actions.push(of_rung)?;
    }
    Ok(actions)
}

/// The exit of a rung with this jump: the place of its left link, and the rung that it goes to.
fn exit_by(sheet: Sheet<'_>, rung: usize, jump: Option<Jump>) -> Option<Exit>
    requires rungs { rung < RUNGS }
    requires jump { jump ≡ jump_of (drawing_of sheet) rung }
    ensures { result ≡ exit_of (drawing_of sheet.entry) rung }
{
    match jump {
        Some((row, column, target)) => Some(Exit {
            left: feeder(sheet, Place { rung, row, column }, ROWS),
            target,
        }),
        None => None,
    }
}

/// The exit of each rung, in order; None for a rung without a jump or return.
pub(crate) fn exits(
    alloc: Global,
    sheet: Sheet<'_>,
    jumps: &[Option<Jump>],
) -> Result<Vec<Option<Exit>>, AllocError>
    requires rungs { sheet.rungs ≤ RUNGS }
    requires jumps { IsOfEach sheet.rungs None (jump_of (drawing_of sheet)) jumps.now }
    ensures { IfOk result (λ v. IsOfEach sheet.entry.rungs None (exit_of (drawing_of sheet.entry)) v.items) }
{
    let mut exits: Vec<Option<Exit>> = Vec::new(alloc);
    for rung in 0..sheet.rungs {
        exits.push(exit_by(sheet, rung, jumps[rung]))?;
    }
    Ok(exits)
}

/// The rungs that have a jump or return, each with the rung that it goes to.
pub(crate) fn leaps(
    alloc: Global,
    sheet: Sheet<'_>,
    jumps: &[Option<Jump>],
) -> Result<Vec<Leap>, AllocError>
    requires jumps { IsOfEach sheet.rungs None (jump_of (drawing_of sheet)) jumps.now }
    ensures { IfOk result (λ v. v.items ≡ leaps_below (drawing_of sheet.entry) sheet.entry.rungs) }
{
    let mut leaps: Vec<Leap> = Vec::new(alloc);
    for rung in 0..sheet.rungs {
        if let Some((_, _, target)) = jumps[rung] {
            leaps.push(Leap { rung, target })?;
        }
    }
    Ok(leaps)
}
