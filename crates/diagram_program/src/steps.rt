//! A program as one list of steps, which a look over any signal takes one after the other: for each rung the turn of its guard,
//! its gates, its jump, and what it writes.

ghost use Rattle.std.specs.Prelude.{◌≡◌, ◌<◌, ◌≤◌, ◌++◌, None, map, filter_map, IfOk};
ghost use Rattle.diagram_program.specs.declared.geometry.TheConstants.{RUNGS};
ghost use Rattle.diagram_program.specs.Program.{jump_of};
ghost use Rattle.diagram_program.specs.Gates.{gates_of, actions_of};
ghost use Rattle.diagram_program.specs.Sheet.{drawing_of, IsOfEach, AreLists};
ghost use Rattle.diagram_program.specs.Steps.{gate_step, action_step, turns_before, turn_steps, exit_steps, rung_steps, steps_below};

use crate::cell::{Cell, Operand};
use crate::gates::{Action, Exit, Gate, Literal, VARIABLES};
use crate::geometry::PLACES;
use crate::mode::{CoilMode, Mode};
use crate::sheet::{Jump, Sheet, site_in};
use std::alloc::{AllocError, Global};

/// Where a gate keeps what it gives, and where it looks for its left link and for the OR of the rows above.
#[derive(Clone, Copy)]
pub struct Spot {
    pub place: u8,
    pub left: u8,
    pub other: u8,
}

/// What a look does next. Links are kept by places, as gates keep them; the other numbers are those of variables, memories and
/// instances. Most steps are plain contacts, so these have kinds of their own.
#[derive(Clone, Copy)]
pub enum Step {
    /// The gate of a contact on a variable.
    Is { spot: Spot, var: u16 },
    /// The gate of a negated contact.
    Not { spot: Spot, var: u16 },
    Rare(Rare),
}

/// Any other step.
#[derive(Clone, Copy)]
pub enum Rare {
    /// The gate of a wire.
    Wire { spot: Spot },
    /// The gate of a contact that closes where its variable becomes ON.
    Rising { spot: Spot, var: u16, memory: u16 },
    /// The gate of a contact that closes where its variable becomes OFF.
    Falling { spot: Spot, var: u16, memory: u16 },
    /// The gate of a block, with the place of its second input.
    Block { spot: Spot, below: u8, inst: u16 },
    /// Any other gate, as its cell says.
    Own { spot: Spot, below: u8, rung: u8 },
    /// A coil `( )` writes its variable.
    Store { left: u8, var: u16 },
    /// A coil `(S)`.
    Set { left: u8, var: u16 },
    /// A coil `(R)`.
    Reset { left: u8, var: u16 },
    /// A block writes its Q.
    End { place: u8, inst: u16 },
    /// Any other cell writes.
    Act { rung: u8, place: u8, left: u8 },
    /// The rung's jump or return is taken, or isn't.
    Leave { rung: u8, left: u8 },
    /// A jump begins or ends to pass over rungs here.
    Turn { rung: u8 },
}

/// The lists of a drawing that steps are made from.
#[derive(Clone, Copy)]
pub(crate) struct Lists<'a> {
    pub gates: &'a [Vec<Gate>],
    pub actions: &'a [Vec<Action>],
    pub jumps: &'a [Option<Jump>],
    pub exits: &'a [Option<Exit>],
}

/// The step of a gate. Contacts on variables have kinds of their own, since most gates are these.
fn gate_step(sheet: Sheet<'_>, rung: usize, gate: Gate) -> Step
    requires rungs { rung < RUNGS }
    ensures { result ≡ gate_step (drawing_of sheet.entry) rung gate }
{
    let cell = site_in(sheet, PLACES * rung + gate.place as usize).cell;
    let (place, left, other) = (gate.place, gate.left, gate.other);
    let spot = Spot { place, left, other };
    let (below, rung) = (gate.below, rung as u8);
    match gate.literal {
        Literal::Is(var) => return Step::Is { spot, var },
        Literal::Not(var) => return Step::Not { spot, var },
        Literal::Other => {}
    }
    Step::Rare(match cell {
        Cell::Wire => Rare::Wire { spot },
        Cell::Contact {
            mode,
            operand: Operand::Var(var),
            memory: Some(memory),
        } if var < VARIABLES && memory < VARIABLES => {
            let (var, memory) = (var as u16, memory as u16);
            match mode {
                Mode::Plain | Mode::Negated => Rare::Own { spot, below, rung },
                Mode::Rising => Rare::Rising { spot, var, memory },
                Mode::Falling => Rare::Falling { spot, var, memory },
            }
        }
        Cell::Block { inst } if inst < VARIABLES => {
            let inst = inst as u16;
            Rare::Block { spot, below, inst }
        }
        Cell::Contact { .. }
        | Cell::Block { .. }
        | Cell::Empty
        | Cell::Coil { .. }
        | Cell::Lower { .. }
        | Cell::Jump { .. }
        | Cell::Return => Rare::Own { spot, below, rung },
    })
}

/// The step of a coil or block, which writes; a look writes no memories, so edge contacts have none.
fn action_step(rung: u8, action: Action) -> Option<Step>
    ensures { result ≡ action_step rung action action.cell }
{
    let (place, left) = (action.place, action.left);
    Some(Step::Rare(match action.cell {
        Cell::Coil { mode, var, .. } if var < VARIABLES => {
            let var = var as u16;
            match mode {
                CoilMode::Store => Rare::Store { left, var },
                CoilMode::Set => Rare::Set { left, var },
                CoilMode::Reset => Rare::Reset { left, var },
                CoilMode::Inverse | CoilMode::Rising | CoilMode::Falling => {
                    Rare::Act { rung, place, left }
                }
            }
        }
        Cell::Block { inst } if inst < VARIABLES => {
            let inst = inst as u16;
            Rare::End { place, inst }
        }
        Cell::Coil { .. } | Cell::Block { .. } => Rare::Act { rung, place, left },
        Cell::Empty
        | Cell::Wire
        | Cell::Contact { .. }
        | Cell::Lower { .. }
        | Cell::Jump { .. }
        | Cell::Return => return None,
    }))
}

/// Whether a jump begins or ends to pass over rungs at this one, so that its guard is another one than before.
#[tactic(auto, using(crate::proofs::StepLaws::steps_step))]
fn turns(sheet: Sheet<'_>, jumps: &[Option<Jump>], rung: usize) -> bool
    requires rung { rung < sheet.rungs }
    requires rungs { sheet.rungs ≤ RUNGS }
    requires jumps { IsOfEach sheet.rungs None (jump_of (drawing_of sheet)) jumps.now }
    ensures { result ≡ turns_before (drawing_of sheet.entry) rung rung }
{
    let mut turns = false;
    for earlier in 0..rung {
        turns = turns
            || matches!(jumps[earlier], Some((_, _, target)) if earlier + 1 == rung || target == rung);
    }
    turns
}

/// The gates of one rung, from the lists of the drawing.
fn gates_at<'a>(sheet: Sheet<'_>, lists: Lists<'a>, rung: usize) -> &'a [Gate]
    requires rung { rung < sheet.rungs }
    requires lists { AreLists sheet lists }
    ensures { result.now ≡ gates_of (drawing_of sheet.entry) rung }
{
    &lists.gates[rung]
}

/// The actions of one rung, from the lists of the drawing.
fn actions_at<'a>(sheet: Sheet<'_>, lists: Lists<'a>, rung: usize) -> &'a [Action]
    requires rung { rung < sheet.rungs }
    requires lists { AreLists sheet lists }
    ensures { result.now ≡ actions_of (drawing_of sheet.entry) rung }
{
    &lists.actions[rung]
}

/// The steps of a rung's gates, in their order.
fn gate_steps(
    alloc: Global,
    sheet: Sheet<'_>,
    rung: usize,
    gates: &[Gate],
) -> Result<Vec<Step>, AllocError>
    requires rungs { rung < RUNGS }
    ensures { IfOk result (λ v. v.items ≡ map (gate_step (drawing_of sheet.entry) rung) gates.now) }
{
    gates
        .iter()
        .map(|gate| gate_step(sheet, rung, *gate))
        .collect(alloc)
}

/// The steps of a rung's actions, in their order.
fn action_steps(alloc: Global, rung: u8, actions: &[Action]) -> Result<Vec<Step>, AllocError>
    ensures { IfOk result (λ v. v.items ≡ filter_map (λ a. action_step rung a a.cell) actions.now) }
{
    actions
        .iter()
        .filter_map(|action| action_step(rung, *action))
        .collect(alloc)
}

/// Adds the step that sets the guard anew, where a jump begins or ends to pass over rungs at this one.
fn push_turn(steps: &mut Vec<Step>, rung: u8, turns: bool) -> Result<(), AllocError>
    ensures { IfOk result (λ _. steps.new.items ≡ steps.old.items ++ turn_steps rung turns) }
{
    if turns {
        steps.push(Step::Rare(Rare::Turn { rung }))?;
    }
    Ok(())
}

/// Adds the step of a rung's jump or return, where it has one.
fn push_exit(steps: &mut Vec<Step>, rung: u8, exit: Option<Exit>) -> Result<(), AllocError>
    ensures { IfOk result (λ _. steps.new.items ≡ steps.old.items ++ exit_steps rung exit) }
{
    if let Some(Exit { left, .. }) = exit {
        steps.push(Step::Rare(Rare::Leave { rung, left }))?;
    }
    Ok(())
}

/// Adds the steps of a rung that has this exit and these gates and actions.
#[tactic(auto, using(crate::proofs::StepLaws::four_parts))]
fn push_parts(
    steps: &mut Vec<Step>,
    rung: u8,
    turns: bool,
    gates: &[Step],
    exit: Option<Exit>,
    actions: &[Step],
) -> Result<(), AllocError>
    ensures { IfOk result (λ _. steps.new.items ≡ steps.old.items ++ (turn_steps rung turns ++ (gates.now ++ (exit_steps rung exit ++ actions.now)))) }
{
    push_turn(steps, rung, turns)?;
    steps.extend_from_slice(gates)?;
    push_exit(steps, rung, exit)?;
    steps.extend_from_slice(actions)
}

/// Adds the steps of a rung.
#[tactic(auto, using(crate::proofs::StepLaws::same_parts))]
fn push_rung(
    alloc: Global,
    sheet: Sheet<'_>,
    lists: Lists<'_>,
    rung: usize,
    steps: &mut Vec<Step>,
) -> Result<(), AllocError>
    requires rungs { sheet.rungs ≤ RUNGS }
    requires rung { rung < sheet.rungs }
    requires lists { AreLists sheet lists }
    ensures { IfOk result (λ _. steps.new.items ≡ steps.old.items ++ rung_steps (drawing_of sheet.entry) rung) }
{
    let turns = turns(sheet, lists.jumps, rung);
    let gates = gate_steps(alloc, sheet, rung, gates_at(sheet, lists, rung))?;
    let actions = action_steps(alloc, rung as u8, actions_at(sheet, lists, rung))?;
    push_parts(
        steps,
        rung as u8,
        turns,
        &gates,
        lists.exits[rung],
        &actions,
    )?;
    Ok(())
}

/// The steps of a program, for each rung those of its guard, its gates, its jump and its actions.
#[tactic(auto, using(crate::proofs::StepLaws::steps_step))]
pub(crate) fn steps(
    alloc: Global,
    sheet: Sheet<'_>,
    lists: Lists<'_>,
) -> Result<Vec<Step>, AllocError>
    requires rungs { sheet.rungs ≤ RUNGS }
    requires lists { AreLists sheet lists }
    ensures { IfOk result (λ v. v.items ≡ steps_below (drawing_of sheet.entry) sheet.entry.rungs) }
{
    let mut steps: Vec<Step> = Vec::new(alloc);
    for rung in 0..sheet.rungs {
        push_rung(alloc, sheet, lists, rung, &mut steps)?;
    }
    Ok(steps)
}
