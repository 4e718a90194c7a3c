//! The statements of one cell.

ghost use Rattle.std.specs.Prelude.{◌≡◌, ◌<◌, ◌∷◌, ◌++◌, [], IfSome, IsTrue, false, None, Some, length};
ghost use Rattle.diagram_program.specs.declared.cell.Cell.TheVariants.{Block};
ghost use Rattle.scan_cycle.specs.Programs.{diagram_of};
ghost use Rattle.export_power.specs.Sight.{is_called};
ghost use Rattle.export_rungs.specs.Steps.{Begins, Go, IsMemory};

use crate::forms::{edge_contact, inverse_coil, store_coil};
use crate::lists::{assignment_of, call_of, inverse_of};
use crate::rung::{Rung, shows, shows_second};
use diagram_program::gates::Action;
use diagram_program::geometry::PLACES;
use diagram_program::{Cell, Operand, Program};
use export_power::{Network, is_operand};
use scan_cycle::scene::{cell, checked};
use st_expression::Expression;
use st_statements::StatementList;

/// The variable that has a memory of the program.
pub(crate) fn variable_of(program: &Program, memory: usize) -> Option<usize>
    ensures { IfSome result (λ v. IsMemory program.now memory v) }
{
    if memory >= program.memories() {
        return None;
    }
    program.decls().vars().len().checked_add(memory)
}

/// Whether a program has a variable with this number.
pub(crate) fn is_own(program: &Program, variable: usize) -> bool
    ensures { IsTrue result → variable < length program.now.decls.vars }
{
    variable < program.decls().vars().len()
}

/// Whether an expression has the value that an operand had at the start of the rung, where these cells are done.
pub(crate) fn begins(
    at: Rung<'_>,
    done: &[Action],
    expression: &Expression,
    operand: Operand,
) -> bool
    ensures { IsTrue result → Begins at.entry.scan.program.now at.entry.rung done.now at.entry.known.now operand expression.now }
{
    let network = Network {
        program: at.scan.program,
        rung: at.rung,
        known: at.known,
        done,
    };
    is_operand(network, expression, operand)
}

/// The statements behind the one in which an edge contact remembers its operand.
fn behind_edge<'a>(
    at: Rung<'_>,
    done: &[Action],
    action: Action,
    list: &'a StatementList,
) -> Option<&'a StatementList>
    ensures { IfSome result (λ rest. Go at.entry.scan.program.now at.entry.scan.variables at.entry.scan.jumps at.entry.rung at.entry.known.now done.now (done.now ++ action ∷ []) list.now rest.now) }
{
    let (operand, memory) = edge_contact(action.cell)?;
    let own = variable_of(at.scan.program, memory)?;
    let (variable, value, next) = assignment_of(list)?;
    if variable != own || !begins(at, done, value, operand) {
        return None;
    }
    Some(next)
}

/// The statements behind the one that writes what a coil `( )` writes.
fn behind_store<'a>(
    at: Rung<'_>,
    done: &[Action],
    action: Action,
    list: &'a StatementList,
) -> Option<&'a StatementList>
    ensures { IfSome result (λ rest. Go at.entry.scan.program.now at.entry.scan.variables at.entry.scan.jumps at.entry.rung at.entry.known.now done.now (done.now ++ action ∷ []) list.now rest.now) }
{
    let var = store_coil(action.cell)?;
    let (variable, value, next) = assignment_of(list)?;
    if variable != var
        || !is_own(at.scan.program, var)
        || !shows(at, done, value, action.place as usize)
    {
        return None;
    }
    Some(next)
}

/// The statements behind the one that writes what a coil `(/)` writes.
fn behind_inverse<'a>(
    at: Rung<'_>,
    done: &[Action],
    action: Action,
    list: &'a StatementList,
) -> Option<&'a StatementList>
    ensures { IfSome result (λ rest. Go at.entry.scan.program.now at.entry.scan.variables at.entry.scan.jumps at.entry.rung at.entry.known.now done.now (done.now ++ action ∷ []) list.now rest.now) }
{
    let var = inverse_coil(action.cell)?;
    let (variable, value, next) = assignment_of(list)?;
    let power = inverse_of(value)?;
    if variable != var
        || !is_own(at.scan.program, var)
        || !shows(at, done, power, action.place as usize)
    {
        return None;
    }
    Some(next)
}

/// The statements behind the one that calls a block.
fn behind_call<'a>(
    at: Rung<'_>,
    done: &[Action],
    action: Action,
    list: &'a StatementList,
) -> Option<&'a StatementList>
    ensures { IfSome result (λ rest. Go at.entry.scan.program.now at.entry.scan.variables at.entry.scan.jumps at.entry.rung at.entry.known.now done.now (done.now ++ action ∷ []) list.now rest.now) }
{
    let Cell::Block { inst } = action.cell else {
        return None;
    };
    let call = call_of(list)?;
    checked(at.scan.program);
    if call.instance != inst
        || !is_new(at, done, action, inst)
        || !shows(at, done, call.first, action.place as usize)
        || !shows_second(at, done, call.second, action.place as usize)
    {
        return None;
    }
    Some(call.next)
}

/// Whether one of these cells is the block of an instance.
fn is_called(done: &[Action], instance: usize) -> bool
    ensures { result ≡ is_called instance done.now }
{
    done.iter()
        .any(|action| action.cell.block() == Some(instance))
}

/// Whether an instance is one of the program, its block is at the place of the action, and it isn't among the cells that are done.
fn is_new(at: Rung<'_>, done: &[Action], action: Action, instance: usize) -> bool
    ensures small { IsTrue result → instance < length at.entry.scan.program.now.decls.instances }
    ensures there { IsTrue result → (diagram_of at.entry.scan.program.now).cell at.entry.rung action.place ≡ Block instance }
    ensures new { IsTrue result → is_called instance done.now ≡ false }
{
    let place = action.place as usize;
    place < PLACES
        && instance < at.scan.program.decls().instances().len()
        && is_block(cell(at.scan.program, at.rung, place), instance)
        && !is_called(done, instance)
}

/// Whether a cell is the block of an instance.
fn is_block(cell: Cell, instance: usize) -> bool
    ensures { IsTrue result → cell ≡ Block instance }
{
    match cell {
        Cell::Block { inst } => inst == instance,
        _ => false,
    }
}

/// The statements behind those of a cell that is an edge contact, a coil `( )` or `(/)`, or a block.
pub(crate) fn behind_plain<'a>(
    at: Rung<'_>,
    done: &[Action],
    action: Action,
    list: &'a StatementList,
) -> Option<&'a StatementList>
    ensures { IfSome result (λ rest. Go at.entry.scan.program.now at.entry.scan.variables at.entry.scan.jumps at.entry.rung at.entry.known.now done.now (done.now ++ action ∷ []) list.now rest.now) }
{
    match action.cell {
        Cell::Contact { .. } => behind_edge(at, done, action, list),
        Cell::Coil { .. } => match behind_store(at, done, action, list) {
            Some(next) => Some(next),
            None => behind_inverse(at, done, action, list),
        },
        Cell::Block { .. } => behind_call(at, done, action, list),
        _ => None,
    }
}
