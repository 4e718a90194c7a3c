//! Which cells of a program write a memory of an edge, a variable or an output. It serves the choice of cases, and nothing else.

ghost use Rattle.std.specs.Prelude.{◌<◌, ◌≤◌, IfSome};

use diagram_program::{Cell, Operand, Program};
use invariant_cases::Point;

/// A cell, and the rung that it is in.
#[derive(Clone, Copy)]
pub(crate) struct Owner {
    pub(crate) rung: usize,
    pub(crate) cell: Cell,
}

/// What a contact reads.
pub(crate) fn read_by(operand: Operand) -> Point {
    match operand {
        Operand::Var(var) => Point::Variable(var),
        Operand::Output(inst) => Point::Output(inst),
    }
}

/// What a cell writes beside a memory.
pub(crate) fn written_by(cell: Cell) -> Option<Point> {
    match cell {
        Cell::Coil { var, .. } => Some(Point::Variable(var)),
        Cell::Block { inst } => Some(Point::Output(inst)),
        Cell::Empty
        | Cell::Wire
        | Cell::Contact { .. }
        | Cell::Lower { .. }
        | Cell::Jump { .. }
        | Cell::Return => None,
    }
}

/// Whether a cell writes this memory.
fn has_memory(cell: Cell, number: usize) -> bool {
    match cell {
        Cell::Contact { memory, .. } | Cell::Coil { memory, .. } => memory == Some(number),
        Cell::Empty
        | Cell::Wire
        | Cell::Block { .. }
        | Cell::Lower { .. }
        | Cell::Jump { .. }
        | Cell::Return => false,
    }
}

/// The cell of a rung that writes this memory.
fn owner_in(program: &Program, rung: usize, number: usize) -> Option<Owner>
    requires { rung < program.now.rungs }
    ensures { IfSome result (λ o. o.rung < program.now.rungs) }
{
    for action in program.actions(rung) {
        if has_memory(action.cell, number) {
            return Some(Owner {
                rung,
                cell: action.cell,
            });
        }
    }
    None
}

/// The cell that writes this memory.
pub(crate) fn find_owner(program: &Program, number: usize) -> Option<Owner>
    ensures { IfSome result (λ o. o.rung < program.now.rungs) }
{
    for rung in 0..program.rungs() {
        if let Some(owner) = owner_in(program, rung, number) {
            return Some(owner);
        }
    }
    None
}

/// What a rung writes first beside memories.
pub(crate) fn first_written(program: &Program, rung: usize) -> Option<Point>
    requires { rung < program.now.rungs }
{
    for action in program.actions(rung) {
        if let Some(point) = written_by(action.cell) {
            return Some(point);
        }
    }
    None
}

/// Whether a rung writes it.
fn is_written_in(program: &Program, rung: usize, point: Point) -> bool
    requires { rung < program.now.rungs }
{
    for action in program.actions(rung) {
        if written_by(action.cell) == Some(point) {
            return true;
        }
    }
    false
}

/// Whether a rung before this one writes it.
pub(crate) fn is_written_before(program: &Program, end: usize, point: Point) -> bool
    requires { end ≤ program.now.rungs }
{
    for rung in 0..end {
        if is_written_in(program, rung, point) {
            return true;
        }
    }
    false
}
