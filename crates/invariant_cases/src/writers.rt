//! In which rungs variables and outputs of instances are written.

ghost use Rattle.std.specs.Prelude.{◌<◌};

use crate::point::Point;
use diagram_program::geometry::PLACES;
use diagram_program::{Cell, Program};
use scan_cycle::Memory;
use scan_cycle::scene::cell;
use std::alloc::Global;

/// The first rung and the last one in which it is written. Where it is in none, the first is past the last.
#[derive(Clone, Copy)]
pub(crate) struct Span {
    pub(crate) first: usize,
    pub(crate) last: usize,
}

const NOWHERE: Span = Span {
    first: usize::MAX,
    last: 0,
};

/// These rungs for each variable, and for the output of each instance.
#[derive(Drop)]
pub struct Writers {
    variables: Vec<Span>,
    instances: Vec<Span>,
}

/// What a cell writes.
pub(crate) fn written(cell: Cell) -> Option<Point> {
    match cell {
        Cell::Coil { var, .. } => Some(Point::Variable(var)),
        Cell::Block { inst } => Some(Point::Output(inst)),
        Cell::Empty
        | Cell::Wire
        | Cell::Contact { .. }
        | Cell::Lower { .. }
        | Cell::Jump { .. }
        | Cell::Return => None,
    }
}

/// Notes that a rung writes one; rungs come in order.
fn note(spans: &mut [Span], number: usize, rung: usize) {
    if number < spans.len() {
        let first = spans[number].first;
        spans[number] = Span {
            first: if rung < first { rung } else { first },
            last: rung,
        };
    }
}

impl Writers {
    /// Those of the program.
    ///
    /// # Errors
    ///
    /// `Memory` when out of memory.
    pub fn new(alloc: Global, program: &Program) -> Result<Writers, Memory> {
        let decls = program.decls();
        let mut writers = Writers {
            variables: vec![in alloc; NOWHERE; decls.vars().len()]?,
            instances: vec![in alloc; NOWHERE; decls.instances().len()]?,
        };
        for rung in 0..program.rungs() {
            writers.note_rung(program, rung);
        }
        Ok(writers)
    }

    /// Notes what the cells of a rung write.
    fn note_rung(&mut self, program: &Program, rung: usize)
        requires { rung < program.now.rungs }
    {
        for place in 0..PLACES {
            match written(cell(program, rung, place)) {
                Some(Point::Variable(var)) => note(&mut self.variables, var, rung),
                Some(Point::Output(inst)) => note(&mut self.instances, inst, rung),
                Some(Point::Memory(_) | Point::Answer(_)) | None => {}
            }
        }
    }

    /// Where it is written.
    pub(crate) fn span(&self, point: Point) -> Span {
        let span = match point {
            Point::Variable(var) => self.variables.get(var),
            Point::Output(inst) => self.instances.get(inst),
            Point::Memory(_) | Point::Answer(_) => None,
        };
        span.copied().unwrap_or(NOWHERE)
    }
}
