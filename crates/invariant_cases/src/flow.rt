//! Power flow in a rung of a scan, over what is known before the scan and after it. It serves the choice of cases, and nothing else.

ghost use Rattle.std.specs.Prelude.{◌<◌};

use crate::outcome::Outcome;
use crate::pinning::told;
use crate::point::Point;
use crate::writers::Writers;
use diagram_program::gates::{Gate, LINKS, ON};
use diagram_program::geometry::PLACES;
use diagram_program::{Cell, Mode, Operand, Program};
use scan_cycle::gates::link_at;
use scan_cycle::scene::cell;
use scan_partial::Knowledge;
use scan_signals::{Operations, Tri};

/// What is known before a scan and after it, and where what is written in it is.
#[derive(Clone, Copy)]
pub struct ScanKnowledge<'a> {
    pub program: &'a Program,
    pub writers: &'a Writers,
    pub before: &'a Knowledge<Tri, Outcome>,
    pub after: &'a Knowledge<Tri, Outcome>,
}

/// The links of a rung before its gates.
pub(crate) const NO_LINKS: [Tri; LINKS] = [Tri::Off; LINKS];

/// What a contact reads.
pub(crate) fn read_by(operand: Operand) -> Point {
    match operand {
        Operand::Var(var) => Point::Variable(var),
        Operand::Output(inst) => Point::Output(inst),
    }
}

/// What is known of what a rung reads: nothing where both rungs before and after it write that.
fn read(sight: ScanKnowledge<'_>, rung: usize, point: Point) -> Tri {
    let span = sight.writers.span(point);
    if rung <= span.first {
        return told(point, sight.before);
    }
    if span.last < rung {
        return told(point, sight.after);
    }
    Tri::Unsure
}

/// What a contact lets through, by what it reads and, where it is an edge contact, what it read one scan before.
fn contact(mode: Mode, operand: Tri, memory: Tri) -> Tri {
    match mode {
        Mode::Plain => operand,
        Mode::Negated => operand.not(),
        Mode::Rising => operand.and(memory.not()),
        Mode::Falling => operand.not().and(memory),
    }
}

/// The cell of a gate, and what it lets through by itself: of a block, its output.
pub(crate) fn own(sight: ScanKnowledge<'_>, rung: usize, gate: &Gate) -> (Cell, Tri)
    requires { rung < sight.program.now.rungs }
{
    let place = gate.place as usize;
    if PLACES <= place {
        return (Cell::Empty, Tri::Off);
    }
    let cell = cell(sight.program, rung, place);
    let own = match cell {
        Cell::Contact {
            mode,
            operand,
            memory,
        } => {
            let operand = read(sight, rung, read_by(operand));
            contact(mode, operand, sight.before.memory(memory))
        }
        Cell::Wire | Cell::Coil { .. } => Tri::On,
        Cell::Block { inst } => told(Point::Output(inst), sight.after),
        Cell::Empty | Cell::Lower { .. } | Cell::Jump { .. } | Cell::Return => Tri::Off,
    };
    (cell, own)
}

/// What a gate gives, by the links before it.
fn link(sight: ScanKnowledge<'_>, rung: usize, gate: &Gate, links: &[Tri]) -> Tri
    requires { rung < sight.program.now.rungs }
{
    let other = link_at(links, gate.other as usize);
    match own(sight, rung, gate) {
        (Cell::Block { .. }, own) => own.or(other),
        (_, own) => link_at(links, gate.left as usize).and(own).or(other),
    }
}

/// Finds the links of a rung.
pub(crate) fn find_links(sight: ScanKnowledge<'_>, rung: usize, links: &mut [Tri])
    requires { rung < sight.program.now.rungs }
{
    if ON < links.len() {
        links[ON] = Tri::On;
    }
    for gate in sight.program.gates(rung) {
        let link = link(sight, rung, gate, links);
        let place = gate.place as usize;
        if place < links.len() {
            links[place] = link;
        }
    }
}
