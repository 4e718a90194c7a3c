//! Which point cases are made of next: one that leaves open what is asked. The choice decides how long a search takes, and nothing else.

ghost use Rattle.std.specs.Prelude.{◌<◌, ◌≤◌};

use crate::flow::{NO_LINKS, ScanKnowledge, find_links, own, read_by};
use crate::pair::Pair;
use crate::pinning::told;
use crate::point::Point;
use crate::points::point_of;
use crate::writers::written;
use diagram_declarations::BlockKind;
use diagram_program::Cell;
use diagram_program::gates::{Action, Gate, LINKS};
use scan_cycle::gates::link_at;
use scan_cycle::scene::instance;
use scan_signals::{Operations, Tri};

/// How often something that is written is looked into.
const VISITS: u32 = 256;

/// A point that is open before the scan.
fn open_before(sight: ScanKnowledge<'_>, point: Point) -> Option<Point> {
    match told(point, sight.before) {
        Tri::Unsure => Some(point),
        Tri::Off | Tri::On => None,
    }
}

/// What the output of a block depends on beside its inputs, where both are open.
fn open_block(sight: ScanKnowledge<'_>, inst: usize) -> Option<Point> {
    match (
        told(Point::Output(inst), sight.after),
        instance(sight.program, inst).0,
    ) {
        (Tri::Off | Tri::On, _) => None,
        (Tri::Unsure, BlockKind::Sr | BlockKind::Rs) => open_before(sight, Point::Output(inst)),
        (
            Tri::Unsure,
            BlockKind::Ton | BlockKind::Tof | BlockKind::Tp | BlockKind::Ctu | BlockKind::Ctd,
        ) => open_before(sight, Point::Answer(inst)),
    }
}

/// The memory of an edge contact or an edge coil, where it is open before the scan.
fn open_memory(sight: ScanKnowledge<'_>, memory: Option<usize>) -> Option<Point> {
    match memory {
        Some(number) => open_before(sight, Point::Memory(number)),
        None => None,
    }
}

/// Whether a scan reads it in the rung as it was before, or what the scan itself leaves of it is known.
fn is_told(sight: ScanKnowledge<'_>, rung: usize, target: Point) -> bool {
    sight.writers.span(target).last < rung && told(target, sight.after) != Tri::Unsure
}

/// A point that leaves open what a rung reads.
#[cycle(tracing)]
fn open_read(
    sight: ScanKnowledge<'_>,
    rung: usize,
    target: Point,
    visits: &mut u32,
) -> Option<Point>
    requires { rung < sight.program.now.rungs }
{
    if rung <= sight.writers.span(target).first {
        return open_before(sight, target);
    }
    if is_told(sight, rung, target) {
        return None;
    }
    open_written(sight, target, rung, visits)
}

/// A point that leaves open what a cell of a rung lets through by itself.
#[cycle(tracing)]
fn open_cell(sight: ScanKnowledge<'_>, rung: usize, cell: Cell, visits: &mut u32) -> Option<Point>
    requires { rung < sight.program.now.rungs }
{
    match cell {
        Cell::Contact {
            operand,
            memory,
            ..
        } => match open_read(sight, rung, read_by(operand), visits) {
            Some(point) => Some(point),
            None => open_memory(sight, memory),
        },
        Cell::Block { inst } => open_block(sight, inst),
        Cell::Coil { .. }
        | Cell::Empty
        | Cell::Wire
        | Cell::Lower { .. }
        | Cell::Jump { .. }
        | Cell::Return => None,
    }
}

/// Marks a link, where it is open.
fn mark(links: &[Tri], at: u8, marked: &mut [bool]) {
    let at = at as usize;
    if at < marked.len() && link_at(links, at) == Tri::Unsure {
        marked[at] = true;
    }
}

/// Whether a link is marked.
fn is_marked(marked: &[bool], at: u8) -> bool {
    match marked.get(at as usize) {
        Some(is_marked) => *is_marked,
        None => false,
    }
}

/// Marks what a gate is open by.
fn mark_before(gate: &Gate, links: &[Tri], marked: &mut [bool]) {
    mark(links, gate.left, marked);
    mark(links, gate.other, marked);
    mark(links, gate.below, marked);
}

/// A point that leaves open what a gate lets through, unless no power reaches it.
#[cycle(tracing)]
fn open_gate(
    sight: ScanKnowledge<'_>,
    rung: usize,
    gate: &Gate,
    links: &[Tri],
    visits: &mut u32,
) -> Option<Point>
    requires { rung < sight.program.now.rungs }
{
    let (cell, own) = own(sight, rung, gate);
    match (cell, own, link_at(links, gate.left as usize)) {
        (_, Tri::Off | Tri::On, _) | (Cell::Contact { .. }, _, Tri::Off) => None,
        (_, Tri::Unsure, _) => open_cell(sight, rung, cell, visits),
    }
}

/// A point that leaves a link of a rung open: the nearest to it on the ways that lead there.
#[cycle(tracing)]
fn open_in(sight: ScanKnowledge<'_>, rung: usize, at: u8, visits: &mut u32) -> Option<Point>
    requires { rung < sight.program.now.rungs }
{
    let mut links = NO_LINKS;
    find_links(sight, rung, &mut links);
    let mut marked = [false; LINKS];
    mark(&links, at, &mut marked);
    let gates = sight.program.gates(rung);
    for number in 0..gates.len() {
        let gate = &gates[gates.len() - 1 - number];
        if is_marked(&marked, gate.place) {
            if let Some(point) = open_gate(sight, rung, gate, &links, visits) {
                return Some(point);
            }
            mark_before(gate, &links, &mut marked);
        }
    }
    None
}

/// A point that leaves it open whether the jump or return of a rung leads past another one.
#[cycle(tracing)]
fn open_exit(sight: ScanKnowledge<'_>, rung: usize, other: usize, visits: &mut u32) -> Option<Point>
    requires { rung < sight.program.now.rungs }
{
    match sight.program.exit(rung) {
        Some(exit) if other < exit.target => open_in(sight, rung, exit.left, visits),
        Some(_) | None => None,
    }
}

/// A point that leaves it open whether a rung is evaluated.
#[cycle(tracing)]
fn open_way(sight: ScanKnowledge<'_>, rung: usize, visits: &mut u32) -> Option<Point>
    requires { rung < sight.program.now.rungs }
{
    for other in 0..rung {
        if let Some(point) = open_exit(sight, other, rung, visits) {
            return Some(point);
        }
    }
    None
}

/// A point that leaves it open what a cell of a rung writes.
#[cycle(tracing)]
fn open_action(
    sight: ScanKnowledge<'_>,
    rung: usize,
    action: &Action,
    visits: &mut u32,
) -> Option<Point>
    requires { rung < sight.program.now.rungs }
{
    let own = match action.cell {
        Cell::Coil { memory, .. } => open_memory(sight, memory),
        cell => open_cell(sight, rung, cell, visits),
    };
    if own.is_some() {
        return own;
    }
    match open_in(sight, rung, action.left, visits) {
        Some(point) => Some(point),
        None => open_in(sight, rung, action.below, visits),
    }
}

/// A point that leaves it open what a rung makes of it.
#[cycle(tracing)]
fn open_writer(
    sight: ScanKnowledge<'_>,
    target: Point,
    rung: usize,
    visits: &mut u32,
) -> Option<Point>
    requires { rung < sight.program.now.rungs }
{
    for action in sight.program.actions(rung) {
        if written(action.cell) == Some(target) {
            if let Some(point) = open_way(sight, rung, visits) {
                return Some(point);
            }
            if let Some(point) = open_action(sight, rung, action, visits) {
                return Some(point);
            }
        }
    }
    None
}

/// A point that leaves it open what the rungs before this one make of it, of which the last one matters most.
#[cycle(tracing)]
fn open_written(
    sight: ScanKnowledge<'_>,
    target: Point,
    end: usize,
    visits: &mut u32,
) -> Option<Point>
    requires { end ≤ sight.program.now.rungs }
{
    if *visits == 0 {
        return None;
    }
    *visits -= 1;
    let span = sight.writers.span(target);
    for number in 0..end {
        let rung = end - 1 - number;
        if span.first <= rung && rung <= span.last {
            if let Some(point) = open_writer(sight, target, rung, visits) {
                return Some(point);
            }
        }
    }
    open_before(sight, target)
}

/// A point that leaves the target open after the scan, where it is: a variable or an output.
pub fn open_point(sight: ScanKnowledge<'_>, target: Point) -> Option<Point> {
    match told(target, sight.after) {
        Tri::Off | Tri::On => None,
        Tri::Unsure => {
            let mut visits = VISITS;
            open_written(sight, target, sight.program.rungs(), &mut visits)
        }
    }
}

/// A point that leaves one of a pair open after the scan.
pub fn choose(sight: ScanKnowledge<'_>, pair: Pair) -> Option<Point> {
    match open_point(sight, point_of(pair.first)) {
        Some(point) => Some(point),
        None => open_point(sight, point_of(pair.second)),
    }
}
