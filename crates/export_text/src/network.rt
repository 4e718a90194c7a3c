//! The network of a rung, and where its branches meet.

use crate::node::{Node, RAIL};
use crate::piece::{Piece, negative, positive};
use crate::symbol::Symbol;
use diagram_program::geometry::{COLUMNS, PLACES, Place, ROWS};
use diagram_program::{Cell, Mode, Operand, Program};
use io_table::Table;
use std::alloc::Global;

/// A node whose power a helper has.
#[derive(Clone, Copy)]
pub(crate) struct Kept {
    node: Node,
    helper: Symbol,
    /// The helper stands for the wires that lead from the node past contacts.
    is_wired: bool,
}

/// The network of a rung, place by place: columns from the left, and in each from the top row.
#[derive(Drop)]
pub(crate) struct Network {
    pub cells: Table<Cell>,
    /// What leads to the left of each place.
    pub lefts: Table<Node>,
    /// The nearest node on the way to the rail that all power of the left goes through.
    pub nexts: Table<Node>,
    pub kept: Table<Kept>,
}

/// The number of a place.
pub(crate) fn place_of(column: usize, row: usize) -> usize {
    column.saturating_mul(ROWS).saturating_add(row)
}

/// The cell at a place of a rung.
fn cell_at(program: &Program, rung: usize, row: usize, column: usize) -> Cell {
    if rung < program.rungs() && row < ROWS && column < COLUMNS {
        program.cell(rung, row, column)
    } else {
        Cell::Empty
    }
}

/// The rows that feed a place.
fn feeders(program: &Program, rung: usize, row: usize, column: usize) -> Node {
    let mut node = Node { column, ..RAIL };
    if rung < program.rungs() && row < ROWS && column < COLUMNS {
        for from in 0..ROWS {
            if program.feeds(Place { rung, row, column }, from) {
                node = node.with(from);
            }
        }
    }
    node
}

/// What a contact reads, as a rung finds it.
pub(crate) fn symbol_of(operand: Operand) -> Symbol {
    match operand {
        Operand::Var(variable) => Symbol::Variable(variable),
        Operand::Output(instance) => Symbol::Output(instance),
    }
}

/// Where a contact at a place is closed.
fn contact(mode: Mode, operand: Operand, place: usize) -> Piece {
    match mode {
        Mode::Plain => positive(symbol_of(operand)),
        Mode::Negated => negative(symbol_of(operand)),
        Mode::Rising | Mode::Falling => positive(Symbol::Edge(place)),
    }
}

impl Network {
    /// A network of no places.
    pub(crate) fn new(alloc: Global) -> Network {
        Network {
            cells: Table::new(alloc),
            lefts: Table::new(alloc),
            nexts: Table::new(alloc),
            kept: Table::new(alloc),
        }
    }

    /// Begins the network of a rung.
    pub(crate) fn begin(&mut self, program: &Program, rung: usize) {
        self.cells.truncate(0);
        self.lefts.truncate(0);
        self.kept.truncate(0);
        for place in 0..PLACES {
            let (row, column) = (place % ROWS, place / ROWS);
            self.cells.push(cell_at(program, rung, row, column));
            let left = self.behind_wires(feeders(program, rung, row, column));
            self.lefts.push(left);
        }
        self.join();
    }

    /// Finds out where the branches on the left of each place meet.
    fn join(&mut self) {
        self.nexts.truncate(0);
        for place in 0..PLACES {
            let next = self.next(self.left(place));
            self.nexts.push(next);
        }
    }

    /// What leads to the left of a place.
    pub(crate) fn left(&self, place: usize) -> Node {
        match self.lefts.at(place) {
            Some(node) => node,
            None => RAIL,
        }
    }

    /// The cell on whose right a row ends.
    fn cell(&self, column: usize, row: usize) -> Cell {
        match self.cells.at(place_of(column.saturating_sub(1), row)) {
            Some(cell) => cell,
            None => Cell::Empty,
        }
    }

    /// The node of a row, or what leads to it by wires.
    fn behind(&self, column: usize, row: usize) -> Node {
        match self.cell(column, row) {
            Cell::Wire | Cell::Coil { .. } => { self.left(place_of(column.saturating_sub(1), row)) }
            Cell::Empty
            | Cell::Contact { .. }
            | Cell::Block { .. }
            | Cell::Lower { .. }
            | Cell::Jump { .. }
            | Cell::Return => Node::of_row(column, row),
        }
    }

    /// The node that leads to a node by wires alone.
    pub(crate) fn behind_wires(&self, node: Node) -> Node {
        match node.only() {
            Some(row) if node.column > 0 => self.behind(node.column, row),
            _ => node,
        }
    }

    /// The helper that has the power of a node.
    fn helper(&self, node: Node) -> Option<Symbol> {
        for kept in self.kept.items() {
            if kept.node.is(node) {
                return Some(kept.helper);
            }
        }
        None
    }

    /// The helper that stands for the wires that lead from a node past contacts.
    pub(crate) fn wire(&self, node: Node) -> Option<Symbol> {
        for kept in self.kept.items() {
            if kept.is_wired && kept.node.is(node) {
                return Some(kept.helper);
            }
        }
        None
    }

    /// Says that a helper has the power of a node, and whether it stands for wires.
    pub(crate) fn keep(&mut self, node: Node, helper: Symbol, is_wired: bool) {
        self.kept.push(Kept {
            node,
            helper,
            is_wired,
        });
        self.join();
    }

    /// The next node of one that leads to a place, as far as that is known.
    fn known_next(&self, node: Node) -> Node {
        for row in 0..ROWS {
            let place = place_of(node.column, row);
            if self.left(place).is(node) {
                return match self.nexts.at(place) {
                    Some(next) => next,
                    None => RAIL,
                };
            }
        }
        RAIL
    }

    /// The next node of one row.
    fn next_of_row(&self, column: usize, row: usize) -> Node {
        match self.cell(column, row) {
            Cell::Contact { .. } => self.left(place_of(column.saturating_sub(1), row)),
            Cell::Empty
            | Cell::Wire
            | Cell::Coil { .. }
            | Cell::Block { .. }
            | Cell::Lower { .. }
            | Cell::Jump { .. }
            | Cell::Return => RAIL,
        }
    }

    /// The next node of one on the way from a node to the rail.
    fn step(&self, node: Node) -> Node {
        if node.column == 0 || self.helper(node).is_some() {
            return RAIL;
        }
        match node.only() {
            Some(row) => self.next_of_row(node.column, row),
            None => self.known_next(node),
        }
    }

    /// The nearest node that the ways from two nodes to the rail have in common.
    fn meeting(&self, first: Node, second: Node) -> Node {
        let (mut first, mut second) = (first, second);
        for _ in 0..2 * COLUMNS {
            if first.is(second) {
                return first;
            }
            if first.column >= second.column {
                first = self.step(first);
            } else {
                second = self.step(second);
            }
        }
        RAIL
    }

    /// The nearest node where the branches of some rows meet.
    fn meeting_of(&self, node: Node) -> Node {
        let mut met: Option<Node> = None;
        for row in 0..ROWS {
            if node.has(row) {
                let branch = self.behind(node.column, row);
                met = Some(match met {
                    Some(before) => self.meeting(before, branch),
                    None => branch,
                });
            }
        }
        match met {
            Some(node) => node,
            None => RAIL,
        }
    }

    /// The next node on the way to the rail that all power of a node goes through.
    pub(crate) fn next(&self, node: Node) -> Node {
        if node.column == 0 || self.helper(node).is_some() || node.is_empty() {
            return RAIL;
        }
        match node.only() {
            Some(row) => self.next_of_row(node.column, row),
            None => self.meeting_of(node),
        }
    }

    /// Where the branches of a node begin in an expression: at its next node, or at the left rail where a helper stands for a wire from there.
    pub(crate) fn start(&self, node: Node) -> Node {
        let next = self.next(node);
        if self.wire(next).is_some() && self.piece(node).is_none() {
            RAIL
        } else {
            next
        }
    }

    /// What a node adds to the power of the next one, where that is one piece.
    pub(crate) fn piece(&self, node: Node) -> Option<Piece> {
        if let Some(helper) = self.helper(node) {
            return Some(positive(helper));
        }
        if node.is_empty() {
            return Some(Piece::Constant(false));
        }
        let row = node.only()?;
        let place = place_of(node.column.saturating_sub(1), row);
        Some(match self.cell(node.column, row) {
            Cell::Contact { mode, operand, .. } => contact(mode, operand, place),
            Cell::Block { inst } => positive(Symbol::Called(inst)),
            Cell::Empty
            | Cell::Wire
            | Cell::Coil { .. }
            | Cell::Lower { .. }
            | Cell::Jump { .. }
            | Cell::Return => Piece::Constant(false),
        })
    }

    /// The lowest of some rows together with those above it whose branches meet nearer than all of them do.
    pub(crate) fn last_branch(&self, node: Node, target: Node) -> Node {
        let mut branch: Option<(Node, Node)> = None;
        for row in (0..ROWS).rev() {
            if node.has(row) {
                let behind = self.behind(node.column, row);
                let Some((rows, met)) = branch else {
                    branch = Some((Node::of_row(node.column, row), behind));
                    continue;
                };
                let meeting = self.meeting(met, behind);
                if meeting.is(target) {
                    break;
                }
                branch = Some((rows.with(row), meeting));
            }
        }
        match branch {
            Some((rows, _)) => rows,
            None => node,
        }
    }

    /// The edge contact at a place: its mode, what it reads, and the number of its memory.
    pub(crate) fn edge(&self, place: usize) -> Option<(Mode, Symbol, usize)> {
        match self.cells.at(place) {
            Some(
                Cell::Contact {
                    mode,
                    operand,
                    memory: Some(memory),
                },
            ) => Some((mode, symbol_of(operand), memory)),
            _ => None,
        }
    }

    /// Whether the cell below a place is the second input of its block, and has a wire.
    pub(crate) fn has_second(&self, place: usize) -> bool {
        matches!(
            self.cells.at(place.saturating_add(1)),
            Some(Cell::Lower { linked: true, .. })
        )
    }

    /// The node of several rows that leads to a place, where no wires and no helper stand for it.
    pub(crate) fn joint(&self, place: usize) -> Option<Node> {
        let node = self.left(place);
        let is_here = node.column == place / ROWS;
        let is_joint = !node.is_empty() && node.only().is_none();
        if is_here && is_joint && self.helper(node).is_none() {
            Some(node)
        } else {
            None
        }
    }
}
