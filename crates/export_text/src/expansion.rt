//! The power of a node as an expression.

use crate::network::Network;
use crate::node::{Node, RAIL};
use crate::piece::{Piece, negative, only, positive, symbol_in};
use diagram_program::geometry::{COLUMNS, ROWS};
use io_table::{Part, Table};
use std::alloc::Global;

/// The most steps that an expression is written in.
const MOST_STEPS: usize = 100_000;

/// What is still to be written of an expression.
#[derive(Clone, Copy)]
pub(crate) enum Task {
    /// What the power of a node needs beside that of another one. If it is an OR, and another operand of an OR stands behind it, it has
    /// parentheses: `a OR b OR c` is read as `a OR (b OR c)`, and the rows of one joint stay together.
    Power {
        node: Node,
        target: Node,
        is_last: bool,
    },
    /// What a node adds to its next one, where its branches meet; they are written from the target on. It needs no parentheses where it is all
    /// of an expression.
    Part {
        node: Node,
        next: Node,
        target: Node,
        is_all: bool,
    },
    Put(Piece),
}

/// Expressions, and what is still to be written of the last one: the last task is the first to be done.
#[derive(Drop)]
pub(crate) struct Expressions {
    pub pieces: Table<Piece>,
    pub tasks: Table<Task>,
    /// How many literals the last one has.
    pub literals: usize,
    /// The node next to the rail from which wires lead past contacts in the last one, and no helper stands for them: `TRUE` is an operand there.
    pub wired: Option<Node>,
}

impl Expressions {
    /// No expressions.
    pub(crate) fn new(alloc: Global) -> Expressions {
        Expressions {
            pieces: Table::new(alloc),
            tasks: Table::new(alloc),
            literals: 0,
            wired: None,
        }
    }

    /// Divides the way from a node to another one into parts, the one next to the rail first.
    fn divide(&mut self, network: &Network, node: Node, target: Node, is_last: bool) {
        if node.is(target) {
            return self.tasks.push(Task::Put(Piece::Constant(true)));
        }
        let mut part = node;
        let is_all = is_last && network.start(node).is(target);
        for _ in 0..=COLUMNS {
            let (next, start) = (network.next(part), network.start(part));
            self.tasks.push(Task::Part {
                node: part,
                next,
                target: start,
                is_all,
            });
            if start.is(target) || start.column == 0 {
                break;
            }
            self.tasks.push(Task::Put(Piece::And));
            part = next;
        }
    }

    /// Divides what a node adds into its branches, which meet at the next one, the upper ones first.
    fn branch(&mut self, network: &Network, node: Node, next: Node, target: Node) {
        let mut rows = node;
        for number in 0..ROWS {
            let last = network.last_branch(rows, next);
            self.tasks.push(Task::Power {
                node: network.behind_wires(last),
                target,
                is_last: number == 0,
            });
            rows = rows.without(last);
            if rows.is_empty() {
                break;
            }
            self.tasks.push(Task::Put(Piece::Or));
        }
    }

    /// Writes what a node adds, or divides it into branches.
    fn part(&mut self, network: &Network, node: Node, next: Node, target: Node, is_all: bool) {
        if let Some(piece) = network.piece(node) {
            return self.put(piece);
        }
        if !is_all {
            self.put(Piece::Open);
            self.tasks.push(Task::Put(Piece::Close));
        }
        self.branch(network, node, next, target);
    }

    /// Writes a branch that is a wire from a node: the helper that stands for it, or `TRUE`.
    fn wire(&mut self, network: &Network, node: Node) {
        if let Some(helper) = network.wire(node) {
            return self.put(positive(helper));
        }
        let is_nearer = match self.wired {
            Some(found) => node.column < found.column,
            None => true,
        };
        if is_nearer {
            self.wired = Some(node);
        }
        self.put(Piece::Constant(true));
    }

    /// Writes a piece.
    fn put(&mut self, piece: Piece) {
        if symbol_in(piece).is_some() {
            self.literals = self.literals.saturating_add(1);
        }
        self.pieces.push(piece);
    }

    /// Does a task.
    fn perform(&mut self, network: &Network, task: Task) {
        match task {
            Task::Power { node, target, .. } if node.is(target) => self.wire(network, node),
            Task::Power {
                node,
                target,
                is_last,
            } => self.divide(network, node, target, is_last),
            Task::Part {
                node,
                next,
                target,
                is_all,
            } => self.part(network, node, next, target, is_all),
            Task::Put(piece) => self.put(piece),
        }
    }

    /// Adds the power of a node as an expression, unless it has more than so many literals.
    pub(crate) fn power(&mut self, network: &Network, node: Node, most: usize) -> Option<Part> {
        let from = self.pieces.len();
        self.tasks.truncate(0);
        self.literals = 0;
        self.wired = None;
        self.divide(network, node, RAIL, true);
        for _ in 0..MOST_STEPS {
            let Some(task) = self.tasks.pop() else {
                break;
            };
            self.perform(network, task);
            if self.literals > most {
                return None;
            }
        }
        Some(self.pieces.since(from))
    }

    /// Adds an expression of one piece.
    pub(crate) fn alone(&mut self, piece: Piece) -> Part {
        let from = self.pieces.len();
        self.pieces.push(piece);
        self.pieces.since(from)
    }

    /// Adds the inverse of an expression.
    pub(crate) fn inverse(&mut self, of: Part) -> Part {
        let from = self.pieces.len();
        match only(self.pieces.part(of)) {
            Some(
                Piece::Literal {
                    symbol,
                    is_on: true,
                },
            ) => self.pieces.push(negative(symbol)),
            Some(Piece::Constant(value)) => self.pieces.add(&[Piece::Not, Piece::Constant(value)]),
            _ => {
                self.pieces.add(&[Piece::Not, Piece::Open]);
                self.pieces.repeat(of);
                self.pieces.push(Piece::Close);
            }
        }
        self.pieces.since(from)
    }
}
