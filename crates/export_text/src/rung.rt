//! What is known while the statements of a rung are written.

use crate::expansion::Expressions;
use crate::form::Form;
use crate::names::Names;
use crate::network::Network;
use crate::node::Node;
use crate::piece::{Piece, negative, only, positive, symbol_in};
use crate::statements::Style;
use crate::symbol::Symbol;
use crate::text::Text;
use diagram_program::gates::Action;
use diagram_program::geometry::PLACES;
use diagram_program::{Cell, Mode, Program};
use io_table::{Part, Table};
use std::alloc::Global;

/// The most literals of an expression.
const MOST_LITERALS: usize = 64;

/// A node with more literals gets a helper where an expression has too many.
const MANY_LITERALS: usize = 8;

/// A helper, and the symbol whose value at the start of the rung it has.
#[derive(Clone, Copy)]
struct Helped {
    helper: Symbol,
    symbol: Symbol,
}

/// A helper with the power of a node.
#[derive(Clone, Copy)]
struct Power {
    helper: Symbol,
    pieces: Part,
    /// It goes through a block, and can't be there at the start of the rung.
    is_late: bool,
    is_written: bool,
}

/// A rung while its statements are written.
#[derive(Drop)]
pub(crate) struct Rung<'p> {
    pub names: Names<'p>,
    pub network: Network,
    pub expressions: Expressions,
    helped: Table<Helped>,
    powers: Table<Power>,
    pub indent: usize,
    /// The inputs of bistables are spelled as CODESYS has them.
    pub codesys: bool,
    /// Each statement is one that an element of a ladder diagram does by itself.
    pub elements: bool,
    /// What the cells do.
    pub body: Text,
}

/// Whether a cell writes a symbol.
fn is_written_by(cell: Cell, symbol: Symbol) -> bool {
    match (cell, symbol) {
        (Cell::Coil { var, .. }, Symbol::Variable(variable)) => var == variable,
        (Cell::Block { inst }, Symbol::Output(instance)) => inst == instance,
        _ => false,
    }
}

/// Whether cells of a rung write a symbol.
pub(crate) fn is_changed(done: &[Action], symbol: Symbol) -> bool {
    for action in done {
        if is_written_by(action.cell, symbol) {
            return true;
        }
    }
    false
}

/// Whether an expression reads what cells of the rung have written.
fn reads_changed(done: &[Action], pieces: &[Piece]) -> bool {
    for piece in pieces {
        if let Some(symbol) = symbol_in(*piece) {
            if is_changed(done, symbol) {
                return true;
            }
        }
    }
    false
}

/// The power that a helper has; None of other symbols.
fn power_by(powers: &[Power], helper: Symbol) -> Option<Power> {
    for power in powers {
        if power.helper == helper {
            return Some(*power);
        }
    }
    None
}

/// Whether a symbol isn't there at the start of the rung.
fn is_late_symbol(powers: &[Power], symbol: Symbol) -> bool {
    match (symbol, power_by(powers, symbol)) {
        (Symbol::Called(_), _) => true,
        (_, Some(power)) => power.is_late,
        (_, None) => false,
    }
}

/// Whether a symbol is there after some cells of the rung.
fn is_there(powers: &[Power], symbol: Symbol, done: &[Action]) -> bool {
    match (symbol, power_by(powers, symbol)) {
        (Symbol::Called(instance), _) => is_changed(done, Symbol::Output(instance)),
        (_, Some(power)) => power.is_written,
        (_, None) => true,
    }
}

/// Whether an expression can stand in two statements, the first of which writes a variable.
fn is_lasting(pieces: &[Piece], written: Option<usize>) -> bool {
    let Some(variable) = written else {
        return true;
    };
    match only(pieces) {
        Some(
            Piece::Literal {
                symbol,
                is_on: true,
            },
        ) => symbol != Symbol::Variable(variable),
        _ => false,
    }
}

impl<'p> Rung<'p> {
    /// A rung of which nothing is written.
    pub(crate) fn new(alloc: Global, names: Names<'p>, form: Form<'_>) -> Rung<'p> {
        Rung {
            names,
            network: Network::new(alloc),
            expressions: Expressions::new(alloc),
            helped: Table::new(alloc),
            powers: Table::new(alloc),
            indent: 0,
            codesys: form.codesys,
            elements: form.elements,
            body: Text::new(alloc),
        }
    }

    /// Begins a rung of a program, whose lines begin with so many spaces.
    pub(crate) fn begin(&mut self, program: &Program, rung: usize, indent: usize) {
        self.network.begin(program, rung);
        self.expressions.pieces.truncate(0);
        self.helped.truncate(0);
        self.powers.truncate(0);
        self.indent = indent;
        self.body.clear();
    }

    /// How statements of the rung are written.
    pub(crate) fn style(&self) -> Style<'_> {
        Style {
            names: &self.names,
            indent: self.indent,
        }
    }

    /// An expression.
    pub(crate) fn pieces(&self, expression: Part) -> &[Piece] {
        self.expressions.pieces.part(expression)
    }

    /// Writes an assignment.
    pub(crate) fn assign(&mut self, symbol: Symbol, expression: Part) {
        let pieces = self.expressions.pieces.part(expression);
        Style {
            names: &self.names,
            indent: self.indent,
        }
        .assign(&mut self.body, symbol, pieces);
    }

    /// The helper with the value that a symbol had at the start of the rung, if there is one.
    fn helper_of(&self, symbol: Symbol) -> Option<Symbol> {
        for helped in self.helped.items() {
            if helped.symbol == symbol {
                return Some(helped.helper);
            }
        }
        None
    }

    /// The helper with the value that a symbol had at the start of the rung.
    fn helped(&mut self, symbol: Symbol) -> Symbol {
        if let Some(helper) = self.helper_of(symbol) {
            return helper;
        }
        let helper = match symbol {
            Symbol::Edge(_) => self.names.add_power(b"P"),
            _ => self.names.add_old(),
        };
        self.helped.push(Helped { helper, symbol });
        helper
    }

    /// What has the value that a symbol had at the start of the rung, after some cells of it.
    pub(crate) fn kept(&mut self, symbol: Symbol, done: &[Action]) -> Symbol {
        if matches!(symbol, Symbol::Edge(_)) || is_changed(done, symbol) {
            self.helped(symbol)
        } else {
            symbol
        }
    }

    /// A piece with a helper in the place of an edge, and of what cells of the rung have written.
    fn resolved_piece(&mut self, piece: Piece, done: &[Action]) -> Piece {
        match piece {
            Piece::Literal { symbol, is_on } => Piece::Literal {
                symbol: self.kept(symbol, done),
                is_on,
            },
            other => other,
        }
    }

    /// An expression with helpers in the place of edges, and of what cells of the rung have written.
    fn resolved(&mut self, expression: Part, done: &[Action]) -> Part {
        let from = self.expressions.pieces.len();
        for place in expression.from..expression.to {
            if let Some(piece) = self.expressions.pieces.at(place) {
                let resolved = self.resolved_piece(piece, done);
                self.expressions.pieces.push(resolved);
            }
        }
        self.expressions.pieces.since(from)
    }

    /// Whether an expression reads what isn't there at the start of the rung.
    fn is_late(&self, expression: Part) -> bool {
        for piece in self.pieces(expression) {
            if let Some(symbol) = symbol_in(*piece) {
                if is_late_symbol(self.powers.items(), symbol) {
                    return true;
                }
            }
        }
        false
    }

    /// Whether all that an expression reads is there after some cells of the rung.
    fn is_ready(&self, expression: Part, done: &[Action]) -> bool {
        for piece in self.pieces(expression) {
            if let Some(symbol) = symbol_in(*piece) {
                if !is_there(self.powers.items(), symbol, done) {
                    return false;
                }
            }
        }
        true
    }

    /// The helper that has the power of an expression since the start of the rung.
    fn power_of(&self, expression: Part) -> Option<Symbol> {
        let pieces = self.pieces(expression);
        for power in self.powers.items() {
            if !power.is_late && self.pieces(power.pieces) == pieces {
                return Some(power.helper);
            }
        }
        None
    }

    /// A new helper with the power of an expression: at the start of the rung, or once the blocks on the way to it are called.
    fn new_power(&mut self, pieces: Part, is_late: bool) -> Symbol {
        let helper = self.names.add_power(b"p");
        self.powers.push(Power {
            helper,
            pieces,
            is_late,
            is_written: !is_late,
        });
        helper
    }

    /// A helper with the power that an expression has at the start of the rung.
    fn early(&mut self, pieces: Part) -> Symbol {
        match self.power_of(pieces) {
            Some(helper) => helper,
            None => self.new_power(pieces, false),
        }
    }

    /// Writes a helper after some cells of the rung, if it wasn't written and its blocks are called.
    fn write_power(&mut self, number: usize, done: &[Action]) {
        if let Some(power) = self.powers.at(number) {
            if !power.is_written && self.is_ready(power.pieces, done) {
                let pieces = self.resolved(power.pieces, done);
                self.assign(power.helper, pieces);
                self.powers.set(
                    number,
                    Power {
                        is_written: true,
                        ..power
                    },
                );
            }
        }
    }

    /// Writes the late helpers whose blocks are called.
    pub(crate) fn write_late(&mut self, done: &[Action]) {
        for number in 0..self.powers.len() {
            self.write_power(number, done);
        }
    }

    /// A helper with the power of an expression, as soon as that is there.
    fn helper_with(&mut self, expression: Part) -> Symbol {
        let pieces = self.resolved(expression, &[]);
        if self.is_late(pieces) {
            self.new_power(pieces, true)
        } else {
            self.early(pieces)
        }
    }

    /// Gives a helper to a node with many literals.
    fn divide_at(&mut self, node: Node) {
        let found = self.expressions.power(&self.network, node, usize::MAX);
        if let Some(pieces) = found {
            if self.expressions.literals > MANY_LITERALS {
                let helper = self.helper_with(pieces);
                self.network.keep(node, helper, false);
            }
        }
    }

    /// Gives a helper to a node that stands for the wires from there.
    fn wire_from(&mut self, node: Node) {
        let found = self.expressions.power(&self.network, node, usize::MAX);
        if let Some(pieces) = found {
            let helper = self.helper_with(pieces);
            self.network.keep(node, helper, true);
        }
    }

    /// Gives helpers to the nodes from which wires lead past contacts on the way to a place, so that no constant is an operand there.
    pub(crate) fn wire_to(&mut self, place: usize) {
        let node = self.network.left(place);
        for _ in 0..=PLACES {
            let from = self.expressions.pieces.len();
            let _power = self.expressions.power(&self.network, node, usize::MAX);
            self.expressions.pieces.truncate(from);
            let Some(start) = self.expressions.wired else {
                return;
            };
            self.wire_from(start);
        }
    }

    /// Gives helpers to the nodes with many literals.
    fn divide(&mut self) {
        for place in 0..PLACES {
            if let Some(node) = self.network.joint(place) {
                self.divide_at(node);
            }
        }
    }

    /// The power of a node as an expression, however many literals it has.
    fn divided(&mut self, node: Node) -> Part {
        self.divide();
        match self.expressions.power(&self.network, node, usize::MAX) {
            Some(pieces) => pieces,
            None => self.expressions.alone(Piece::Constant(false)),
        }
    }

    /// The power of a node as an expression.
    pub(crate) fn expression(&mut self, node: Node) -> Part {
        let pieces = match self.expressions.power(&self.network, node, MOST_LITERALS) {
            Some(pieces) => pieces,
            None => self.divided(node),
        };
        self.resolved(pieces, &[])
    }

    /// Whether an expression can stand after some cells of the rung, and also once a variable is written.
    fn is_fine(&self, expression: Part, done: &[Action], written: Option<usize>) -> bool {
        let pieces = self.pieces(expression);
        !reads_changed(done, pieces) && is_lasting(pieces, written)
    }

    /// Makes a helper for the power of a node at the start of the rung, where it couldn't stand in its statement.
    pub(crate) fn plan(&mut self, node: Node, done: &[Action], written: Option<usize>) {
        let pieces = self.expression(node);
        if !self.is_fine(pieces, done, written) && !self.is_late(pieces) {
            let _helper = self.early(pieces);
        }
    }

    /// The power of a node as an expression that has its value after some cells of the rung, and also once a variable is written.
    pub(crate) fn link(&mut self, node: Node, done: &[Action], written: Option<usize>) -> Part {
        let pieces = self.expression(node);
        match self.power_of(pieces) {
            Some(helper) => self.expressions.alone(positive(helper)),
            None if self.is_fine(pieces, done, written) => pieces,
            None => self.late(pieces, done, written),
        }
    }

    /// An expression that has its value after some cells of the rung, by helpers that are written there.
    fn late(&mut self, expression: Part, done: &[Action], written: Option<usize>) -> Part {
        self.write_late(done);
        let pieces = self.resolved(expression, done);
        if is_lasting(self.pieces(pieces), written) {
            return pieces;
        }
        let helper = self.new_power(pieces, true);
        self.write_late(done);
        self.expressions.alone(positive(helper))
    }

    /// Adds the assignment of the helper that says whether an edge contact is closed.
    fn add_edge(&self, out: &mut Text, helper: Symbol, place: usize) {
        let Some((mode, symbol, memory)) = self.network.edge(place) else {
            return self.style().assign(out, helper, &[Piece::Constant(false)]);
        };
        let memory = Symbol::Memory(memory);
        let pieces = if mode == Mode::Falling {
            [negative(symbol), Piece::And, positive(memory)]
        } else {
            [positive(symbol), Piece::And, negative(memory)]
        };
        self.style().assign(out, helper, &pieces);
    }

    /// Adds the assignments of the helpers that say whether edge contacts are closed.
    fn add_edges(&self, out: &mut Text) {
        for helped in self.helped.items() {
            if let Symbol::Edge(place) = helped.symbol {
                self.add_edge(out, helped.helper, place);
            }
        }
    }

    /// Adds the assignments of the helpers that keep a value.
    fn add_olds(&self, out: &mut Text) {
        for helped in self.helped.items() {
            if !matches!(helped.symbol, Symbol::Edge(_)) {
                self.style()
                    .assign(out, helped.helper, &[positive(helped.symbol)]);
            }
        }
    }

    /// Adds the assignments of the helpers with the power at the start of the rung.
    fn add_powers(&self, out: &mut Text) {
        for power in self.powers.items() {
            if !power.is_late {
                self.style()
                    .assign(out, power.helper, self.pieces(power.pieces));
            }
        }
    }

    /// Adds the statements of the rung to a text: first those of the helpers, then what the cells do.
    pub(crate) fn add_to(&self, out: &mut Text) {
        self.add_olds(out);
        self.add_edges(out);
        self.add_powers(out);
        out.add_text(&self.body);
    }

    /// Whether memory never ran out.
    pub(crate) fn is_whole(&self) -> bool {
        let (names, network, expressions) = (&self.names, &self.network, &self.expressions);
        names.bytes.is_whole
            && names.words.is_whole
            && network.cells.is_whole
            && network.lefts.is_whole
            && network.nexts.is_whole
            && network.kept.is_whole
            && expressions.pieces.is_whole
            && expressions.tasks.is_whole
            && self.helped.is_whole
            && self.powers.is_whole
            && self.body.bytes.is_whole
    }
}
