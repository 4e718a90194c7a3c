//! The statements of a rung.

use crate::declaring::add_preset;
use crate::network::{place_of, symbol_of};
use crate::node::Node;
use crate::piece::{Piece, negative, positive};
use crate::rung::Rung;
use crate::statements::{Style, WIDTH};
use crate::symbol::Symbol;
use diagram_declarations::{BlockKind, Instance};
use diagram_program::gates::Action;
use diagram_program::{Cell, CoilMode, Program};
use io_table::Part;

/// How wide an assignment and the end of its `IF` are beside the name.
const LATCH: usize = 20;

/// The names of the first and the second input of a block.
fn inputs_of(kind: BlockKind, codesys: bool) -> (&'static [u8], &'static [u8]) {
    match kind {
        BlockKind::Ton | BlockKind::Tof | BlockKind::Tp => (b"IN", b""),
        BlockKind::Ctu => (b"CU", b"R"),
        BlockKind::Ctd => (b"CD", b"LD"),
        BlockKind::Sr if codesys => (b"SET1", b"RESET"),
        BlockKind::Sr => (b"S1", b"R"),
        BlockKind::Rs if codesys => (b"SET", b"RESET1"),
        BlockKind::Rs => (b"S", b"R1"),
    }
}

/// Whether a coil sets or resets its variable, and which one; None for other cells.
fn latch_of(cell: Cell) -> Option<(usize, bool)> {
    match cell {
        Cell::Coil {
            mode: CoilMode::Set,
            var,
            ..
        } => Some((var, true)),
        Cell::Coil {
            mode: CoilMode::Reset,
            var,
            ..
        } => Some((var, false)),
        _ => None,
    }
}

/// The actions before one of them, and from it on.
fn around(actions: &[Action], number: usize) -> (&[Action], &[Action]) {
    actions.split_at(number.min(actions.len()))
}

impl Rung<'_> {
    /// Writes the update of an edge contact's memory.
    fn write_memory(&mut self, symbol: Symbol, memory: usize, done: &[Action]) {
        let kept = self.kept(symbol, done);
        let value = self.expressions.alone(positive(kept));
        self.assign(Symbol::Memory(memory), value);
    }

    /// Writes a coil that stores its power or the inverse.
    fn write_store(&mut self, variable: usize, is_inverse: bool, node: Node, done: &[Action]) {
        let link = self.link(node, done, None);
        let value = if is_inverse {
            self.expressions.inverse(link)
        } else {
            link
        };
        self.assign(Symbol::Variable(variable), value);
    }

    /// Where the power of an edge coil rises or falls, by its memory.
    fn edge_of(&mut self, link: Part, is_falling: bool, memory: usize) -> Part {
        let memory = Symbol::Memory(memory);
        let from = self.expressions.pieces.len();
        if is_falling {
            let _inverse = self.expressions.inverse(link);
        } else {
            self.expressions.pieces.repeat(link);
        }
        let pieces = &mut self.expressions.pieces;
        pieces.push(Piece::And);
        pieces.push(if is_falling {
            positive(memory)
        } else {
            negative(memory)
        });
        pieces.since(from)
    }

    /// Writes an edge coil.
    fn write_edge(
        &mut self,
        variable: usize,
        is_falling: bool,
        memory: usize,
        node: Node,
        done: &[Action],
    ) {
        let link = self.link(node, done, Some(variable));
        let edge = self.edge_of(link, is_falling, memory);
        self.assign(Symbol::Variable(variable), edge);
        self.assign(Symbol::Memory(memory), link);
    }

    /// Whether a cell has this power.
    fn has_power(&mut self, action: &Action, power: Part) -> bool {
        let node = self.network.left(action.place as usize);
        let other = self.expression(node);
        self.pieces(power) == self.pieces(other)
    }

    /// How many of the next cells are set or reset by the same power, in one `IF`.
    fn shared(&mut self, place: usize, next: &[Action]) -> usize {
        if self.elements {
            return 0;
        }
        let node = self.network.left(place);
        let power = self.expression(node);
        for (number, action) in next.iter().enumerate() {
            if latch_of(action.cell).is_none() || !self.has_power(action, power) {
                return number;
            }
        }
        next.len()
    }

    /// Writes the assignments of coils that are set and reset.
    fn write_latched(&mut self, latched: &[Action]) {
        let style = Style {
            names: &self.names,
            indent: self.indent,
        };
        for action in latched {
            if let Some((variable, is_set)) = latch_of(action.cell) {
                style.begin(&mut self.body, b"  ");
                style.latch(&mut self.body, Symbol::Variable(variable), is_set);
                self.body.end_line();
            }
        }
    }

    /// Writes `IF`, a condition and `THEN`.
    fn write_if(&mut self, condition: Part) {
        let style = Style {
            names: &self.names,
            indent: self.indent,
        };
        style.begin(&mut self.body, b"IF ");
        style.expression(&mut self.body, self.expressions.pieces.part(condition));
        self.body.add(b" THEN");
    }

    /// Writes the end of an `IF` of one coil that is set or reset in the line that was begun, if there is room; whether there was.
    fn write_short(&mut self, variable: usize, is_set: bool) -> bool {
        let style = Style {
            names: &self.names,
            indent: self.indent,
        };
        let symbol = Symbol::Variable(variable);
        let is_short = style.room(&self.body, symbol) >= LATCH;
        if is_short {
            self.body.add(b" ");
            style.latch(&mut self.body, symbol, is_set);
            self.body.end_with(b" END_IF;");
        }
        is_short
    }

    /// Writes the assignments of an `IF`, each in its line, and its end.
    fn write_long(&mut self, latched: &[Action]) {
        self.body.end_line();
        self.write_latched(latched);
        self.body.indent(self.indent);
        self.body.end_with(b"END_IF;");
    }

    /// Writes a coil that is set or reset, and those behind it that have the same power. How many those are.
    fn write_latches(
        &mut self,
        latch: (usize, bool),
        place: usize,
        actions: (&[Action], &[Action]),
    ) -> usize {
        let (done, rest) = actions;
        let (_, next) = around(rest, 1);
        let shared = self.shared(place, next);
        let node = self.network.left(place);
        let condition = self.link(node, done, None);
        self.write_if(condition);
        if shared > 0 || !self.write_short(latch.0, latch.1) {
            let (latched, _) = around(rest, shared.saturating_add(1));
            self.write_long(latched);
        }
        shared
    }

    /// Writes the text of a call.
    fn write_arguments(
        &mut self,
        number: usize,
        instance: Instance,
        first: Part,
        second: Option<Part>,
    ) {
        let inputs = inputs_of(instance.kind, self.codesys);
        let style = Style {
            names: &self.names,
            indent: self.indent,
        };
        let pieces = &self.expressions.pieces;
        style.begin(&mut self.body, self.names.name(Symbol::Output(number)));
        self.body.add(b"(");
        style.argument(&mut self.body, inputs.0, pieces.part(first));
        if let Some(second) = second {
            style.comma(&mut self.body);
            style.argument(&mut self.body, inputs.1, pieces.part(second));
        }
        if instance.kind.traits().parameter.is_some() {
            style.comma(&mut self.body);
            let _ = add_preset(&mut self.body, b"", instance.kind, instance.preset);
        }
        self.body.end_with(b");");
    }

    /// The second input of a block, if it is wired.
    fn second(&mut self, place: usize, done: &[Action]) -> Option<Part> {
        if self.network.has_second(place) {
            let below = self.network.left(place.saturating_add(1));
            Some(self.link(below, done, None))
        } else {
            None
        }
    }

    /// Writes a call.
    fn write_call(&mut self, number: usize, instance: Instance, place: usize, done: &[Action]) {
        let node = self.network.left(place);
        let first = self.link(node, done, None);
        let second = self.second(place, done);
        self.write_arguments(number, instance, first, second);
    }

    /// Writes what a cell does that is no latch, after others.
    fn write_cell(&mut self, program: &Program, action: &Action, done: &[Action]) {
        let place = action.place as usize;
        let node = self.network.left(place);
        match action.cell {
            Cell::Contact {
                operand,
                memory: Some(memory),
                ..
            } => self.write_memory(symbol_of(operand), memory, done),
            Cell::Coil {
                mode,
                var,
                memory: Some(memory),
            } => self.write_edge(var, mode == CoilMode::Falling, memory, node, done),
            Cell::Coil {
                mode,
                var,
                memory: None,
            } => self.write_store(var, mode == CoilMode::Inverse, node, done),
            Cell::Block { inst } => {
                if let Some(instance) = program.decls().instances().get(inst) {
                    self.write_call(inst, *instance, place, done);
                }
            }
            _ => {}
        }
    }

    /// Writes what a cell does, after others and before the rest. How many of these are written with it.
    fn write_action(
        &mut self,
        program: &Program,
        action: &Action,
        actions: (&[Action], &[Action]),
    ) -> usize {
        let done = actions.0;
        self.write_late(done);
        match latch_of(action.cell) {
            Some(latch) => self.write_latches(latch, action.place as usize, actions),
            None => {
                self.write_cell(program, action, done);
                0
            }
        }
    }

    /// Whether a cell is set or reset together with the one before it.
    fn is_shared(&mut self, done: &[Action], action: &Action) -> bool {
        let Some(before) = done.last() else {
            return false;
        };
        if self.elements {
            return false;
        }
        if latch_of(before.cell).is_none() || latch_of(action.cell).is_none() {
            return false;
        }
        let node = self.network.left(before.place as usize);
        let power = self.expression(node);
        self.has_power(action, power)
    }

    /// Makes the helpers for what a cell sees.
    fn plan_action(&mut self, action: &Action, done: &[Action]) {
        let place = action.place as usize;
        let node = self.network.left(place);
        match action.cell {
            Cell::Coil {
                var,
                memory: Some(_),
                ..
            } => self.plan(node, done, Some(var)),
            Cell::Coil { memory: None, .. } => self.plan(node, done, None),
            Cell::Block { .. } => {
                self.plan(node, done, None);
                if self.network.has_second(place) {
                    let below = self.network.left(place.saturating_add(1));
                    self.plan(below, done, None);
                }
            }
            Cell::Empty
            | Cell::Wire
            | Cell::Contact { .. }
            | Cell::Lower { .. }
            | Cell::Jump { .. }
            | Cell::Return => {}
        }
    }

    /// Makes the helpers for wires on the way to a cell.
    fn wire_action(&mut self, action: &Action) {
        let place = action.place as usize;
        if matches!(action.cell, Cell::Coil { .. } | Cell::Block { .. }) {
            self.wire_to(place);
        }
        if matches!(action.cell, Cell::Block { .. }) && self.network.has_second(place) {
            self.wire_to(place.saturating_add(1));
        }
    }

    /// Makes the helpers for wires on the way to the cells, and to a jump.
    fn wire_actions(&mut self, actions: &[Action], jump: Option<usize>) {
        if !self.elements {
            return;
        }
        for action in actions {
            self.wire_action(action);
        }
        if let Some(place) = jump {
            self.wire_to(place);
        }
    }

    /// Makes the helpers that the cells need at the start of the rung.
    fn plan_actions(&mut self, actions: &[Action]) {
        for (number, action) in actions.iter().enumerate() {
            let (done, _) = around(actions, number);
            if !self.is_shared(done, action) {
                self.plan_action(action, done);
            }
        }
    }

    /// Writes what the cells do.
    fn write_actions(&mut self, program: &Program, actions: &[Action]) {
        let mut shared = 0;
        for (number, action) in actions.iter().enumerate() {
            if shared > 0 {
                shared -= 1;
                continue;
            }
            shared = self.write_action(program, action, around(actions, number));
        }
    }

    /// Writes a return behind its condition, in the same line where there is room.
    fn write_return(&mut self) {
        if self.body.width() <= WIDTH - LATCH {
            return self.body.end_with(b" RETURN; END_IF;");
        }
        self.body.end_line();
        self.body.indent(self.indent.saturating_add(2));
        self.body.end_with(b"RETURN;");
        self.body.indent(self.indent);
        self.body.end_with(b"END_IF;");
    }

    /// Writes the jump to a rung with this flag, or a return.
    fn write_jump(&mut self, node: Node, flag: Option<usize>, done: &[Action]) {
        self.write_late(done);
        let link = self.link(node, done, None);
        match flag {
            Some(flag) => self.assign(Symbol::Flag(flag), link),
            None => {
                self.write_if(link);
                self.write_return();
            }
        }
    }

    /// Writes the statements of a rung of a program, whose lines begin with so many spaces. Its jump has the flag with this number.
    pub(crate) fn write(&mut self, program: &Program, rung: usize, indent: usize, flag: usize) {
        if rung >= program.rungs() {
            return;
        }
        self.begin(program, rung, indent);
        let actions = program.actions(rung);
        let Some((row, column, target)) = program.jump(rung) else {
            self.wire_actions(actions, None);
            self.plan_actions(actions);
            return self.write_actions(program, actions);
        };
        let place = place_of(column, row);
        self.wire_actions(actions, Some(place));
        self.plan_actions(actions);
        let node = self.network.left(place);
        self.plan(node, actions, None);
        self.write_actions(program, actions);
        let flag = if target < program.rungs() {
            Some(flag)
        } else {
            None
        };
        self.write_jump(node, flag, actions);
    }
}
