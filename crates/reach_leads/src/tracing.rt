//! A scan over three values that tells of each one that it leaves open one thing that does. It serves the choice of what is tried and kept next,
//! and nothing else.

use crate::traced::{Traced, TracedBlock};
use crate::wholeness::is_whole;
use diagram_program::gates::{Action, Gate, LINKS, OFF, ON};
use diagram_program::geometry::PLACES;
use diagram_program::{Cell, CoilMode, Mode, Operand, Program};
use invariant_cases::Point;
use reach_states::Untimed;
use scan_cycle::Memory;
use scan_cycle::scene::{cell, checked, instance};
use scan_partial::{Keep, Knowledge};
use scan_signals::Tri;
use std::alloc::Global;

/// What is known in a scan, traced.
#[derive(Drop)]
pub struct Trace {
    pub(crate) values: Vec<Traced>,
    pub(crate) memories: Vec<Traced>,
    pub(crate) blocks: Vec<TracedBlock>,
    /// What contacts see of a rung: the values at its start.
    start: Vec<Traced>,
    links: Vec<Traced>,
    /// For each rung whether its jump is taken.
    taken: Vec<Traced>,
}

const OPEN: Traced = Traced {
    value: Tri::Unsure,
    by: None,
};

const KNOWN_OFF: Traced = Traced {
    value: Tri::Off,
    by: None,
};

/// The one of a number, and OFF past the last one.
fn traced_at(traced: &[Traced], number: usize) -> Traced {
    match traced.get(number) {
        Some(traced) => *traced,
        None => KNOWN_OFF,
    }
}

/// Writes the one of a number.
fn put(traced: &mut [Traced], number: usize, value: Traced) {
    if let Some(place) = traced.get_mut(number) {
        *place = value;
    }
}

/// The Q of an instance.
fn q_of(block: TracedBlock) -> Traced {
    let value = block.kept.q();
    Traced {
        value,
        by: if value == Tri::Unsure { block.by } else { None },
    }
}

impl Trace {
    /// For a program.
    ///
    /// # Errors
    ///
    /// `Memory` when out of memory.
    pub fn new(alloc: Global, program: &Program) -> Result<Trace, Memory> {
        let decls = program.decls();
        let block = TracedBlock {
            kept: Untimed::Anything,
            by: None,
        };
        Ok(Trace {
            values: vec![in alloc; OPEN; decls.vars().len()]?,
            memories: vec![in alloc; OPEN; program.memories()]?,
            blocks: vec![in alloc; block; decls.instances().len()]?,
            start: vec![in alloc; OPEN; decls.vars().len()]?,
            links: vec![in alloc; KNOWN_OFF; LINKS]?,
            taken: vec![in alloc; KNOWN_OFF; program.rungs()]?,
        })
    }

    /// Takes over what is known before a scan.
    fn begin(&mut self, program: &Program, before: &Knowledge<Tri, Untimed>) {
        for var in 0..self.values.len() {
            self.values[var] = Traced {
                value: before.value(var),
                by: Some(Point::Variable(var)),
            };
        }
        for number in 0..self.memories.len() {
            self.memories[number] = Traced {
                value: before.memory(Some(number)),
                by: Some(Point::Memory(number)),
            };
        }
        for inst in 0..self.blocks.len() {
            if inst < program.decls().instances().len() {
                let (kind, _preset) = instance(program, inst);
                let kept = before.kept(inst);
                self.blocks[inst] = TracedBlock {
                    kept,
                    by: if is_whole(kind, kept) {
                        None
                    } else {
                        Some(Point::Output(inst))
                    },
                };
            }
        }
    }

    /// Gives the inputs their values.
    fn give(&mut self, program: &Program, inputs: &[Tri]) {
        let vars = program.decls().vars();
        let mut place = 0;
        for var in 0..vars.len() {
            if vars[var].is_input() && place < inputs.len() {
                put(
                    &mut self.values,
                    var,
                    Traced {
                        value: inputs[place],
                        by: Some(Point::Variable(var)),
                    },
                );
                place += 1;
            }
        }
    }

    /// What a contact reads.
    fn operand(&self, operand: Operand) -> Traced {
        match operand {
            Operand::Var(var) => traced_at(&self.start, var),
            Operand::Output(inst) => match self.blocks.get(inst) {
                Some(block) => q_of(*block),
                None => KNOWN_OFF,
            },
        }
    }

    /// A memory, and OFF where there is none.
    fn memory(&self, number: Option<usize>) -> Traced {
        match number {
            Some(number) => traced_at(&self.memories, number),
            None => KNOWN_OFF,
        }
    }

    /// A block after its step.
    fn stepped(
        &self,
        program: &Program,
        inst: usize,
        first: Traced,
        second: Traced,
    ) -> TracedBlock {
        let before = match self.blocks.get(inst) {
            Some(block) if inst < program.decls().instances().len() => *block,
            _ => {
                return TracedBlock {
                    kept: Untimed::Anything,
                    by: None,
                };
            }
        };
        checked(program);
        let (kind, preset) = instance(program, inst);
        let kept = before.kept.step(kind, preset, first.value, second.value, 0);
        let by = if is_whole(kind, kept) {
            None
        } else if before.by.is_some() {
            before.by
        } else if first.value == Tri::Unsure {
            first.by
        } else {
            second.by
        };
        TracedBlock { kept, by }
    }

    /// What a cell lets through, by its left link and its second input.
    fn through(&self, program: &Program, cell: Cell, left: Traced, below: Traced) -> Traced {
        match cell {
            Cell::Block { inst } => q_of(self.stepped(program, inst, left, below)),
            Cell::Contact {
                mode,
                operand,
                memory,
            } => {
                let seen = self.operand(operand);
                let closed = match mode {
                    Mode::Plain => seen,
                    Mode::Negated => seen.not(),
                    Mode::Rising => seen.and(self.memory(memory).not()),
                    Mode::Falling => seen.not().and(self.memory(memory)),
                };
                left.and(closed)
            }
            Cell::Wire | Cell::Coil { .. } => left,
            Cell::Empty | Cell::Lower { .. } | Cell::Jump { .. } | Cell::Return => KNOWN_OFF,
        }
    }

    /// Finds the link that a gate gives.
    fn pass_gate(&mut self, program: &Program, rung: usize, gate: &Gate) {
        let place = gate.place as usize;
        if PLACES <= place || program.rungs() <= rung {
            return;
        }
        let cell = cell(program, rung, place);
        let left = traced_at(&self.links, gate.left as usize);
        let below = traced_at(&self.links, gate.below as usize);
        let other = traced_at(&self.links, gate.other as usize);
        let through = self.through(program, cell, left, below);
        put(&mut self.links, place, through.or(other));
    }

    /// What a coil writes.
    fn coil(mode: CoilMode, link: Traced, memory: Traced, old: Traced) -> Traced {
        match mode {
            CoilMode::Store => link,
            CoilMode::Inverse => link.not(),
            CoilMode::Set => link.or(old),
            CoilMode::Reset => link.not().and(old),
            CoilMode::Rising => link.and(memory.not()),
            CoilMode::Falling => link.not().and(memory),
        }
    }

    /// Makes the change of an action.
    fn change(&mut self, program: &Program, guard: Traced, action: &Action) {
        let link = traced_at(&self.links, action.left as usize);
        match action.cell {
            Cell::Contact {
                operand,
                memory: Some(number),
                ..
            } => {
                let seen = self.operand(operand);
                let before = traced_at(&self.memories, number);
                put(
                    &mut self.memories,
                    number,
                    Traced::choose(guard, seen, before),
                );
            }
            Cell::Coil { mode, var, memory } => {
                let old = traced_at(&self.values, var);
                let new = Trace::coil(mode, link, self.memory(memory), old);
                put(&mut self.values, var, Traced::choose(guard, new, old));
                if let Some(number) = memory {
                    let before = traced_at(&self.memories, number);
                    put(
                        &mut self.memories,
                        number,
                        Traced::choose(guard, link, before),
                    );
                }
            }
            Cell::Block { inst } => {
                let below = traced_at(&self.links, action.below as usize);
                let stepped = self.stepped(program, inst, link, below);
                self.keep(program, inst, guard, stepped);
            }
            _ => {}
        }
    }

    /// Keeps an instance after its step, under the guard of its rung.
    fn keep(&mut self, program: &Program, inst: usize, guard: Traced, stepped: TracedBlock) {
        if inst >= program.decls().instances().len() {
            return;
        }
        let (kind, _preset) = instance(program, inst);
        if let Some(block) = self.blocks.get_mut(inst) {
            let kept = Keep::<Tri>::choose(guard.value, stepped.kept, block.kept);
            let by = if is_whole(kind, kept) {
                None
            } else if guard.value == Tri::Unsure {
                guard.by
            } else if guard.value == Tri::On {
                stepped.by
            } else {
                block.by
            };
            *block = TracedBlock { kept, by };
        }
    }

    /// Whether a rung is evaluated, by the jumps before it.
    fn guard(&self, program: &Program, rung: usize) -> Traced {
        let mut guard = Traced::known(true);
        for leap in program.leaps() {
            if leap.rung < rung && rung < leap.target {
                guard = guard.and(traced_at(&self.taken, leap.rung).not());
            }
        }
        guard
    }

    /// Evaluates a rung.
    fn evaluate(&mut self, program: &Program, rung: usize) {
        if program.rungs() <= rung {
            return;
        }
        let guard = self.guard(program, rung);
        if self.start.len() == self.values.len() {
            self.start.copy_from_slice(&self.values);
        }
        put(&mut self.links, ON, Traced::known(true));
        put(&mut self.links, OFF, KNOWN_OFF);
        for gate in program.gates(rung) {
            self.pass_gate(program, rung, gate);
        }
        if let Some(exit) = program.exit(rung) {
            let left = traced_at(&self.links, exit.left as usize);
            put(&mut self.taken, rung, guard.and(left));
        }
        for action in program.actions(rung) {
            self.change(program, guard, action);
        }
    }

    /// One scan from what is known before it.
    pub fn scan(&mut self, program: &Program, before: &Knowledge<Tri, Untimed>, inputs: &[Tri]) {
        self.begin(program, before);
        self.give(program, inputs);
        for rung in 0..program.rungs() {
            self.evaluate(program, rung);
        }
    }
}
