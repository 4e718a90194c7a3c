//! What the steps from a point on read of what is there.

ghost use Rattle.std.specs.Prelude.{◌≡◌, length, replicate, slice_set, true, false, IfOk};
ghost use Rattle.diagram_program.specs.declared.gates.TheConstants.{LINKS};
ghost use Rattle.scan_symbolic.specs.Slicing.{marked, mark, unmark, needs_of};

use diagram_program::Program;
use diagram_program::gates::LINKS;
use std::alloc::{AllocError, Global};
use std::marker::Model;

/// Marks for the values of variables, the Qs of instances and the links that are read, and whether guards are.
#[derive(Drop)]
pub(crate) struct Marks {
    values: Vec<bool>,
    ends: Vec<bool>,
    links: Vec<bool>,
    guards: bool,
}

impl Model for Marks {
    ghost use Rattle.scan_symbolic.specs.Slicing.{Needs};

    ghost Value = { Needs };

    ghost view = { λ m. record {
      values = m.values.items;
      ends = m.ends.items;
      links = m.links.items;
      guards = m.guards;
    } };
}

/// Whether a number is marked. One past the last counts as marked.
fn is_marked(marks: &[bool], number: usize) -> bool
    ensures { result ≡ marked marks.now number }
{
    match marks.get(number) {
        Some(mark) => *mark,
        None => true,
    }
}

impl Marks {
    /// Marks by which only the variable is read: what a slice is made for.
    pub(crate) fn for_variable(
        alloc: Global,
        program: &Program,
        var: usize,
    ) -> Result<Marks, AllocError>
        ensures { IfOk result (λ m. m ≡ needs_of program.now var) }
    {
        let decls = program.decls();
        let mut marks = Marks {
            values: vec![in alloc; false; decls.vars().len()]?,
            ends: vec![in alloc; false; decls.instances().len()]?,
            links: vec![in alloc; false; LINKS]?,
            guards: false,
        };
        marks.read_value(var);
        Ok(marks)
    }

    /// Whether a later step reads the value of a variable.
    pub(crate) fn has_value(&self, var: usize) -> bool
        ensures { result ≡ marked self.now.values var }
    {
        is_marked(&self.values, var)
    }

    /// Whether a later step reads the Q of an instance after its step.
    pub(crate) fn has_end(&self, inst: usize) -> bool
        ensures { result ≡ marked self.now.ends inst }
    {
        is_marked(&self.ends, inst)
    }

    /// Whether a later step reads the link of this number.
    pub(crate) fn has_link(&self, place: usize) -> bool
        ensures { result ≡ marked self.now.links place }
    {
        is_marked(&self.links, place)
    }

    /// Whether a later step reads the guard of its rung.
    pub(crate) fn has_guards(&self) -> bool
        ensures { result ≡ self.now.guards }
    {
        self.guards
    }

    /// Notes that a step reads the value of a variable.
    pub(crate) fn read_value(&mut self, var: usize)
        ensures { self.new ≡ record self.old { values = mark self.old.values var } }
    {
        if var < self.values.len() {
            self.values[var] = true;
        }
    }

    /// Notes that a step reads the Q of an instance after its step.
    pub(crate) fn read_end(&mut self, inst: usize)
        ensures { self.new ≡ record self.old { ends = mark self.old.ends inst } }
    {
        if inst < self.ends.len() {
            self.ends[inst] = true;
        }
    }

    /// Notes that a step reads the link of this number.
    pub(crate) fn read_link(&mut self, place: usize)
        ensures { self.new ≡ record self.old { links = mark self.old.links place } }
    {
        if place < self.links.len() {
            self.links[place] = true;
        }
    }

    /// Notes that a step reads the guard of its rung.
    pub(crate) fn read_guards(&mut self)
        ensures { self.new ≡ record self.old { guards = true } }
    {
        self.guards = true;
    }

    /// Notes that a step writes a link, so that no step before it is kept for this link.
    pub(crate) fn write_link(&mut self, place: usize)
        ensures { self.new ≡ record self.old { links = unmark self.old.links place } }
    {
        if place < self.links.len() {
            self.links[place] = false;
        }
    }
}
