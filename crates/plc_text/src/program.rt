//! A program of a project.

use crate::action::{Action, Actions};
use crate::blocks::is_name;
use crate::diagram::Diagram;
use crate::fault::{PlcFault, PlcReason};
use crate::jumps::Opens;
use crate::marks::Marks;
use crate::order::{Calls, add_ordered};
use crate::pous::{ladder_of, pou_of};
use crate::text::Text;
use crate::xml::{child, parts_in, value_of};
use io_table::Table;
use network_check::Effect;
use network_power::Element;
use std::alloc::Global;
use xml_document::{Document, Span};
use xml_parts::{Part, bytes_at};

/// A program, read from the ladder diagram of a project.
#[derive(Drop)]
pub struct PlcText {
    /// The program in Structured Text.
    pub text: Vec<u8>,
    /// The place inside the `interface` of the program, where it has one.
    pub interface: Option<usize>,
    /// The place inside its `LD`.
    pub body: usize,
    /// The elements directly in the `LD`, all of them, in their order.
    pub parts: Vec<Part>,
    /// How many BOOLs and triggers the interface declares. They are the first variables of the text.
    pub declared: usize,
    /// The parts with an edge that has a trigger of its own. The triggers are the next variables.
    pub edges: Vec<usize>,
    /// The places inside connections with outputs of blocks that aren't known, one for each output. The inputs that stand for these are the
    /// last variables.
    pub opened: Vec<usize>,
    /// What each of the parts is in the network, one for each part; behind them one for each output that is opened, and one for each edge: the
    /// operand of a contact, or the output of the trigger of a coil.
    pub elements: Vec<Element>,
    /// What is connected on the left of them and of their inputs, one after the other; behind them the element of each edge.
    pub connections: Vec<usize>,
    /// The parts that act, in the order in which they do. A contact with an edge acts, and a coil with one twice.
    pub order: Vec<usize>,
    /// What each of these does.
    pub effects: Vec<Effect>,
    /// Of each element, the place in the order of the first that acts to which it leads, to the right through contacts and coils; `usize::MAX`
    /// where it leads to nothing.
    pub firsts: Vec<usize>,
    /// Of each element the next one on that way; the element itself where it is on the left of what acts.
    pub nexts: Vec<usize>,
}

/// Where a program is in a document.
#[derive(Clone, Copy)]
struct Site {
    name: Span,
    interface: Option<usize>,
    body: usize,
}

/// A program while it is read.
#[derive(Drop)]
struct Course<'d> {
    diagram: Diagram<'d>,
    actions: Actions,
    ordered: Table<Action>,
    /// The same, with the triggers of edges.
    timed: Table<Action>,
    /// The same, with what each jump leads over.
    landed: Table<Action>,
    marks: Marks,
    calls: Calls,
    opens: Opens,
    text: Text,
    order: Table<usize>,
    effects: Table<Effect>,
    edges: Table<usize>,
    opened: Table<usize>,
}

/// Where the program with a name is, or the only one.
fn site_of(alloc: Global, document: &Document, pou: Option<&[u8]>) -> Result<Site, PlcFault> {
    let place = pou_of(alloc, document, pou)?;
    let name = value_of(document, place, b"name");
    if !is_name(bytes_at(&document.bytes, name)) {
        return Err(PlcFault::Variable {
            name,
            reason: PlcReason::Name,
        });
    }
    Ok(Site {
        name,
        interface: child(document, place, b"interface"),
        body: ladder_of(alloc, document, place)?,
    })
}

impl<'d> Course<'d> {
    /// Nothing read of a program with a name.
    fn new(alloc: Global, document: &'d Document, program: Span, open: bool) -> Course<'d> {
        Course {
            diagram: Diagram::new(alloc, document, program, open),
            actions: Actions::new(alloc),
            ordered: Table::new(alloc),
            timed: Table::new(alloc),
            landed: Table::new(alloc),
            marks: Marks::new(alloc),
            calls: Calls::new(alloc),
            opens: Opens::new(alloc),
            text: Text::new(alloc),
            order: Table::new(alloc),
            effects: Table::new(alloc),
            edges: Table::new(alloc),
            opened: Table::new(alloc),
        }
    }

    /// Whether memory never ran out.
    fn is_whole(&self) -> bool {
        self.diagram.is_whole()
            && self.actions.items.is_whole
            && self.ordered.is_whole
            && self.timed.is_whole
            && self.landed.is_whole
            && self.marks.is_whole()
            && self.are_lists_whole()
    }

    /// The same of what is written.
    fn are_lists_whole(&self) -> bool {
        self.calls.is_whole()
            && self.opens.is_whole()
            && self.text.bytes.is_whole
            && self.order.is_whole
            && self.effects.is_whole
            && self.edges.is_whole
            && self.opened.is_whole
    }

    /// Lists what acts, and what it does.
    fn list_actions(&mut self) {
        for action in self.landed.items() {
            self.order.push(action.turn.place);
            self.effects.push(action.deed.effect);
        }
    }

    /// Lists the elements with an edge that have a trigger.
    fn list_edges(&mut self) {
        for site in self.diagram.edges.items() {
            self.edges.push(site.id);
        }
    }

    /// Lists the first connections with outputs of blocks that aren't known.
    fn list_opened(&mut self) {
        for opened in self.diagram.opened.items() {
            self.opened.push(opened.place);
        }
    }

    /// Reads what a program declares, and its elements.
    fn read_elements(&mut self, alloc: Global, site: Site, parts: &[Part]) -> Result<(), PlcFault> {
        if let Some(place) = site.interface {
            self.diagram.symbols.read(alloc, place)?;
        }
        self.diagram.add_nodes(parts)?;
        self.diagram.add_elements()?;
        self.actions.add(&mut self.diagram)?;
        self.diagram.add_opened();
        Ok(())
    }

    /// Brings what acts in its order, and adds the triggers of edges.
    fn arrange(&mut self) -> Result<(), PlcFault> {
        add_ordered(&self.actions, &mut self.ordered);
        let ordered = self.ordered.items();
        self.marks.follow(&self.diagram, ordered);
        self.diagram.settle_unread(&self.marks)?;
        self.diagram.settle_contacts(&self.marks);
        self.diagram.settle_edges(&self.marks);
        self.diagram.check_elements()?;
        self.diagram.check_actions(ordered)?;
        self.calls.check(&self.diagram, ordered)?;
        self.diagram.add_triggers();
        self.diagram.add_inputs();
        self.diagram.add_timed(ordered, &mut self.timed);
        self.diagram
            .add_landed(self.timed.items(), &mut self.landed)
    }

    /// Reads a program, and writes it.
    fn read(&mut self, alloc: Global, site: Site, parts: &[Part]) -> Result<(), PlcFault> {
        self.read_elements(alloc, site, parts)?;
        self.arrange()?;
        let landed = self.landed.items();
        self.marks.follow(&self.diagram, landed);
        self.diagram.write(&mut self.text, &mut self.opens, landed)?;
        self.list_actions();
        self.list_edges();
        self.list_opened();
        Ok(())
    }

    /// Why there is no program, if there is none.
    fn fault(&self, told: Result<(), PlcFault>) -> Result<(), PlcFault> {
        if !self.is_whole() {
            return Err(PlcFault::Memory);
        }
        if self.text.is_long {
            return Err(PlcFault::TooLarge);
        }
        told
    }
}

/// Takes a program that was read apart.
fn taken(course: Course<'_>, site: Site, parts: Vec<Part>) -> PlcText {
    let declared = course.diagram.symbols.declared();
    let Course {
        diagram,
        marks,
        text,
        order,
        effects,
        edges,
        opened,
        ..
    } = course;
    PlcText {
        text: text.bytes.items,
        interface: site.interface,
        body: site.body,
        parts,
        declared,
        edges: edges.items,
        opened: opened.items,
        elements: diagram.elements.items,
        connections: diagram.connections.items,
        order: order.items,
        effects: effects.items,
        firsts: marks.firsts.items,
        nexts: marks.nexts.items,
    }
}

/// Reads the ladder diagram of a program of a PLCopen XML project, and writes it as Structured Text. The program is the `pou` with a name, or
/// the only program of the project. `open` says that the outputs of blocks that aren't known may have any value, and what only they use is left out.
///
/// Nothing is promised of what is given.
///
/// # Errors
///
/// Memory runs out, there is no such program, or it has something that isn't understood.
pub fn read_plc(
    alloc: Global,
    document: &Document,
    pou: Option<&[u8]>,
    open: bool,
) -> Result<PlcText, PlcFault> {
    let site = site_of(alloc, document, pou)?;
    let parts = parts_in(alloc, document, site.body)?;
    let mut course = Course::new(alloc, document, site.name, open);
    let told = course.read(alloc, site, &parts);
    match course.fault(told) {
        Ok(()) => Ok(taken(course, site, parts)),
        Err(fault) => Err(fault),
    }
}
