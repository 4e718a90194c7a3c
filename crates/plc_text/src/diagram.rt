//! A diagram: its elements, and what each is connected with.

use crate::blocks::{TRIGGERED, block_of, is_name, output_of};
use crate::edge::{Edge, edge_in, edge_of};
use crate::fault::{PlcFault, PlcReason};
use crate::node::{Node, Role, is_negated, role_of};
use crate::symbols::{Instance, Sort, Symbols, Trigger};
use crate::xml::{NOTHING, characters_in, child, is_named, name_of, parts_in, value_of};
use diagram_declarations::limits::MOST_VARS;
use diagram_declarations::same_letters;
use io_table::Table;
use network_power::{Element, Links};
use st_expression::Operand;
use std::alloc::Global;
use xml_document::{Document, Span};
use xml_parts::{Part, attribute, bytes_at, text};

/// A diagram has no more elements than this.
const MOST_NODES: usize = 4_000;

/// A diagram has no more connections than this.
const MOST_CONNECTIONS: usize = 40_000;

/// Nothing connected.
pub(crate) const UNCONNECTED: Links = Links { start: 0, end: 0 };

/// What stands for a variable until that is known.
const UNKNOWN: Operand = Operand::Variable(0);

/// What a block calls.
#[derive(Clone, Copy)]
struct Callee {
    role: Role,
    instance: Option<Instance>,
    trigger: Option<Trigger>,
}

/// No block that is known.
const NO_CALLEE: Callee = Callee {
    role: Role::Unknown,
    instance: None,
    trigger: None,
};

/// An output of a block that isn't known, which is read.
#[derive(Clone, Copy)]
pub(crate) struct Opened {
    /// The block among the elements.
    pub id: usize,
    /// How the output is spelled.
    pub formal: Span,
    /// The place inside the first connection that reads it.
    pub place: usize,
}

/// A contact with a variable that can't be read.
#[derive(Clone, Copy)]
pub(crate) struct Unread {
    pub id: usize,
    pub reason: PlcReason,
}

/// An edge that has a trigger of its own.
#[derive(Clone, Copy)]
pub(crate) struct EdgeSite {
    /// The contact or the coil.
    pub id: usize,
    pub edge: Edge,
    /// What the contact reads; None of a coil.
    pub operand: Option<Operand>,
    /// Where the first that acts by the contact is in the order without triggers.
    pub place: usize,
}

/// A diagram with what its names are declared as.
#[derive(Drop)]
pub(crate) struct Diagram<'d> {
    pub alloc: Global,
    pub document: &'d Document,
    /// Whether what isn't known may have any value.
    pub open: bool,
    pub symbols: Symbols<'d>,
    pub nodes: Table<Node>,
    /// What each of them is in the network; behind them outputs that are read, and what edges are looked at in.
    pub elements: Table<Element>,
    pub connections: Table<usize>,
    pub opened: Table<Opened>,
    pub unread: Table<Unread>,
    pub edges: Table<EdgeSite>,
}

/// Refuses an element by its number.
pub(crate) fn refused(number: Span, reason: PlcReason) -> PlcFault {
    PlcFault::Element { number, reason }
}

impl<'d> Diagram<'d> {
    /// A diagram of no elements, of a program with a name.
    pub(crate) fn new(
        alloc: Global,
        document: &'d Document,
        program: Span,
        open: bool,
    ) -> Diagram<'d> {
        Diagram {
            alloc,
            document,
            open,
            symbols: Symbols::new(alloc, document, program),
            nodes: Table::new(alloc),
            elements: Table::new(alloc),
            connections: Table::new(alloc),
            opened: Table::new(alloc),
            unread: Table::new(alloc),
            edges: Table::new(alloc),
        }
    }

    /// Whether memory never ran out.
    pub(crate) fn is_whole(&self) -> bool {
        self.symbols.is_whole()
            && self.nodes.is_whole
            && self.elements.is_whole
            && self.connections.is_whole
            && self.opened.is_whole
            && self.unread.is_whole
            && self.edges.is_whole
    }

    /// The number in the document of an element.
    pub(crate) fn number(&self, id: usize) -> Span {
        match self.nodes.at(id) {
            Some(node) => node.number,
            None => NOTHING,
        }
    }

    /// The element that has a number in the document.
    fn node_with(&self, number: &[u8]) -> Option<usize> {
        if number.is_empty() {
            return None;
        }
        let mut id: usize = 0;
        for node in self.nodes.items() {
            if bytes_at(&self.document.bytes, node.number) == number {
                return Some(id);
            }
            id = id.saturating_add(1);
        }
        None
    }

    /// Whether a block isn't known: it is of another type, and changes none of its variables.
    fn is_unknown(&self, place: usize) -> bool {
        let Some(word) = attribute(self.document, place, b"typeName") else {
            return false;
        };
        if block_of(word).is_some() || edge_of(word).is_some() {
            return false;
        }
        match child(self.document, place, b"inOutVariables") {
            Some(both) => child(self.document, both, b"variable").is_none(),
            None => true,
        }
    }

    /// What a block calls.
    fn callee_of(&self, place: usize) -> Result<Callee, PlcReason> {
        if self.open && self.is_unknown(place) {
            return Ok(NO_CALLEE);
        }
        let (Some(name), Some(word)) = (
            attribute(self.document, place, b"instanceName"),
            attribute(self.document, place, b"typeName"),
        ) else {
            return Err(PlcReason::Block);
        };
        match self.symbols.find(name) {
            Some(Sort::Block(instance)) if same_letters(word, instance.kind.traits().word) => {
                Ok(Callee {
                    role: Role::Block,
                    instance: Some(instance),
                    trigger: None,
                })
            }
            Some(Sort::Trigger(trigger)) if same_letters(word, trigger.edge.word()) => Ok(Callee {
                role: Role::Block,
                instance: None,
                trigger: Some(trigger),
            }),
            Some(_) => Err(PlcReason::Block),
            None => Err(PlcReason::Undeclared),
        }
    }

    /// Whether a variable is written that the text doesn't have.
    fn is_unwritten(&self, place: usize) -> bool {
        let word = self.word(place, b"expression");
        is_name(word) && matches!(self.symbols.find(word), None | Some(Sort::Other))
    }

    /// What an element with a role calls, and its role if that is another one.
    fn callee_in(&self, role: Role, place: usize) -> Result<Callee, PlcReason> {
        if role == Role::Block {
            return self.callee_of(place);
        }
        let is_unwritten = self.open && role == Role::Write && self.is_unwritten(place);
        Ok(Callee {
            role: if is_unwritten { Role::Unwritten } else { role },
            instance: None,
            trigger: None,
        })
    }

    /// The element that a part of the document is.
    fn node_of(&self, part: Part, number: Span) -> Result<Node, PlcReason> {
        let Some(role) = role_of(name_of(self.document, part)) else {
            return Err(PlcReason::Unknown);
        };
        if self
            .node_with(bytes_at(&self.document.bytes, number))
            .is_some()
        {
            return Err(PlcReason::SameNumber);
        }
        let callee = self.callee_in(role, part.inside)?;
        let edge = match role {
            Role::Contact | Role::Coil => edge_in(self.document, part.inside)?,
            _ => None,
        };
        Ok(Node {
            role: callee.role,
            inside: part.inside,
            number,
            instance: callee.instance,
            trigger: callee.trigger,
            edge,
        })
    }

    /// Adds the elements that parts of the document are.
    pub(crate) fn add_nodes(&mut self, parts: &[Part]) -> Result<(), PlcFault> {
        if parts.len() > MOST_NODES {
            return Err(PlcFault::TooLarge);
        }
        for part in parts {
            let number = value_of(self.document, part.inside, b"localId");
            match self.node_of(*part, number) {
                Ok(node) => self.nodes.push(node),
                Err(reason) => return Err(refused(number, reason)),
            }
        }
        Ok(())
    }

    /// The text of an element directly in another one; none where there is no such element.
    pub(crate) fn word(&self, place: usize, name: &[u8]) -> &'d [u8] {
        match child(self.document, place, name) {
            Some(inside) => text(self.document, inside),
            None => b"",
        }
    }

    /// The output of an element that has only one.
    fn only_output(&self, id: usize) -> Option<&'static [u8]> {
        let node = self.nodes.at(id)?;
        if node.trigger.is_some() {
            return Some(TRIGGERED);
        }
        Some(output_of(node.instance?.kind))
    }

    /// Has nothing of the text have the name that the word of an element is.
    fn avoid(&mut self, place: usize, name: &[u8]) {
        if let Some(inside) = child(self.document, place, name) {
            let word = characters_in(self.document, inside);
            self.symbols.avoid(word);
        }
    }

    /// The element that a connection leads to, by the output that it names.
    fn connected_with(&self, place: usize, formal: &[u8]) -> Result<usize, PlcReason> {
        let number = bytes_at(
            &self.document.bytes,
            value_of(self.document, place, b"refLocalId"),
        );
        let Some(id) = self.node_with(number) else {
            return Err(PlcReason::Connection);
        };
        match self.only_output(id) {
            Some(output) if !formal.is_empty() && !same_letters(formal, output) => {
                Err(PlcReason::Formal)
            }
            _ => Ok(id),
        }
    }

    /// The number of an output that is read, if it was read before.
    fn known_output(&self, opened: Opened) -> Option<usize> {
        let formal = bytes_at(&self.document.bytes, opened.formal);
        let mut id = self.nodes.len();
        for other in self.opened.items() {
            if other.id == opened.id && bytes_at(&self.document.bytes, other.formal) == formal {
                return Some(id);
            }
            id = id.saturating_add(1);
        }
        None
    }

    /// The element that an output of a block that isn't known is: behind the others, one for each that is read.
    fn output_read(&mut self, opened: Opened) -> Result<usize, PlcFault> {
        if let Some(id) = self.known_output(opened) {
            return Ok(id);
        }
        // A drawing has no more variables.
        if self.opened.len() >= MOST_VARS {
            return Err(PlcFault::TooLarge);
        }
        let id = self.nodes.len().saturating_add(self.opened.len());
        self.opened.push(opened);
        Ok(id)
    }

    /// The element that gives power through a connection with an element.
    fn source_of(&mut self, opened: Opened) -> Result<usize, PlcFault> {
        match self.nodes.at(opened.id) {
            Some(node) if node.role == Role::Unknown => self.output_read(opened),
            _ => Ok(opened.id),
        }
    }

    /// Adds a connection, if an element is one.
    fn add_connection(&mut self, part: Part, number: Span) -> Result<(), PlcFault> {
        if !is_named(self.document, part, b"connection") {
            return Ok(());
        }
        if self.connections.len() >= MOST_CONNECTIONS {
            return Err(PlcFault::TooLarge);
        }
        let formal = value_of(self.document, part.inside, b"formalParameter");
        let word = bytes_at(&self.document.bytes, formal);
        let id = match self.connected_with(part.inside, word) {
            Ok(id) => id,
            Err(reason) => return Err(refused(number, reason)),
        };
        let source = self.source_of(Opened {
            id,
            formal,
            place: part.inside,
        })?;
        self.connections.push(source);
        Ok(())
    }

    /// Adds the connections among some elements.
    fn add_connections(&mut self, parts: &[Part], number: Span) -> Result<(), PlcFault> {
        for part in parts {
            self.add_connection(*part, number)?;
        }
        Ok(())
    }

    /// Adds what is connected on the left of something, inside which a place is, of the element with a number.
    pub(crate) fn add_left(&mut self, place: usize, number: Span) -> Result<Links, PlcFault> {
        let start = self.connections.len();
        let Some(point) = child(self.document, place, b"connectionPointIn") else {
            return Ok(Links { start, end: start });
        };
        let parts = parts_in(self.alloc, self.document, point)?;
        match self.add_connections(&parts, number) {
            Ok(()) => Ok(Links {
                start,
                end: self.connections.len(),
            }),
            Err(fault) => Err(fault),
        }
    }

    /// The operand that the text of an element is, which is directly in another one.
    fn operand_in(&self, node: Node, name: &[u8]) -> Result<Operand, PlcFault> {
        match self.symbols.operand_of(self.word(node.inside, name)) {
            Ok(operand) => Ok(operand),
            Err(reason) => Err(refused(node.number, reason)),
        }
    }

    /// The variable that the text of an element is, which is directly in another one.
    pub(crate) fn variable_in(&self, node: Node, name: &[u8]) -> Result<usize, PlcFault> {
        match self.operand_in(node, name)? {
            Operand::Variable(number) if !self.symbols.is_trigger(number) => Ok(number),
            _ => Err(refused(node.number, PlcReason::Type)),
        }
    }

    /// What the contact reads that is the next element. If it can't be read, that is told later where what isn't known may have any value.
    fn operand_read(&mut self, node: Node) -> Result<Operand, PlcFault> {
        match self.symbols.operand_of(self.word(node.inside, b"variable")) {
            Ok(operand) => Ok(operand),
            Err(reason) if self.open => {
                let id = self.elements.len();
                self.unread.push(Unread { id, reason });
                self.avoid(node.inside, b"variable");
                Ok(UNKNOWN)
            }
            Err(reason) => Err(refused(node.number, reason)),
        }
    }

    /// What an element is in the network.
    fn element_of(&mut self, node: Node, negated: bool) -> Result<Element, PlcFault> {
        match node.role {
            Role::Rail => Ok(Element::Rail),
            Role::Contact => Ok(Element::Contact {
                negated,
                operand: self.operand_read(node)?,
                left: self.add_left(node.inside, node.number)?,
            }),
            Role::Coil => Ok(Element::Coil {
                left: self.add_left(node.inside, node.number)?,
            }),
            Role::Block | Role::Read => Ok(self.output_of(node)),
            Role::Unwritten => {
                self.avoid(node.inside, b"expression");
                Ok(Element::Coil { left: UNCONNECTED })
            }
            _ => Ok(Element::Coil { left: UNCONNECTED }),
        }
    }

    /// What a block or a variable that is read is in the network.
    fn output_of(&self, node: Node) -> Element {
        if let Some(instance) = node.instance {
            return Element::Output {
                operand: Operand::Output(instance.number),
            };
        }
        if let Some(trigger) = node.trigger {
            return Element::Output {
                operand: Operand::Variable(trigger.number),
            };
        }
        match self
            .symbols
            .operand_of(self.word(node.inside, b"expression"))
        {
            Ok(operand) => Element::Output { operand },
            Err(_) => Element::Coil { left: UNCONNECTED },
        }
    }

    /// Adds what an element is in the network.
    fn add_element(&mut self, node: Node) -> Result<(), PlcFault> {
        let negated = match is_negated(self.document, node) {
            Ok(negated) => negated,
            Err(reason) => return Err(refused(node.number, reason)),
        };
        let element = self.element_of(node, negated)?;
        self.elements.push(element);
        Ok(())
    }

    /// Adds what each element is in the network.
    pub(crate) fn add_elements(&mut self) -> Result<(), PlcFault> {
        for id in 0..self.nodes.len() {
            if let Some(node) = self.nodes.at(id) {
                self.add_element(node)?;
            }
        }
        Ok(())
    }

    /// Adds the outputs of blocks that aren't known. Their variables are known later.
    pub(crate) fn add_opened(&mut self) {
        for _ in 0..self.opened.len() {
            self.elements.push(Element::Output { operand: UNKNOWN });
        }
    }

    /// What is connected on the left of something.
    pub(crate) fn left(&self, links: Links) -> &[usize] {
        match self.connections.items().get(links.start..links.end) {
            Some(ids) => ids,
            None => &[],
        }
    }

    /// Whether power can come from an element.
    fn has_power(&self, id: usize) -> bool {
        match self.elements.at(id) {
            Some(Element::Coil { left }) => !self.left(left).is_empty(),
            Some(_) => true,
            None => false,
        }
    }

    /// Refuses something on the left from which no power can come.
    pub(crate) fn check_left(&self, links: Links) -> Result<(), PlcFault> {
        for id in self.left(links) {
            if !self.has_power(*id) {
                return Err(refused(self.number(*id), PlcReason::Powerless));
            }
        }
        Ok(())
    }

    /// The same on the left of all contacts and coils.
    pub(crate) fn check_elements(&self) -> Result<(), PlcFault> {
        for element in self.elements.items() {
            if let Element::Contact { left, .. } | Element::Coil { left } = element {
                self.check_left(*left)?;
            }
        }
        Ok(())
    }
}
