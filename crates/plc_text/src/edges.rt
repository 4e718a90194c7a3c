//! The triggers that edges of contacts and coils become.

use crate::action::{Action, Deed, lefts_of};
use crate::diagram::{Diagram, EdgeSite, UNCONNECTED, refused};
use crate::edge::Edge;
use crate::fault::PlcFault;
use crate::made::Origin;
use crate::marks::{Marks, NOWHERE};
use crate::node::{Node, Role};
use io_table::Table;
use network_check::{CoilKind, Effect};
use network_power::{Element, Links};
use st_expression::Operand;
use xml_parts::{attribute, bytes_at};

/// An edge with its number among the edges.
#[derive(Clone, Copy)]
struct Numbered {
    number: usize,
    site: EdgeSite,
}

impl<'d> Diagram<'d> {
    /// Refuses contacts that can't be read and lead to something that acts.
    pub(crate) fn settle_unread(&mut self, marks: &Marks) -> Result<(), PlcFault> {
        for unread in self.unread.items() {
            if marks.is_marked(unread.id) {
                return Err(refused(self.number(unread.id), unread.reason));
            }
        }
        Ok(())
    }

    /// Has contacts that lead to nothing that acts give no power, so that it doesn't matter what they read, and what leads to them.
    pub(crate) fn settle_contacts(&mut self, marks: &Marks) {
        for id in 0..self.nodes.len() {
            if let Some(node) = self.nodes.at(id) {
                if node.role == Role::Contact && !marks.is_marked(id) {
                    self.elements.set(id, Element::Coil { left: UNCONNECTED });
                }
            }
        }
    }

    /// Adds the edge of a contact or a coil. A contact that leads to nothing that acts has none.
    fn add_edge(&mut self, marks: &Marks, id: usize, node: Node, edge: Edge) {
        if node.role == Role::Coil {
            return self.edges.push(EdgeSite {
                id,
                edge,
                operand: None,
                place: NOWHERE,
            });
        }
        match self.elements.at(id) {
            Some(Element::Contact { operand, .. }) if marks.is_marked(id) => {
                self.edges.push(EdgeSite {
                    id,
                    edge,
                    operand: Some(operand),
                    place: marks.place(id),
                });
            }
            _ => {}
        }
    }

    /// Finds the edges that have a trigger.
    pub(crate) fn settle_edges(&mut self, marks: &Marks) {
        for id in 0..self.nodes.len() {
            if let Some(node) = self.nodes.at(id) {
                if let Some(edge) = node.edge {
                    self.add_edge(marks, id, node, edge);
                }
            }
        }
    }

    /// Refuses what is connected with what acts and has no power.
    pub(crate) fn check_actions(&self, ordered: &[Action]) -> Result<(), PlcFault> {
        for action in ordered {
            let lefts = lefts_of(action.deed.effect);
            self.check_left(lefts.first)?;
            self.check_left(lefts.second)?;
        }
        Ok(())
    }

    /// The number among the variables of the trigger of an edge.
    fn trigger_number(&self, number: usize) -> usize {
        self.symbols.declared().saturating_add(number)
    }

    /// What is connected on the left of what looks at an edge, or of a coil behind it: one element that the network has besides.
    fn edge_links(&self, number: usize) -> Links {
        let start = self
            .connections
            .len()
            .saturating_sub(self.edges.len())
            .saturating_add(number);
        Links {
            start,
            end: start.saturating_add(1),
        }
    }

    /// Adds the element that is read for an edge, and has a contact read the trigger.
    fn add_trigger(&mut self, number: usize, site: EdgeSite) {
        let operand = Operand::Variable(self.trigger_number(number));
        if let Some(Element::Contact { left, .. }) = self.elements.at(site.id) {
            self.elements.set(
                site.id,
                Element::Contact {
                    negated: false,
                    operand,
                    left,
                },
            );
        }
        let id = self.elements.len();
        self.connections.push(id);
        self.elements.push(Element::Output {
            operand: site.operand.unwrap_or(operand),
        });
        self.symbols.make_trigger(site.edge);
    }

    /// Adds the triggers of all edges.
    pub(crate) fn add_triggers(&mut self) {
        for number in 0..self.edges.len() {
            if let Some(site) = self.edges.at(number) {
                self.add_trigger(number, site);
            }
        }
    }

    /// The value of an attribute of an element; no bytes where there is none.
    fn value(&self, node: Node, name: &[u8]) -> &'d [u8] {
        match attribute(self.document, node.inside, name) {
            Some(value) => value,
            None => b"",
        }
    }

    /// What the input is called after that stands for an output that is read.
    fn origin_of_input(&self, number: usize) -> Option<Origin<'d>> {
        let opened = self.opened.at(number)?;
        let node = self.nodes.at(opened.id)?;
        Some(Origin {
            instance: self.value(node, b"instanceName"),
            type_name: self.value(node, b"typeName"),
            number: bytes_at(&self.document.bytes, node.number),
            output: bytes_at(&self.document.bytes, opened.formal),
        })
    }

    /// Adds the inputs that stand for the outputs of blocks that aren't known, behind the triggers.
    pub(crate) fn add_inputs(&mut self) {
        for number in 0..self.opened.len() {
            let variable = self.trigger_number(number).saturating_add(self.edges.len());
            let operand = Operand::Variable(variable);
            let id = self.nodes.len().saturating_add(number);
            self.elements.set(id, Element::Output { operand });
            if let Some(origin) = self.origin_of_input(number) {
                self.symbols.make_input(origin);
            }
        }
    }

    /// The edge of an element, if it has a trigger.
    fn edge_of(&self, id: usize) -> Option<Numbered> {
        let mut number: usize = 0;
        for site in self.edges.items() {
            if site.id == id {
                return Some(Numbered {
                    number,
                    site: *site,
                });
            }
            number = number.saturating_add(1);
        }
        None
    }

    /// Adds the call of the trigger of an edge, with what is on its left, beside another action.
    fn call_trigger(
        &self,
        beside: Action,
        numbered: Numbered,
        left: Links,
        timed: &mut Table<Action>,
    ) {
        let mut action = beside;
        action.turn.place = numbered.site.id;
        action.deed = Deed {
            effect: Effect::Trigger {
                output: self.trigger_number(numbered.number),
                memory: 0,
                falling: numbered.site.edge.is_falling(),
                left,
            },
            preset: None,
        };
        timed.push(action);
    }

    /// Adds the calls of the triggers of contacts that lead first to the action at a place.
    fn call_contacts(&self, place: usize, action: Action, timed: &mut Table<Action>) {
        let mut number: usize = 0;
        for site in self.edges.items() {
            if site.operand.is_some() && site.place == place {
                let numbered = Numbered {
                    number,
                    site: *site,
                };
                self.call_trigger(action, numbered, self.edge_links(number), timed);
            }
            number = number.saturating_add(1);
        }
    }

    /// Adds what a coil with an edge does: its trigger is called, and it writes its output.
    fn add_edge_coil(
        &self,
        action: Action,
        numbered: Numbered,
        variable: usize,
        timed: &mut Table<Action>,
    ) {
        let lefts = lefts_of(action.deed.effect);
        self.call_trigger(action, numbered, lefts.first, timed);
        let mut written = action;
        written.deed = Deed {
            effect: Effect::Coil {
                variable,
                kind: CoilKind::Plain,
                left: self.edge_links(numbered.number),
            },
            preset: None,
        };
        timed.push(written);
    }

    /// Adds what acts at a place, behind the triggers that it needs.
    fn add_timed_one(&self, place: usize, action: Action, timed: &mut Table<Action>) {
        self.call_contacts(place, action, timed);
        match (action.deed.effect, self.edge_of(action.turn.place)) {
            (Effect::Coil { variable, .. }, Some(numbered)) => {
                self.add_edge_coil(action, numbered, variable, timed);
            }
            _ => timed.push(action),
        }
    }

    /// Adds what acts in its order, with the triggers.
    pub(crate) fn add_timed(&self, ordered: &[Action], timed: &mut Table<Action>) {
        for (place, action) in ordered.iter().enumerate() {
            self.add_timed_one(place.saturating_add(1), *action, timed);
        }
    }
}
