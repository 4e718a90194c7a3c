//! Jumps, and the arms of the `IF`s that they become.

use crate::action::Action;
use crate::diagram::{Diagram, refused};
use crate::fault::{PlcFault, PlcReason};
use crate::node::{Node, Role};
use crate::text::Text;
use crate::xml::value_of;
use io_table::Table;
use network_check::Effect;
use network_power::{Element, Links};
use std::alloc::Global;
use xml_document::Document;
use xml_parts::bytes_at;

/// Which arm of an `IF` is open.
#[derive(Clone, Copy)]
enum Arm {
    First,
    /// The first, behind which there is an `ELSE` up to this place.
    FirstOfTwo(usize),
    Second,
}

/// An `IF` whose end isn't written.
#[derive(Clone, Copy)]
struct Open {
    arm: Arm,
    /// The place of the label at which the arm ends.
    end: usize,
}

/// The `IF`s that are open.
#[derive(Drop)]
pub(crate) struct Opens {
    items: Table<Open>,
}

/// The name of a label, or of the one that a jump leads to.
fn label_of(document: &Document, node: Node) -> &[u8] {
    bytes_at(&document.bytes, value_of(document, node.inside, b"label"))
}

impl<'d> Diagram<'d> {
    /// Whether an element is the label with a name.
    fn is_label(&self, id: usize, name: &[u8]) -> bool {
        match self.nodes.at(id) {
            Some(node) => {
                matches!(node.role, Role::Label) && label_of(self.document, node) == name
            }
            None => false,
        }
    }

    /// The place of the only label with a name among those that act in their order.
    fn place_of_label(&self, name: &[u8], ordered: &[Action]) -> Option<usize> {
        let mut found = None;
        for (place, action) in ordered.iter().enumerate() {
            if self.is_label(action.turn.place, name) {
                if found.is_some() {
                    return None;
                }
                found = Some(place);
            }
        }
        found
    }

    /// How many of those that act the jump at a place leads over.
    fn over(&self, place: usize, action: Action, ordered: &[Action]) -> Option<usize> {
        let node = self.nodes.at(action.turn.place)?;
        let target = self.place_of_label(label_of(self.document, node), ordered)?;
        target.checked_sub(place)?.checked_sub(1)
    }

    /// What acts at a place of the order: a jump with how many of those that act it leads over, and a trigger with the number of its memory.
    fn settled(
        &self,
        place: usize,
        action: Action,
        ordered: &[Action],
        memory: usize,
    ) -> Result<Action, PlcFault> {
        let mut settled = action;
        match action.deed.effect {
            Effect::Jump { left, .. } => {
                let Some(over) = self.over(place, action, ordered) else {
                    return Err(refused(self.number(action.turn.place), PlcReason::Jump));
                };
                settled.deed.effect = Effect::Jump { over, left };
            }
            Effect::Trigger {
                output,
                falling,
                left,
                ..
            } => {
                settled.deed.effect = Effect::Trigger {
                    output,
                    memory,
                    falling,
                    left,
                };
            }
            _ => {}
        }
        Ok(settled)
    }

    /// Adds what acts in its order, with what each jump leads over, and with the numbers of the memories, counted from 0.
    pub(crate) fn add_landed(
        &self,
        ordered: &[Action],
        landed: &mut Table<Action>,
    ) -> Result<(), PlcFault> {
        let mut memory: usize = 0;
        for (place, action) in ordered.iter().enumerate() {
            landed.push(self.settled(place, *action, ordered, memory)?);
            if matches!(action.deed.effect, Effect::Trigger { .. }) {
                memory = memory.saturating_add(1);
            }
        }
        Ok(())
    }

    /// Whether there is always power on the left of something.
    fn is_always(&self, left: Links) -> bool {
        let ids = self.left(left);
        for id in ids {
            match self.elements.at(*id) {
                Some(Element::Rail) => {}
                _ => return false,
            }
        }
        !ids.is_empty()
    }
}

impl Opens {
    /// No `IF` is open.
    pub(crate) fn new(alloc: Global) -> Opens {
        Opens {
            items: Table::new(alloc),
        }
    }

    /// Whether memory never ran out.
    pub(crate) fn is_whole(&self) -> bool {
        self.items.is_whole
    }

    /// Ends an arm that ends at a place, if there is one.
    fn end_one(&mut self, out: &mut Text, place: usize) {
        let Some(open) = self.items.pop() else {
            return;
        };
        if open.end != place {
            return self.items.push(open);
        }
        match open.arm {
            Arm::FirstOfTwo(further) => {
                out.add(b"ELSE\n");
                self.items.push(Open {
                    arm: Arm::Second,
                    end: further,
                });
            }
            Arm::First | Arm::Second => out.add(b"END_IF;\n"),
        }
    }

    /// Ends the arms that end at a place.
    pub(crate) fn end(&mut self, out: &mut Text, place: usize) {
        for _ in 0..self.items.len() {
            self.end_one(out, place);
        }
    }

    /// Whether an arm can have this end: it is within all `IF`s that are open.
    fn has_room(&self, end: usize) -> bool {
        match self.items.items() {
            [.., open] => end <= open.end,
            [] => true,
        }
    }

    /// Whether a jump at a place to an end that always has power ends the first arm of an `IF`, which then has an `ELSE` up to there.
    fn begin_second(&mut self, place: usize, end: usize) -> bool {
        let Some(open) = self.items.pop() else {
            return false;
        };
        let is_last = matches!(open.arm, Arm::First)
            && place.checked_add(1) == Some(open.end)
            && end > open.end
            && self.has_room(end);
        let arm = if is_last {
            Arm::FirstOfTwo(end)
        } else {
            open.arm
        };
        self.items.push(Open { arm, end: open.end });
        is_last
    }

    /// Writes the jump at a place over so many of those that act behind it: an `IF` around these, or what makes the next ones an `ELSE`. Whether
    /// it can be written.
    pub(crate) fn write_jump(
        &mut self,
        diagram: &Diagram<'_>,
        out: &mut Text,
        place: usize,
        over: usize,
        left: Links,
    ) -> Result<bool, PlcFault> {
        let end = place.saturating_add(over).saturating_add(1);
        if diagram.is_always(left) && self.begin_second(place, end) {
            return Ok(true);
        }
        if !self.has_room(end) {
            return Ok(false);
        }
        out.add(b"IF NOT (");
        diagram.write_power(out, left)?;
        out.add(b") THEN\n");
        self.items.push(Open {
            arm: Arm::First,
            end,
        });
        Ok(true)
    }
}
