//! What leads to what acts.

use crate::action::{Action, lefts_of};
use crate::diagram::Diagram;
use io_table::Table;
use network_power::{Element, Links};
use std::alloc::Global;

/// It leads to nothing that acts.
pub(crate) const NOWHERE: usize = usize::MAX;

/// What each element leads to, to the right through contacts and coils.
#[derive(Drop)]
pub(crate) struct Marks {
    /// The place in the order, counted from 1, of the first that acts there.
    pub firsts: Table<usize>,
    /// The next element on the way; the element itself where it is on the left of what acts.
    pub nexts: Table<usize>,
    /// The elements to be looked at.
    near: Table<usize>,
}

impl Marks {
    /// No elements.
    pub(crate) fn new(alloc: Global) -> Marks {
        Marks {
            firsts: Table::new(alloc),
            nexts: Table::new(alloc),
            near: Table::new(alloc),
        }
    }

    /// Whether memory never ran out.
    pub(crate) fn is_whole(&self) -> bool {
        self.firsts.is_whole && self.nexts.is_whole && self.near.is_whole
    }

    /// Whether an element leads to something that acts.
    pub(crate) fn is_marked(&self, id: usize) -> bool {
        self.place(id) != NOWHERE
    }

    /// The place, counted from 1, of the first that acts to which an element leads.
    pub(crate) fn place(&self, id: usize) -> usize {
        match self.firsts.at(id) {
            Some(place) => place,
            None => NOWHERE,
        }
    }

    /// So many elements that lead to nothing.
    fn clear(&mut self, count: usize) {
        self.firsts.truncate(0);
        self.nexts.truncate(0);
        for id in 0..count {
            self.firsts.push(NOWHERE);
            self.nexts.push(id);
        }
    }

    /// Marks what is connected on the left of the next element, or of what acts at a place, and has it looked at.
    fn mark(&mut self, diagram: &Diagram<'_>, links: Links, next: Option<usize>, place: usize) {
        for id in diagram.left(links) {
            if self.firsts.at(*id) == Some(NOWHERE) {
                self.firsts.set(*id, place);
                self.nexts.set(*id, next.unwrap_or(*id));
                self.near.push(*id);
            }
        }
    }

    /// Looks at all that leads to what acts at a place.
    fn follow_near(&mut self, diagram: &Diagram<'_>, place: usize) {
        for _ in 0..diagram.elements.len() {
            let Some(id) = self.near.pop() else {
                return;
            };
            match diagram.elements.at(id) {
                Some(Element::Contact { left, .. } | Element::Coil { left }) => {
                    self.mark(diagram, left, Some(id), place);
                }
                _ => {}
            }
        }
    }

    /// Marks all that leads to what acts, in its order.
    pub(crate) fn follow(&mut self, diagram: &Diagram<'_>, ordered: &[Action]) {
        self.clear(diagram.elements.len());
        for (place, action) in ordered.iter().enumerate() {
            let lefts = lefts_of(action.deed.effect);
            let count = place.saturating_add(1);
            self.mark(diagram, lefts.first, None, count);
            self.mark(diagram, lefts.second, None, count);
            self.follow_near(diagram, count);
        }
    }
}
