//! A list, and whether memory ran out while it grew.

ghost use Rattle.std.specs.Prelude.{◌≡◌, ◌≤◌, ◌++◌, ◌∷◌, [], IsTrue, MatchOption, length, slice_get, slice_range, slice_set, take, true};

use crate::part::Part;
use std::alloc::Global;

/// A list. Once memory has run out, nothing more is added to it.
#[derive(Drop)]
pub struct Table<T> {
    pub items: Vec<T>,
    /// Memory never ran out.
    pub is_whole: bool,
}

impl<T: Copy> Table<T> {
    /// A table of no items.
    pub fn new(alloc: Global) -> Table<T>
        ensures none { result.items.items ≡ [] }
        ensures whole { result.is_whole ≡ true }
    {
        Table {
            items: Vec::new(alloc),
            is_whole: true,
        }
    }

    /// Adds items, unless memory ran out.
    pub fn add(&mut self, items: &[T])
        ensures whole { IsTrue self.new.is_whole → IsTrue self.old.is_whole }
        ensures added { IsTrue self.new.is_whole → self.new.items.items ≡ self.old.items.items ++ items.now }
    {
        if self.is_whole {
            self.is_whole = self.items.extend_from_slice(items).is_ok();
        }
    }

    /// Adds an item, unless memory ran out.
    pub fn push(&mut self, item: T)
        ensures whole { IsTrue self.new.is_whole → IsTrue self.old.is_whole }
        ensures added { IsTrue self.new.is_whole → self.new.items.items ≡ self.old.items.items ++ item ∷ [] }
    {
        if self.is_whole {
            self.is_whole = self.items.push(item).is_ok();
        }
    }

    /// Takes the last item away.
    pub fn pop(&mut self) -> Option<T>
        ensures whole { self.new.is_whole ≡ self.old.is_whole }
        ensures last { MatchOption result (self.old.items.items ≡ []) (λ item. self.old.items.items ≡ self.new.items.items ++ item ∷ []) }
    {
        self.items.pop()
    }

    /// Keeps the first items, so many.
    pub fn truncate(&mut self, count: usize)
        ensures whole { self.new.is_whole ≡ self.old.is_whole }
        ensures kept { self.new.items.items ≡ take count self.old.items.items }
    {
        self.items.truncate(count);
    }

    /// Puts an item in the place of another one.
    pub fn set(&mut self, place: usize, item: T)
        ensures whole { self.new.is_whole ≡ self.old.is_whole }
        ensures set { self.new.items.items ≡ slice_set self.old.items.items place item }
    {
        if let Some(old) = self.items.get_mut(place) {
            *old = item;
        }
    }

    /// The items.
    pub fn items(&self) -> &[T]
        ensures { result.now ≡ self.now.items.items }
    {
        &self.items
    }

    /// How many items there are.
    pub fn len(&self) -> usize
        ensures { result ≡ length self.now.items.items }
    {
        self.items.len()
    }

    /// The item at a place.
    pub fn at(&self, place: usize) -> Option<T>
        ensures { result ≡ slice_get self.now.items.items place }
    {
        match self.items.get(place) {
            Some(item) => Some(*item),
            None => None,
        }
    }

    /// What was added since there were so many items.
    pub fn since(&self, from: usize) -> Part
        ensures from { result.from ≡ from }
        ensures to { result.to ≡ length self.now.items.items }
    {
        Part {
            from,
            to: self.items.len(),
        }
    }

    /// The items of a part.
    pub fn part(&self, part: Part) -> &[T]
        ensures { part.from ≤ part.to → part.to ≤ length self.now.items.items → result.now ≡ slice_range self.now.items.items part.from part.to }
    {
        match self.items.get(part.from..part.to) {
            Some(items) => items,
            None => &[],
        }
    }

    /// Adds an item by itself.
    pub fn alone(&mut self, item: T) -> Part
        ensures whole { IsTrue self.new.is_whole → IsTrue self.old.is_whole }
        ensures added { IsTrue self.new.is_whole → self.new.items.items ≡ self.old.items.items ++ item ∷ [] }
        ensures from { result.from ≡ length self.old.items.items }
        ensures to { result.to ≡ length self.new.items.items }
    {
        let from = self.items.len();
        self.push(item);
        self.since(from)
    }

    /// Adds the items of a part once more.
    pub fn repeat(&mut self, part: Part)
        ensures { IsTrue self.new.is_whole → IsTrue self.old.is_whole }
    {
        for place in part.from..part.to {
            if let Some(item) = self.at(place) {
                self.push(item);
            }
        }
    }

    /// Adds the items of two parts as one.
    pub fn joined(&mut self, first: Part, second: Part) -> Part
        ensures whole { IsTrue self.new.is_whole → IsTrue self.old.is_whole }
        ensures from { result.from ≡ length self.old.items.items }
        ensures to { result.to ≡ length self.new.items.items }
    {
        let from = self.items.len();
        self.repeat(first);
        self.repeat(second);
        self.since(from)
    }
}
