//! Rows of the same length, one after the other.

ghost use Rattle.std.specs.Prelude.{◌≡◌, ◌<◌, ◌++◌, [], ◌∷◌, length, slice_index_or, IfOk};

use scan_cycle::Memory;
use std::alloc::Global;
use std::marker::Model;

/// Rows of the same length, one after the other in one buffer.
#[derive(Drop)]
pub(crate) struct Rows<T> {
    items: Vec<T>,
    width: usize,
    count: usize,
}

impl<T> Model for Rows<T> {
    ghost use Rattle.std.specs.Prelude.{◌≡◌, ◌*◌, length};
    ghost use Rattle.reach_search.specs.Tables.{Table, rows_of};

    ghost Value = { Table T };

    ghost view = { λ r. record { width = r.width; rows = rows_of r.width r.count r.items.items } };

    ghost invariant = { λ r. length r.items.items ≡ r.count * r.width };
}

impl<T: Copy> Rows<T> {
    /// No rows of this length.
    pub(crate) fn new(alloc: Global, width: usize) -> Rows<T>
        ensures { result ≡ record { width = width; rows = [] } }
    {
        Rows {
            items: Vec::new(alloc),
            width,
            count: 0,
        }
    }

    /// How many rows there are.
    pub(crate) fn count(&self) -> usize
        ensures { result ≡ length self.now.rows }
    {
        self.count
    }

    /// Adds a row.
    ///
    /// # Errors
    ///
    /// `Memory` when out of memory.
    pub(crate) fn push(&mut self, row: &[T]) -> Result<(), Memory>
        requires { length row.now ≡ self.old.width }
        ensures width { self.new.width ≡ self.old.width }
        ensures rows { IfOk result (λ _. self.new.rows ≡ self.old.rows ++ (row.now ∷ [])) }
    {
        let Some(count) = self.count.checked_add(1) else {
            return Err(Memory);
        };
        self.items.extend_from_slice(row)?;
        self.count = count;
        Ok(())
    }

    /// A row by its number, from 0.
    pub(crate) fn row(&self, number: usize) -> &[T]
        requires { number < length self.now.rows }
        ensures is { result.now ≡ slice_index_or self.now.rows number [] }
        ensures long { length result.now ≡ self.now.width }
    {
        let items: &[T] = &self.items;
        let first = number * self.width;
        let end = first + self.width;
        &items[first..end]
    }
}
