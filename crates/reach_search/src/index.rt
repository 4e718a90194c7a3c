//! Where a state of a set may be: a table of hashes. It is a hint: the states themselves are compared.

ghost use Rattle.std.specs.Prelude.{◌≡◌, ◌≤◌};

use reach_states::Untimed;
use scan_cycle::Memory;
use scan_partial::Knowledge;
use scan_signals::Tri;
use std::alloc::Global;

/// For each hash the last state that has it, and for each state the one before it of the same hash.
#[derive(Drop)]
pub(crate) struct Index {
    alloc: Global,
    last: Vec<Option<usize>>,
    before: Vec<Option<usize>>,
    hashes: Vec<u64>,
}

/// How many places the first table has.
const FIRST_PLACES: usize = 1024;

/// The hash with one number more (the multiplication of Fowler, Noll and Vo).
fn mixed(hash: u64, number: u64) -> u64 {
    let mixed = (hash ^ number).wrapping_mul(0x0000_0100_0000_01b3);
    mixed ^ (mixed >> 29)
}

/// The number of a truth value.
fn number_of(value: bool) -> u64
    ensures { result ≤ 1 }
{
    if value { 1 } else { 0 }
}

/// The number of what is kept of an instance.
fn number_kept(kept: Untimed) -> u64 {
    match kept {
        Untimed::Timer {
            last,
            running,
            elapsed,
            q,
        } => mixed(
            mixed(
                mixed(number_of(last), number_of(running)),
                u64::from(elapsed),
            ),
            number_of(q),
        ),
        Untimed::Counter { last, cv, q } => mixed(
            mixed(number_of(last), u64::from(cv.unsigned_abs())),
            number_of(q) + 2,
        ),
        Untimed::Output(q) => 4 + (q as u8) as u64,
        Untimed::Anything => 3,
    }
}

/// The hash with these values.
fn with_values(hash: u64, values: &[Tri]) -> u64 {
    let mut hash = hash;
    for number in 0..values.len() {
        hash = mixed(hash, (values[number] as u8) as u64);
    }
    hash
}

/// The hash with what is kept of these instances.
fn with_blocks(hash: u64, blocks: &[Untimed]) -> u64 {
    let mut hash = hash;
    for number in 0..blocks.len() {
        hash = mixed(hash, number_kept(blocks[number]));
    }
    hash
}

/// The hash of a state.
pub(crate) fn hash_of(known: &Knowledge<Tri, Untimed>) -> u64 {
    let hash = with_values(0xcbf2_9ce4_8422_2325, known.values());
    with_blocks(with_values(hash, known.memories()), known.blocks())
}

impl Index {
    /// An index of no states.
    ///
    /// # Errors
    ///
    /// `Memory` when out of memory.
    pub(crate) fn new(alloc: Global) -> Result<Index, Memory> {
        Ok(Index {
            alloc,
            last: vec![in alloc; None; FIRST_PLACES]?,
            before: Vec::new(alloc),
            hashes: Vec::new(alloc),
        })
    }

    /// The place of a hash in the table.
    fn place_of(&self, hash: u64) -> usize {
        match u64::try_from(self.last.len()) {
            Ok(places) if places > 0 => (hash % places) as usize,
            _ => 0,
        }
    }

    /// The last state that may have the hash.
    pub(crate) fn last_of(&self, hash: u64) -> Option<usize> {
        match self.last.get(self.place_of(hash)) {
            Some(number) => *number,
            None => None,
        }
    }

    /// The one before a state that may have the same hash.
    pub(crate) fn before(&self, number: usize) -> Option<usize> {
        match self.before.get(number) {
            Some(before) => *before,
            None => None,
        }
    }

    /// Makes a state the last one of its place.
    fn enter(&mut self, number: usize, hash: u64)
        ensures { self.new.hashes ≡ self.old.hashes }
    {
        let place = self.place_of(hash);
        if let (Some(last), Some(before)) = (self.last.get(place), self.before.get_mut(number)) {
            *before = *last;
        }
        if let Some(last) = self.last.get_mut(place) {
            *last = Some(number);
        }
    }

    /// A table with twice as many places.
    fn widen(&mut self) -> Result<(), Memory> {
        let places = self.last.len().saturating_mul(2);
        self.last = vec![in self.alloc; None; places]?;
        for number in 0..self.hashes.len() {
            let hash = self.hashes[number];
            self.enter(number, hash);
        }
        Ok(())
    }

    /// Adds the next state, which has this hash.
    ///
    /// # Errors
    ///
    /// `Memory` when out of memory.
    pub(crate) fn push(&mut self, hash: u64) -> Result<(), Memory> {
        let number = self.hashes.len();
        self.hashes.push(hash)?;
        self.before.push(None)?;
        if number > self.last.len() {
            return self.widen();
        }
        self.enter(number, hash);
        Ok(())
    }
}
