//! A text as it is written.

use io_table::Table;
use std::alloc::Global;

/// A text has no more bytes than this.
const LONGEST: usize = 1_048_576;

/// A text that is written. Once it is too long or memory has run out, nothing more of it counts.
#[derive(Drop)]
pub(crate) struct Text {
    pub bytes: Table<u8>,
    /// Something found no room.
    pub is_long: bool,
}

impl Text {
    /// A text of no bytes.
    pub(crate) fn new(alloc: Global) -> Text {
        Text {
            bytes: Table::new(alloc),
            is_long: false,
        }
    }

    /// Adds bytes.
    pub(crate) fn add(&mut self, bytes: &[u8]) {
        if self.bytes.len().saturating_add(bytes.len()) > LONGEST {
            self.is_long = true;
        } else {
            self.bytes.add(bytes);
        }
    }

    /// Whether nothing more of it counts.
    pub(crate) fn is_full(&self) -> bool {
        self.is_long || !self.bytes.is_whole
    }

    /// Adds bytes where they are wanted.
    pub(crate) fn add_if(&mut self, wanted: bool, bytes: &[u8]) {
        if wanted {
            self.add(bytes);
        }
    }
}
