//! A text as it is written.

use itoa::Buffer;
use std::alloc::{AllocError, Global};

/// A text that is written. Once memory has run out, nothing more is added to it.
#[derive(Drop)]
pub(crate) struct Text {
    bytes: Vec<u8>,
    added: Result<(), AllocError>,
}

impl Text {
    /// A text of no bytes.
    pub(crate) fn new(alloc: Global) -> Text {
        Text {
            bytes: Vec::new(alloc),
            added: Ok(()),
        }
    }

    /// Whether nothing was added yet.
    pub(crate) fn is_empty(&self) -> bool {
        self.bytes.is_empty()
    }

    /// How many bytes the text has.
    pub(crate) fn len(&self) -> usize {
        self.bytes.len()
    }

    /// Adds bytes, unless memory runs out: then the end of the text says so.
    pub(crate) fn add(&mut self, bytes: &[u8]) {
        if self.added.is_ok() {
            self.added = self.bytes.extend_from_slice(bytes);
        }
    }

    /// Adds bytes, and after them a number in decimal.
    pub(crate) fn add_number(&mut self, bytes: &[u8], number: usize) {
        let mut digits = Buffer::new();
        self.add(bytes);
        self.add(digits.format(number).as_bytes());
    }

    /// Adds bytes in the middle of a place of this width, as far as there is room, and spaces on the left of them.
    pub(crate) fn add_centred(&mut self, bytes: &[u8], width: usize) {
        let start = self.bytes.len();
        self.fill(start, width.saturating_sub(bytes.len()) / 2);
        self.add(&bytes[..bytes.len().min(width)]);
    }

    /// Adds spaces until the text has this many bytes from `start` on.
    pub(crate) fn fill(&mut self, start: usize, place: usize) {
        for _ in self.bytes.len().saturating_sub(start)..place {
            self.add(b" ");
        }
    }

    /// Ends a line that isn't blank, without the spaces at its end.
    pub(crate) fn end_line(&mut self) {
        let len = self.bytes.trim_ascii_end().len();
        self.bytes.truncate(len);
        self.add(b"\n");
    }

    /// The bytes of the text.
    ///
    /// # Errors
    ///
    /// `AllocError` when memory had run out.
    pub(crate) fn end(self) -> Result<Vec<u8>, AllocError> {
        match self.added {
            Ok(()) => Ok(self.bytes),
            Err(error) => Err(error),
        }
    }
}
