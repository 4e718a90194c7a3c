//! Short words as they are put together.

use diagram_program::geometry::CELL;
use itoa::Buffer;

/// The most bytes that are kept of a word: more than there is room for over a cell.
const MOST: usize = CELL + 4;

/// A word that is put together. What is longer loses its end.
#[derive(Clone, Copy)]
pub(crate) struct Word {
    bytes: [u8; MOST],
    len: usize,
}

impl Word {
    /// A word of no bytes.
    pub(crate) fn new() -> Word {
        Word {
            bytes: [0; MOST],
            len: 0,
        }
    }

    /// Adds a byte, unless the word is full.
    fn push(&mut self, byte: u8) {
        if self.len < MOST {
            self.bytes[self.len] = byte;
            self.len += 1;
        }
    }

    /// The word with bytes after it.
    pub(crate) fn with(self, bytes: &[u8]) -> Word {
        let mut word = self;
        for byte in bytes {
            word.push(*byte);
        }
        word
    }

    /// The word with a number after it, in decimal.
    pub(crate) fn with_number(self, number: usize) -> Word {
        let mut digits = Buffer::new();
        self.with(digits.format(number).as_bytes())
    }

    /// The bytes of the word.
    pub(crate) fn bytes(&self) -> &[u8] {
        &self.bytes[..self.len.min(MOST)]
    }
}
