//! Words and texts as they are put together.

use itoa::Buffer;
use std::alloc::{AllocError, Global};

/// The most bytes that are kept of a word: more than a name has, and than a variable of ClassicLadder.
const MOST: usize = 16;

/// The bytes without the blanks at both ends.
pub(crate) fn trimmed(bytes: &[u8]) -> &[u8] {
    bytes.trim_ascii()
}

/// A short word that is put together. What is longer loses its end.
#[derive(Clone, Copy)]
pub(crate) struct Word {
    bytes: [u8; MOST],
    len: usize,
}

impl Word {
    /// A word of no bytes.
    pub(crate) fn new() -> Word {
        Word {
            bytes: [0; MOST],
            len: 0,
        }
    }

    /// Whether no byte was added yet.
    pub(crate) fn is_empty(&self) -> bool {
        self.len == 0
    }

    /// Adds a byte, unless the word is full.
    pub(crate) fn push(&mut self, byte: u8) {
        if self.len < MOST {
            self.bytes[self.len] = byte;
            self.len += 1;
        }
    }

    /// Adds bytes, as many as there is room for.
    pub(crate) fn add(&mut self, bytes: &[u8]) {
        for byte in bytes {
            self.push(*byte);
        }
    }

    /// Adds bytes, and after them a number in decimal.
    pub(crate) fn add_number(&mut self, bytes: &[u8], number: u32) {
        let mut digits = Buffer::new();
        self.add(bytes);
        self.add(digits.format(number).as_bytes());
    }

    /// The bytes of the word.
    pub(crate) fn bytes(&self) -> &[u8] {
        &self.bytes[..self.len.min(MOST)]
    }
}

/// A text that is written. Once memory has run out, nothing more is added to it.
#[derive(Drop)]
pub(crate) struct Text {
    bytes: Vec<u8>,
    added: Result<(), AllocError>,
}

impl Text {
    /// A text of no bytes.
    pub(crate) fn new(alloc: Global) -> Text {
        Text {
            bytes: Vec::new(alloc),
            added: Ok(()),
        }
    }

    /// Adds bytes. Once memory ran out nothing more is added, and the end of the text says so.
    pub(crate) fn add(&mut self, bytes: &[u8]) {
        if self.added.is_ok() {
            self.added = self.bytes.extend_from_slice(bytes);
        }
    }

    /// Adds bytes, and after them a number in decimal.
    pub(crate) fn add_number(&mut self, bytes: &[u8], number: u32) {
        let mut digits = Buffer::new();
        self.add(bytes);
        self.add(digits.format(number).as_bytes());
    }

    /// Adds words of the project to a comment, with no byte that would end the comment.
    pub(crate) fn add_remark(&mut self, words: &[u8]) {
        let mut star = false;
        for b in trimmed(words) {
            if star && *b == b')' {
                self.add(b" ");
            }
            star = *b == b'*';
            self.add(&[if *b < b' ' || *b == 127 { b' ' } else { *b }]);
        }
    }

    /// How many bytes the text has.
    pub(crate) fn len(&self) -> usize {
        self.bytes.len()
    }

    /// Adds spaces until the text has this many bytes from `start` on.
    pub(crate) fn fill(&mut self, start: usize, place: usize) {
        for _ in self.bytes.len().saturating_sub(start)..place {
            self.add(b" ");
        }
    }

    /// Ends a line, which isn't blank, without the spaces at its end.
    pub(crate) fn end_line(&mut self) {
        let len = self.bytes.trim_ascii_end().len();
        self.bytes.truncate(len);
        self.add(b"\n");
    }

    /// The bytes of the text, or the fault that memory ran out.
    pub(crate) fn end(self) -> Result<Vec<u8>, AllocError> {
        match self.added {
            Ok(()) => Ok(self.bytes),
            Err(error) => Err(error),
        }
    }
}
