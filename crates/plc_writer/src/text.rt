//! A text as it is written.

use io_table::Table;
use itoa::Buffer;
use std::alloc::Global;

/// A text that is written. Once memory has run out, nothing more is added to it.
#[derive(Drop)]
pub(crate) struct Text {
    pub bytes: Table<u8>,
}

impl Text {
    /// A text of no bytes.
    pub(crate) fn new(alloc: Global) -> Text {
        Text {
            bytes: Table::new(alloc),
        }
    }

    /// Adds bytes.
    pub(crate) fn add(&mut self, bytes: &[u8]) {
        self.bytes.add(bytes);
    }

    /// Adds a number in decimal.
    pub(crate) fn add_number(&mut self, number: usize) {
        let mut digits = Buffer::new();
        self.add(digits.format(number).as_bytes());
    }

    /// Adds an attribute.
    pub(crate) fn attribute(&mut self, name: &[u8], value: &[u8]) {
        self.add(b" ");
        self.add(name);
        self.add(b"=\"");
        self.add(value);
        self.add(b"\"");
    }

    /// Adds an attribute that is a number.
    pub(crate) fn number(&mut self, name: &[u8], value: usize) {
        let mut digits = Buffer::new();
        self.attribute(name, digits.format(value).as_bytes());
    }

    /// Adds an element that is a place.
    pub(crate) fn place(&mut self, name: &[u8], x: usize, y: usize) {
        self.add(b"<");
        self.add(name);
        self.number(b"x", x);
        self.number(b"y", y);
        self.add(b"/>");
    }

    /// Adds an element with nothing but a word in it.
    pub(crate) fn word(&mut self, name: &[u8], word: &[u8]) {
        self.add(b"<");
        self.add(name);
        self.add(b">");
        self.add(word);
        self.add(b"</");
        self.add(name);
        self.add(b">");
    }
}
