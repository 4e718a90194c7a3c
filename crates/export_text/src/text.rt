//! A text as it is written.

use io_table::Table;
use itoa::Buffer;
use std::alloc::Global;

/// A text that is written. Once memory has run out, nothing more is added to it.
#[derive(Drop)]
pub(crate) struct Text {
    pub bytes: Table<u8>,
    /// Where the last line begins.
    line: usize,
    /// How many lines were ended.
    pub lines: usize,
}

impl Text {
    /// A text of no bytes.
    pub(crate) fn new(alloc: Global) -> Text {
        Text {
            bytes: Table::new(alloc),
            line: 0,
            lines: 0,
        }
    }

    /// Takes all away.
    pub(crate) fn clear(&mut self) {
        self.bytes.truncate(0);
        self.line = 0;
        self.lines = 0;
    }

    /// Adds bytes.
    pub(crate) fn add(&mut self, bytes: &[u8]) {
        self.bytes.add(bytes);
    }

    /// Adds a number in decimal.
    pub(crate) fn add_number(&mut self, number: usize) {
        let mut digits = Buffer::new();
        self.add(digits.format(number).as_bytes());
    }

    /// Adds spaces.
    pub(crate) fn indent(&mut self, spaces: usize) {
        for _ in 0..spaces {
            self.add(b" ");
        }
    }

    /// Ends the line.
    pub(crate) fn end_line(&mut self) {
        self.add(b"\n");
        self.line = self.bytes.len();
        self.lines = self.lines.saturating_add(1);
    }

    /// Adds bytes, and ends the line.
    pub(crate) fn end_with(&mut self, bytes: &[u8]) {
        self.add(bytes);
        self.end_line();
    }

    /// How many bytes the last line has.
    pub(crate) fn width(&self) -> usize {
        self.bytes.len().saturating_sub(self.line)
    }

    /// Adds the lines of another text.
    pub(crate) fn add_text(&mut self, other: &Text) {
        self.add(other.bytes.items());
        self.line = self.bytes.len();
        self.lines = self.lines.saturating_add(other.lines);
    }
}
