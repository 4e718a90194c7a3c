//! Statements of several rungs.

use crate::text::Text;
use std::alloc::Global;

/// Statements of several rungs, with a blank line where one of two neighbours has more than one line.
#[derive(Drop)]
pub(crate) struct Paragraphs {
    pub text: Text,
    /// How many lines the last one has.
    last: usize,
}

impl Paragraphs {
    /// None.
    pub(crate) fn new(alloc: Global) -> Paragraphs {
        Paragraphs {
            text: Text::new(alloc),
            last: 0,
        }
    }

    /// Adds one, unless it has no lines.
    pub(crate) fn add(&mut self, paragraph: &Text) {
        let lines = paragraph.lines;
        if lines == 0 {
            return;
        }
        if self.last > 0 && lines.max(self.last) > 1 {
            self.text.end_line();
        }
        self.text.add_text(paragraph);
        self.last = lines;
    }

    /// Adds them to a text.
    pub(crate) fn add_to(&self, out: &mut Text) {
        out.add_text(&self.text);
    }

    /// Adds them to a text, an empty statement if there are none, and takes them away.
    pub(crate) fn add_inner(&mut self, out: &mut Text) {
        if self.last == 0 {
            out.end_with(b"  ;");
        }
        self.add_to(out);
        self.text.clear();
        self.last = 0;
    }
}
