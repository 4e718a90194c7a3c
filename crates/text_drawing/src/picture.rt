//! What a drawing is written from.

use diagram_page::Part;
use diagram_program::Program;
use scan_cycle::{Mark, State};

/// How a drawing is written.
#[derive(Clone, Copy, Debug, PartialEq, Eq)]
pub enum Style {
    /// As text, with marks in the place of characters.
    Marked,
    /// As text that another may follow.
    MarkedFrame,
    /// As a page of HTML, with elements round characters.
    Page,
    /// As one of the pictures of a page.
    PageFrame,
}

/// How a program is drawn, the state after the scan, the variable whose coils are explained, the rungs among the lines of its text, what
/// was seen, and these lines.
#[derive(Clone, Copy)]
pub(crate) struct Picture<'a> {
    pub style: Style,
    pub program: &'a Program,
    pub after: &'a State,
    pub coil: Option<usize>,
    pub parts: &'a [Part],
    pub marks: &'a [Mark],
    pub lines: &'a [&'a [u8]],
}
