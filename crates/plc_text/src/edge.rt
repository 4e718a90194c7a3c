//! Edges, and the triggers that look at them.

use crate::fault::PlcReason;
use crate::xml::is_word;
use diagram_declarations::same_letters;
use xml_document::Document;
use xml_parts::attribute;

/// An edge of power.
#[derive(Clone, Copy)]
pub(crate) enum Edge {
    /// The power has come.
    Rising,
    /// The power has gone.
    Falling,
}

impl Edge {
    /// The type of the triggers that look at it.
    pub(crate) fn word(self) -> &'static [u8] {
        match self {
            Edge::Rising => b"R_TRIG",
            Edge::Falling => b"F_TRIG",
        }
    }

    /// Whether the power has gone.
    pub(crate) fn is_falling(self) -> bool {
        matches!(self, Edge::Falling)
    }
}

/// The edge that a trigger of a type looks at.
pub(crate) fn edge_of(word: &[u8]) -> Option<Edge> {
    if same_letters(word, Edge::Rising.word()) {
        return Some(Edge::Rising);
    }
    if same_letters(word, Edge::Falling.word()) {
        Some(Edge::Falling)
    } else {
        None
    }
}

/// The edge that a contact or a coil names, if it names one.
pub(crate) fn edge_in(document: &Document, place: usize) -> Result<Option<Edge>, PlcReason> {
    let Some(word) = attribute(document, place, b"edge") else {
        return Ok(None);
    };
    if is_word(word, b"none") {
        return Ok(None);
    }
    if is_word(word, b"rising") {
        return Ok(Some(Edge::Rising));
    }
    if is_word(word, b"falling") {
        Ok(Some(Edge::Falling))
    } else {
        Err(PlcReason::Value)
    }
}
