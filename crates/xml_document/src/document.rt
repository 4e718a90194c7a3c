//! What a document says.

/// A range of the bytes of a document.
#[derive(Clone, Copy)]
pub struct Span {
    pub start: usize,
    /// The place behind the last byte.
    pub end: usize,
}

/// What stands at a place of a document. The attributes of an element stand right behind its `Open`.
#[derive(Clone, Copy)]
pub enum Event {
    Open { name: Span },
    Attribute { name: Span, value: Span },
    /// All characters between two tags, if there are any: no two of these stand side by side.
    Characters { text: Span },
    Close,
}

/// What a text says, in its order. Spans are those of `bytes`, which has names, and values and characters with their references replaced.
#[derive(Drop)]
pub struct Document {
    pub bytes: Vec<u8>,
    pub events: Vec<Event>,
}
