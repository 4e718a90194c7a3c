//! XML 1.0 documents in UTF-8, without a document type: what a text says, element by element, or where it stops being a document.
#![tactic(auto)]

mod characters;
mod content;
mod document;
mod element;
mod fault;
mod markup;
mod prolog;
mod read;
mod reference;
mod tag;
mod value;

pub use document::{Document, Event, Span};
pub use element::DEPTH;
pub use fault::{Reason, XmlFault};
pub use read::read_document;
pub use tag::ATTRIBUTES;
