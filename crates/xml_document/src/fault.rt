//! Why a text is no document that can be read.

ghost use Rattle.std.specs.Prelude.{◌≡◌};
ghost use Rattle.xml_document.specs.declared.fault.Refusal.TheVariants.{Memory};
ghost use Rattle.xml_document.specs.Refusals.{Refuses};

use std::alloc::{AllocError, AllocFailed};
use thiserror::Error;

/// Why a text is no document that can be read.
#[derive(Clone, Copy, Debug, Error)]
pub enum XmlFault {
    #[error("out of memory")]
    Memory,
    /// What is before it is a prolog.
    #[error("a document type")]
    Doctype {
        /// The place of the byte.
        at: usize,
    },
    #[error("{reason}")]
    Text {
        reason: Reason,
        /// The place of the byte.
        at: usize,
    },
}

/// What stands at a place, or doesn't.
#[derive(Clone, Copy, Debug, Error)]
pub enum Reason {
    #[error("a character that XML doesn't allow, or bytes that are no UTF-8")]
    Character,
    #[error("an XML declaration that can't be read")]
    Declaration,
    #[error("an encoding other than UTF-8")]
    Encoding,
    #[error("something other than one root element")]
    Outside,
    #[error("a comment with no end, or with `--` in it")]
    Comment,
    #[error("a processing instruction that can't be read")]
    Instruction,
    #[error("a CDATA section with no end")]
    Section,
    #[error("a reference to no character, or to an entity that isn't one of the five")]
    Reference,
    #[error("`]]>` in text")]
    SectionEnd,
    #[error("a tag that can't be read")]
    Tag,
    #[error("an attribute that can't be read")]
    Attribute,
    #[error("an attribute twice in a tag")]
    Twice,
    #[error("too many attributes in a tag")]
    Attributes,
    #[error("an end tag that isn't that of the open element")]
    EndTag,
    #[error("elements nested too deep")]
    Depth,
    #[error("the text ends too early")]
    End,
}

/// Why a part of a text can't be read.
#[derive(Clone, Copy)]
pub(crate) enum Refusal {
    Memory,
    Text {
        reason: Reason,
        /// How many bytes of the text are left at the place.
        left: usize,
    },
}

impl From<AllocError> for Refusal {
    ghost from_gives = { λ _ e. e ≡ Memory };

    /// Reading needed memory that there isn't.
    fn from(_error: AllocError) -> Refusal {
        Refusal::Memory
    }
}

impl<T: Drop> From<AllocFailed<T>> for Refusal {
    ghost from_gives = { λ _ e. e ≡ Memory };

    /// The same, where the value that found no room is handed back; it is dropped.
    fn from(_error: AllocFailed<T>) -> Refusal {
        Refusal::Memory
    }
}

/// What stands at the start of the rest of a text is refused.
pub(crate) fn refused(reason: Reason, rest: &[u8]) -> Refusal {
    let left = rest.len();
    let reason = if rest.is_empty() { Reason::End } else { reason };
    Refusal::Text { reason, left }
}

/// A refusal with its place in a text.
pub(crate) fn placed(refusal: Refusal, text: &[u8]) -> XmlFault
    ensures { Refuses text.now result }
{
    match refusal {
        Refusal::Memory => XmlFault::Memory,
        Refusal::Text { reason, left } => XmlFault::Text {
            reason,
            at: text.len().saturating_sub(left),
        },
    }
}
