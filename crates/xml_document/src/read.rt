//! A text, read as a document.

ghost use Rattle.std.specs.Prelude.{All, IfErr, IfOk, length};
ghost use Rattle.xml_document.specs.Characters.{IsText};
ghost use Rattle.xml_document.specs.Documents.{IsDocument, Prolog, Root};
ghost use Rattle.xml_document.specs.Items.{HasSpans, items_of};
ghost use Rattle.xml_document.specs.Reads.{Grows};
ghost use Rattle.xml_document.specs.Refusals.{Refuses};

use crate::characters::check_characters;
use crate::document::Document;
use crate::element::{DEPTH, read_element};
use crate::fault::{Reason, Refusal, XmlFault, placed, refused};
use crate::prolog::{behind_declaration, behind_misc, behind_order_mark};
use std::alloc::Global;

/// Where the prolog ends.
fn behind_prolog(text: &[u8]) -> Result<&[u8], Refusal>
    ensures text { IfOk result (λ _. IsText text.now) }
    ensures prolog { IfOk result (λ root. Prolog text.now root.now) }
{
    check_characters(text)?;
    behind_misc(behind_declaration(behind_order_mark(text))?)
}

/// Reads the root element and what is behind it.
fn read_root(document: &mut Document, text: &[u8]) -> Result<(), Refusal>
    ensures { IfOk result (λ _. Grows (Root text.now) document.old document.new) }
{
    if !text.starts_with(b"<") {
        return Err(refused(Reason::Outside, text));
    }
    let behind = behind_misc(read_element(document, DEPTH, text)?)?;
    if !behind.is_empty() {
        return Err(refused(Reason::Outside, behind));
    }
    Ok(())
}

/// Reads a text as an XML 1.0 document in UTF-8, with no document type. Line ends and blanks stand as they do in the text: CR LF isn't LF, and a tab
/// or a line end in a value isn't a space.
///
/// Names are of ASCII, a tag has at most [`ATTRIBUTES`](crate::ATTRIBUTES) attributes, and at most [`DEPTH`] elements that have an end tag stand within one
/// another.
///
/// # Errors
///
/// `Doctype` has the place of a document type. `Text` has the reason, and the place of the tag, the attribute, the reference, the comment, the processing
/// instruction or the section that can't be read. `Memory` where memory runs out.
pub fn read_document(alloc: Global, text: &[u8]) -> Result<Document, XmlFault>
    ensures read { IfOk result (λ document. IsDocument text.now (items_of document)) }
    ensures spans { IfOk result (λ document. All (HasSpans (length document.bytes.items)) document.events.items) }
    ensures refused { IfErr result (Refuses text.now) }
{
    let root = match behind_prolog(text) {
        Ok(root) => root,
        Err(refusal) => return Err(placed(refusal, text)),
    };
    if root.starts_with(b"<!DOCTYPE") {
        return Err(XmlFault::Doctype {
            at: text.len() - root.len(),
        });
    }
    let mut document = Document {
        bytes: Vec::new(alloc),
        events: Vec::new(alloc),
    };
    match read_root(&mut document, root) {
        Ok(()) => Ok(document),
        Err(refusal) => Err(placed(refusal, text)),
    }
}
