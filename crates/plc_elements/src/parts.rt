//! The parts of a body by their numbers.

ghost use Rattle.std.specs.Prelude.{◌≡◌, IfSome, IsTrue, Some, slice_get};
ghost use Rattle.xml_parts.specs.Parts.{part_of};
ghost use Rattle.plc_elements.specs.Elements.{parts_of};

use crate::names::Body;
use xml_document::Document;
use xml_parts::{Part, bytes_at};

/// The part with a number.
#[tactic(auto, using(crate::proofs::Got::part_got))]
pub(crate) fn part_at(body: Body<'_>, number: usize) -> Option<Part>
    ensures { IfSome result (λ part. slice_get (parts_of body.entry) number ≡ Some (part_of body.entry.document.now part)) }
{
    body.parts.get(number).copied()
}

/// Whether a part has a name.
pub(crate) fn is_named(document: &Document, part: Part, name: &[u8]) -> bool
    ensures { IsTrue result → (part_of document.now part).0 ≡ name.now }
{
    bytes_at(&document.bytes, part.name) == name
}
